// What is given for the arguments of a command.

/// The value of each argument, as it is written or by its default; none where there is none.
#[derive(Clone, Copy)]
pub struct Given<'a> {
    pub definition: Option<&'a str>,
    pub mocks: Option<&'a str>,
    pub chosen: Option<&'a str>,
    pub input: Option<&'a str>,
    pub script: Option<&'a str>,
    pub machine: Option<&'a str>,
    /// The first of the files that are named one after another.
    pub file: Option<&'a str>,
    pub expectations: Option<&'a str>,
    pub code: Option<&'a str>,
    /// The options that may stand for words.
    pub mocks_option: Option<&'a str>,
    pub case_option: Option<&'a str>,
    pub input_option: Option<&'a str>,
    pub script_option: Option<&'a str>,
    pub expect_option: Option<&'a str>,
    pub machine_option: Option<&'a str>,
    pub steps: Option<&'a str>,
    pub format: Option<&'a str>,
    pub shard: Option<&'a str>,
    pub filter: Option<&'a str>,
    pub workers: Option<&'a str>,
    pub least: Option<&'a str>,
    pub limit: Option<&'a str>,
    pub witness: Option<&'a str>,
    pub errors: Option<&'a str>,
    /// The first of the errors that are named one after another.
    pub error: Option<&'a str>,
    /// The first of the rules that are named one after another.
    pub always: Option<&'a str>,
    /// The first of the pairs of Tasks that are named one after another.
    pub undo: Option<&'a str>,
    pub most_steps: Option<&'a str>,
    pub junit: Option<&'a str>,
    pub json: Option<&'a str>,
    pub region: Option<&'a str>,
    pub coverage_format: Option<&'a str>,
    pub project: Option<&'a str>,
    pub test: Option<&'a str>,
    pub strict: bool,
    pub run: bool,
    pub coverage: bool,
    pub prompt: bool,
    pub calls: bool,
    pub orders: bool,
    pub every: bool,
    pub list: bool,
    pub pretty: bool,
    pub quiet: bool,
}
