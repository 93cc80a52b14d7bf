// What the words of a command line ask for.

/// What a command line asks for, and how much is told beside that.
#[derive(Clone, Copy)]
pub struct Asked<'a> {
    pub words: Words<'a>,
    /// Whether neither notes nor lines for a person behind that of a fault are told.
    pub quiet: bool,
}

/// What a command is to do.
#[derive(Clone, Copy)]
pub enum Words<'a> {
    /// A definition is to be judged.
    Check(DefinitionWords<'a>),
    /// The same of each workflow of a project.
    CheckAll(ProjectWords<'a>),
    /// All that is wrong with some files is to be told.
    Lint(LintWords<'a>),
    /// The same of the definition and the mock file of each workflow of a project.
    LintAll(LintAllWords<'a>),
    /// A definition is to be printed in its canonical form.
    Print(PrintWords<'a>),
    /// A definition is to be printed in the newer spelling of Map states.
    Upgrade(PrintWords<'a>),
    /// A definition's graph is to be printed.
    Graph(GraphWords<'a>),
    /// A mock file is to be printed for a definition.
    Mocks(MocksWords<'a>),
    /// An execution is to be emulated.
    Run(RunWords<'a>),
    /// An execution is to be debugged.
    Debug(DebugWords<'a>),
    /// The tests of a suite are to be run.
    Test(TestWords<'a>),
    /// The tests of each workflow of a project are to be run.
    TestAll(TestAllWords<'a>),
    /// Every order of an execution is to be tried.
    Explore(ExploreWords<'a>),
    /// The same is to be done of each test case of a project's workflows.
    ExploreAll(ExploreAllWords<'a>),
    /// Every order is to be tried where errors are put in.
    Errors(ErrorsWords<'a>),
    /// A code is to be explained, or all are to be listed.
    Explain(ExplainWords<'a>),
    Lsp,
}

/// The word of `check`: the name of a file.
#[derive(Clone, Copy)]
pub struct DefinitionWords<'a> {
    pub definition: &'a str,
}

/// The word of a command on a project.
#[derive(Clone, Copy)]
pub struct ProjectWords<'a> {
    /// The name of the project's file; none where it is the usual one.
    pub project: Option<&'a str>,
}

/// What a command is done for.
#[derive(Clone, Copy)]
pub enum Subject<'a> {
    /// The definition in the file of this name.
    Definition(DefinitionWords<'a>),
    /// Each workflow of a project.
    Project(ProjectWords<'a>),
}

/// The words of `print` and of `upgrade`.
#[derive(Clone, Copy)]
pub struct PrintWords<'a> {
    pub definition: DefinitionWords<'a>,
    /// Whether it is printed for a person, a line for each member and item.
    pub pretty: bool,
}

/// How findings are printed.
#[derive(Clone, Copy)]
pub enum LintFormat {
    /// A line a finding, and how many there are.
    Text,
    /// A JSON object a finding, each on a line.
    Json,
    /// One JSON text in SARIF 2.1.0.
    Sarif,
    /// Workflow commands of GitHub Actions, each on a line.
    Github,
    /// One JSON text, a Code Quality report of GitLab.
    Gitlab,
}

/// The words of `lint`, beside the names of files that stand one after another.
#[derive(Clone, Copy)]
pub struct LintWords<'a> {
    /// The names of files of which it is said what they are.
    pub mocks: Option<&'a str>,
    pub expectations: Option<&'a str>,
    pub input: Option<&'a str>,
    pub steps: Option<&'a str>,
    pub script: Option<&'a str>,
    /// The name that the machine has in the mock file; none where that has only one.
    pub machine: Option<&'a str>,
    pub format: LintFormat,
    /// Whether warnings count as errors.
    pub strict: bool,
}

/// The words of `lint` on a project.
#[derive(Clone, Copy)]
pub struct LintAllWords<'a> {
    pub project: ProjectWords<'a>,
    pub format: LintFormat,
    /// Whether warnings count as errors.
    pub strict: bool,
}

/// How a graph is printed.
#[derive(Clone, Copy)]
pub enum GraphFormat {
    /// A flowchart of Mermaid.
    Mermaid,
    /// A flowchart of Mermaid in a fenced block of Markdown.
    Markdown,
    /// A directed graph of DOT.
    Dot,
}

/// The words of `graph`.
#[derive(Clone, Copy)]
pub struct GraphWords<'a> {
    pub definition: DefinitionWords<'a>,
    pub format: GraphFormat,
    /// The run of which the states are marked that it enters; none where nothing is run.
    pub run: Option<SetupWords<'a>>,
}

/// The words of `mocks`.
#[derive(Clone, Copy)]
pub struct MocksWords<'a> {
    pub definition: DefinitionWords<'a>,
    /// The name that the machine gets in the mock file.
    pub machine: &'a str,
    /// Whether it is printed for a person, a line for each member and item.
    pub pretty: bool,
}

/// What an execution begins with: names of files, and the machine and the case that are chosen.
#[derive(Clone, Copy)]
pub struct SetupWords<'a> {
    pub definition: &'a str,
    pub mocks: &'a str,
    pub chosen: &'a str,
    pub input: &'a str,
}

/// What an execution of a workflow of a project begins with.
#[derive(Clone, Copy)]
pub struct ChosenWords<'a> {
    pub project: ProjectWords<'a>,
    /// The machine, or the machine and a case of it, as `Machine#Case`.
    pub chosen: &'a str,
    /// The input, or the name of its file; none where it is the workflow's.
    pub input: Option<&'a str>,
}

/// What the execution of a test begins with.
#[derive(Clone, Copy)]
pub struct TestedWords<'a> {
    pub definition: &'a str,
    pub mocks: &'a str,
    /// The file of tests, and behind a number sign the number, from 1, of one of them.
    pub test: &'a str,
    pub number: usize,
}

/// What an execution begins with: the files themselves are named, a project that names them, or a test that names its case and its input.
#[derive(Clone, Copy)]
pub enum Begin<'a> {
    Files(SetupWords<'a>),
    Project(ChosenWords<'a>),
    Test(TestedWords<'a>),
}

/// How a run is printed.
#[derive(Clone, Copy)]
pub enum RunFormat<'a> {
    /// Its replies, its history and its status.
    Text,
    /// Its history, a JSON object each on a line.
    Json,
    /// Its history as one JSON text, in the shape in which the service tells one of the region of this name; none where it is the usual one.
    Aws(Option<&'a str>),
    /// The steps that it took, as a file of steps.
    Steps,
    /// What happened at each state, for a person.
    Tree,
    /// The same, with what each state made of its data, stage by stage.
    Data,
}

/// The words of `run`.
#[derive(Clone, Copy)]
pub struct RunWords<'a> {
    pub begin: Begin<'a>,
    /// The name of a file. Where no file of steps is named, the execution takes the steps that come next.
    pub steps: Option<&'a str>,
    /// So many of the steps that come next, from 1 to 1,000,000, are taken at most; none where nothing is said of it.
    pub most_steps: Option<u32>,
    pub format: RunFormat<'a>,
    /// Whether what happened at each state is told in colours.
    pub coloured: bool,
}

/// How the debugger tells what the steps of a line do.
#[derive(Clone, Copy)]
pub enum DebugFormat {
    /// What was replied to each.
    Text,
    /// What happened at each state, and where each branch stands then.
    Tree,
}

/// The words of `debug`.
#[derive(Clone, Copy)]
pub struct DebugWords<'a> {
    pub begin: Begin<'a>,
    /// The name of a file. Where no script is named, lines are read that are typed.
    pub script: Option<&'a str>,
    /// How lines that are typed are answered; a script is told as text.
    pub format: DebugFormat,
    /// Whether what happened at each state is told in colours.
    pub coloured: bool,
    /// Whether the first line that isn't carried out ends the talk.
    pub strict: bool,
}

/// How the reports of a suite are printed.
#[derive(Clone, Copy)]
pub enum ReportFormat {
    /// A line a test, and how many passed and failed.
    Text,
    /// JUnit XML, as systems of continuous integration read it.
    JUnit,
    /// A JSON object a test, each on a line.
    Json,
}

/// How it is told what tests cover.
#[derive(Clone, Copy)]
pub enum CoverageFormat {
    /// How much, and a line for each point that isn't covered.
    Text,
    /// One JSON object.
    Json,
    /// A tracefile of LCOV.
    Lcov,
}

/// A part of a suite: the tests of these numbers, from 1: `first`, and each that stands `apart` behind one of them.
#[derive(Clone, Copy)]
pub struct Shard {
    pub first: usize,
    pub apart: usize,
}

/// In which orders of its branches each test has to hold.
#[derive(Clone, Copy)]
pub struct OrderWords {
    /// Whether also in those in which a branch is late.
    pub every: bool,
    /// So many worlds, from 1 to 1,000,000, are tried at most for each test.
    pub limit: u32,
}

/// The words of `test`.
#[derive(Clone, Copy)]
pub struct TestWords<'a> {
    pub definition: &'a str,
    pub mocks: &'a str,
    pub expectations: &'a str,
    /// So many workers, from 1 to 64, run the tests.
    pub workers: usize,
    pub format: ReportFormat,
    /// The name of the file that the reports are written to as JUnit's XML beside what is printed; none where none is.
    pub junit: Option<&'a str>,
    /// The same for JSON.
    pub json: Option<&'a str>,
    pub shard: Shard,
    /// What stands in the machine and the case, or in the name, of each test that is run; none where all are.
    pub filter: Option<&'a str>,
    /// Whether the tests are listed, and none is run.
    pub list: bool,
    /// The least percent that the tests are to cover; none where nothing is told of what they cover.
    pub coverage: Option<u32>,
    /// How this is told.
    pub coverage_format: CoverageFormat,
    /// Whether a test fails that may not mean what it says.
    pub strict: bool,
    /// In which orders each test has to hold; none where only the order counts in which its run is driven.
    pub orders: Option<OrderWords>,
    /// Whether its reports stand among those of other files of tests.
    pub among: bool,
}

/// The words of `test` on a project. What they say of tests holds for each file of tests by itself.
#[derive(Clone, Copy)]
pub struct TestAllWords<'a> {
    pub project: ProjectWords<'a>,
    pub workers: usize,
    pub format: ReportFormat,
    pub junit: Option<&'a str>,
    pub json: Option<&'a str>,
    pub shard: Shard,
    pub filter: Option<&'a str>,
    pub list: bool,
    pub coverage: Option<u32>,
    pub coverage_format: CoverageFormat,
    pub strict: bool,
    /// In which orders each test has to hold; none where only the order counts in which its run is driven.
    pub orders: Option<OrderWords>,
}

/// How the steps of one outcome of a search are printed.
#[derive(Clone, Copy)]
pub enum WitnessFormat {
    /// As a file of steps.
    Steps,
    /// By what happened at each state.
    Tree,
    /// The same, with the data of each.
    Data,
    /// As an expectation file of one test that takes them.
    Test,
}

/// The words of `explore`.
#[derive(Clone, Copy)]
pub struct ExploreWords<'a> {
    pub begin: Begin<'a>,
    /// So many worlds, from 1 to 1,000,000, are tried at most.
    pub limit: u32,
    /// Whether only orders are tried in which no branch is late.
    pub prompt: bool,
    /// Whether it is told how often each Task is invoked in the orders that end in each outcome.
    pub calls: bool,
    /// The number, from 1, of the outcome whose steps are to be printed; none where all outcomes are.
    pub witness: Option<u32>,
    /// How these are printed.
    pub format: WitnessFormat,
    /// Whether what happened at each state is told in colours.
    pub coloured: bool,
}

/// A definition of which each Task is answered as in a mock file to begin with.
#[derive(Clone, Copy)]
pub struct SampleWords<'a> {
    pub definition: &'a str,
    /// The name of the file of the input; none where that is an empty object.
    pub input: Option<&'a str>,
}

/// What an execution begins with where errors are put in.
#[derive(Clone, Copy)]
pub enum ErrorsBegin<'a> {
    /// A case of a mock file answers.
    Case(Begin<'a>),
    /// No mock file is named.
    Sample(SampleWords<'a>),
}

/// What is printed of one outcome where errors are put in.
#[derive(Clone, Copy)]
pub enum ErrorsFormat {
    /// The mock file of a plan that gives it.
    Mocks,
    /// The steps that end in it under this plan.
    Steps(WitnessFormat),
}

/// How what comes of all plans is printed.
#[derive(Clone, Copy)]
pub enum PlansFormat {
    /// As text.
    Text,
    /// As lines of JSON.
    Json,
}

/// What is printed where errors are put in.
#[derive(Clone, Copy)]
pub enum ErrorsShown {
    /// What comes of all plans.
    Plans(PlansFormat),
    /// The outcome of this number, from 1, under a plan that gives it.
    Outcome(u32, ErrorsFormat),
}

/// The words of `explore` on a project.
#[derive(Clone, Copy)]
pub struct ExploreAllWords<'a> {
    pub project: ProjectWords<'a>,
    /// So many worlds, from 1 to 1,000,000, are tried at most of each test case.
    pub limit: u32,
    /// Whether only those orders are tried in which no branch is late.
    pub prompt: bool,
    /// Whether it is told how often Tasks are invoked.
    pub calls: bool,
}

/// The words of `explore` where errors are put in.
#[derive(Clone, Copy)]
pub struct ErrorsWords<'a> {
    pub begin: ErrorsBegin<'a>,
    /// So many errors, at most 2, are put in at once at most.
    pub errors: u32,
    /// So many worlds, from 1 to 1,000,000, are tried at most under each plan.
    pub limit: u32,
    /// Whether only orders are tried in which no branch is late.
    pub prompt: bool,
    pub shown: ErrorsShown,
    /// Whether what happened at each state is told in colours.
    pub coloured: bool,
}

/// The word of `explain`.
#[derive(Clone, Copy)]
pub struct ExplainWords<'a> {
    /// The code to explain; none where all are to be listed.
    pub code: Option<&'a str>,
}
