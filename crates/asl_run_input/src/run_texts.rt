// The texts of a run.

/// The texts of a run.
#[derive(Clone, Copy)]
pub struct RunTexts<'a> {
    /// A state machine's definition.
    pub definition: &'a [u8],
    /// A mock file.
    pub mocks: &'a [u8],
    /// The name of the machine, behind which `#` and the name of a test case may stand. It is cut at its first `#`; where no test
    /// case is named, none is looked up, whatever the machine's name.
    pub chosen: &'a str,
    /// The execution's input.
    pub input: &'a [u8],
    /// A file of steps, where there is one.
    pub steps: Option<&'a [u8]>,
}
