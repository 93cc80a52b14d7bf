// The commands.

/// A command.
#[derive(Clone, Copy)]
pub enum Verb {
    Check,
    Lint,
    Print,
    Upgrade,
    Graph,
    Mocks,
    Run,
    Debug,
    Test,
    Explore,
    Explain,
    Lsp,
}

impl Verb {
    /// What help tells of a command.
    pub fn about(self) -> &'static str {
        match self {
            Verb::Check =>
                "Judges a state machine's definition: prints ok, or tells its first fault",
            Verb::Lint =>
                "Tells everything that is wrong or suspicious in files, and where it stands",
            Verb::Print =>
                "Prints a definition's canonical form as compact JSON, or tells its first fault",
            Verb::Upgrade =>
                "Prints a definition as print does, in the newer spelling of Map states",
            Verb::Graph => "Prints the graph of a definition, for a program that draws it",
            Verb::Mocks =>
                "Prints a mock file to begin with, in which each Task of a definition gets an answer",
            Verb::Run => "Runs an execution and prints its replies, its history and its status",
            Verb::Debug => "Debugs an execution and prints its replies, its history and its status",
            Verb::Test => "Runs the tests of a suite and prints a report of each",
            Verb::Explore =>
                "Tries every order of an execution's branches and prints each outcome with an order that ends in it",
            Verb::Explain =>
                "Explains a code that a command told, with an example, or lists all codes",
            Verb::Lsp =>
                "Serves an editor by the Language Server Protocol, over standard input and output",
        }
    }
}
