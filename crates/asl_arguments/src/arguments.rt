// The table of the command line: each command, and the arguments that it takes.
ghost use Rattle.std.specs.Prelude.{◌≡◌, map, true};
ghost use Rattle.std.specs.List.{list_all};
ghost use Rattle.clap.specs.Faults.{is_simple_and_free};
ghost use Rattle.asl_arguments.specs.Grammar.{asl_commands, app_for, command_seen, default_of, is_required};

use crate::arguments::Kind::{Choice, Flag, Number, Text, Texts, Word, Words};
use crate::arguments::Presence::{Default, Optional, Required};
use crate::helps::Help;
use asl_words::Verb;

/// What a command is called, and what it takes.
#[derive(Clone, Copy)]
pub struct CommandRow {
    pub verb: Verb,
    pub name: &'static str,
    /// Its arguments in the order of help, words in the order in which they come.
    pub arguments: &'static [Argument],
}

/// An argument of a command.
#[derive(Clone, Copy)]
pub struct Argument {
    /// What it is read back by; an option is written with two hyphens before it.
    pub name: &'static str,
    pub kind: Kind,
    pub presence: Presence,
    /// What help tells of it.
    pub help: Help,
}

/// What an argument is.
#[derive(Clone, Copy)]
pub enum Kind {
    /// A word, known by its place.
    Word,
    /// Words behind all others, as many as there are.
    Words,
    /// An option without a value.
    Flag,
    /// An option with a text, and what help calls that.
    Text(&'static str),
    /// The same, which may be there more than once.
    Texts(&'static str),
    /// An option with one of these words.
    Choice(&'static [&'static str]),
    /// An option with a number, what help calls that, and the least and the greatest.
    Number(&'static str, u64, u64),
}

/// When an argument is there.
#[derive(Clone, Copy)]
pub enum Presence {
    /// It has to be there.
    Required,
    /// It may be there.
    Optional,
    /// It has this value alone where it isn't given.
    Default(&'static [&'static str]),
}

/// The commands in the order of help. No other function names the table itself: a proof unfolds it wherever it is named.
pub fn commands() -> &'static [CommandRow]
    ensures table { map command_seen result.now ≡ asl_commands }
    ensures plain { list_all (λ c. is_simple_and_free (app_for c)) result.now ≡ true }
{
    COMMANDS
}

impl Presence {
    /// Whether an argument has to be there.
    pub(crate) fn is_required(&self) -> bool
        ensures { result ≡ is_required self.now }
    {
        matches!(self, Required)
    }

    /// The value that an argument has where it isn't given, if there is one.
    pub(crate) fn defaults(&self) -> &'static [&'static str]
        ensures { map (λ v. v.now) result.now ≡ default_of self.now }
    {
        match self {
            Default(values) => values,
            _ => &[],
        }
    }
}

const CHECK: &[Argument] = &[DEFINITION_OR_NONE, PROJECT, QUIET];

const LINT: &[Argument] = &[
    Argument {
        name: "FILE",
        kind: Words,
        presence: Optional,
        help: Help::LintFiles,
    },
    Argument {
        name: "mocks",
        kind: Text("FILE"),
        presence: Optional,
        help: Help::LintMocks,
    },
    Argument {
        name: "expect",
        kind: Text("FILE"),
        presence: Optional,
        help: Help::LintExpectations,
    },
    Argument {
        name: "input",
        kind: Text("FILE"),
        presence: Optional,
        help: Help::LintInput,
    },
    Argument {
        name: "steps",
        kind: Text("FILE"),
        presence: Optional,
        help: Help::LintSteps,
    },
    Argument {
        name: "script",
        kind: Text("FILE"),
        presence: Optional,
        help: Help::LintScript,
    },
    Argument {
        name: "machine",
        kind: Text("NAME"),
        presence: Optional,
        help: Help::LintMachine,
    },
    Argument {
        name: "format",
        kind: Choice(&["text", "json", "sarif", "github", "gitlab"]),
        presence: Default(&["text"]),
        help: Help::LintFormat,
    },
    Argument {
        name: "strict",
        kind: Flag,
        presence: Optional,
        help: Help::LintStrict,
    },
    Argument {
        name: "ignore",
        kind: Texts("RULE"),
        presence: Optional,
        help: Help::LintIgnore,
    },
    PROJECT_OF_FILES,
    QUIET,
];

const PRINT: &[Argument] = &[DEFINITION, PRETTY, QUIET];

const UPGRADE: &[Argument] = &[DEFINITION, PRETTY, QUIET];

const GRAPH: &[Argument] = &[
    DEFINITION,
    MOCKS_WORD,
    CHOSEN_WORD,
    INPUT_WORD,
    MOCKS_OPTION,
    CASE_OPTION,
    INPUT_OPTION,
    Argument {
        name: "run",
        kind: Flag,
        presence: Optional,
        help: Help::GraphRun,
    },
    Argument {
        name: "format",
        kind: Choice(&["mermaid", "markdown", "dot"]),
        presence: Default(&["mermaid"]),
        help: Help::GraphFormat,
    },
    QUIET,
];

const MOCKS: &[Argument] = &[
    DEFINITION,
    Argument {
        name: "MACHINE",
        kind: Word,
        presence: Default(&["Machine"]),
        help: Help::MocksMachine,
    },
    PRETTY,
    QUIET,
];

const RUN: &[Argument] = &[
    DEFINITION_OR_CHOSEN,
    MOCKS_WORD,
    CHOSEN_WORD,
    INPUT_WORD,
    MOCKS_OPTION,
    CASE_OPTION,
    INPUT_OPTION,
    TEST_OPTION,
    Argument {
        name: "steps",
        kind: Text("FILE"),
        presence: Optional,
        help: Help::RunSteps,
    },
    Argument {
        name: "max-steps",
        kind: Number("N", 1, 1_000_000),
        presence: Optional,
        help: Help::RunMostSteps,
    },
    Argument {
        name: "format",
        kind: Choice(&["text", "json", "aws", "steps", "tree", "data"]),
        presence: Default(&["text"]),
        help: Help::RunFormat,
    },
    Argument {
        name: "region",
        kind: Text("NAME"),
        presence: Optional,
        help: Help::RunRegion,
    },
    PROJECT_OF_CHOSEN,
    QUIET,
];

const DEBUG: &[Argument] = &[
    DEFINITION_OR_CHOSEN,
    MOCKS_WORD,
    CHOSEN_WORD,
    INPUT_WORD,
    MOCKS_OPTION,
    CASE_OPTION,
    INPUT_OPTION,
    TEST_OPTION,
    Argument {
        name: "SCRIPT",
        kind: Word,
        presence: Optional,
        help: Help::DebugScript,
    },
    Argument {
        name: "script",
        kind: Text("FILE"),
        presence: Optional,
        help: Help::ScriptOption,
    },
    Argument {
        name: "format",
        kind: Choice(&["text", "tree"]),
        presence: Optional,
        help: Help::DebugFormat,
    },
    Argument {
        name: "strict",
        kind: Flag,
        presence: Optional,
        help: Help::DebugStrict,
    },
    PROJECT_OF_CHOSEN,
    QUIET,
];

const TEST: &[Argument] = &[
    DEFINITION_OR_NONE,
    MOCKS_WORD,
    Argument {
        name: "EXPECT",
        kind: Word,
        presence: Optional,
        help: Help::TestExpectations,
    },
    Argument {
        name: "workers",
        kind: Number("N", 1, 64),
        presence: Default(&["1"]),
        help: Help::TestWorkers,
    },
    Argument {
        name: "format",
        kind: Choice(&["text", "junit", "json"]),
        presence: Default(&["text"]),
        help: Help::TestFormat,
    },
    Argument {
        name: "junit",
        kind: Text("FILE"),
        presence: Optional,
        help: Help::TestJUnit,
    },
    Argument {
        name: "json",
        kind: Text("FILE"),
        presence: Optional,
        help: Help::TestJson,
    },
    Argument {
        name: "shard",
        kind: Text("I/N"),
        presence: Optional,
        help: Help::TestShard,
    },
    Argument {
        name: "filter",
        kind: Text("WORD"),
        presence: Optional,
        help: Help::TestFilter,
    },
    Argument {
        name: "list",
        kind: Flag,
        presence: Optional,
        help: Help::TestList,
    },
    Argument {
        name: "coverage",
        kind: Flag,
        presence: Optional,
        help: Help::TestCoverage,
    },
    Argument {
        name: "min",
        kind: Number("PERCENT", 0, 100),
        presence: Optional,
        help: Help::TestMin,
    },
    Argument {
        name: "coverage-format",
        kind: Choice(&["text", "json", "lcov"]),
        presence: Optional,
        help: Help::TestCoverageFormat,
    },
    Argument {
        name: "strict",
        kind: Flag,
        presence: Optional,
        help: Help::TestStrict,
    },
    Argument {
        name: "orders",
        kind: Flag,
        presence: Optional,
        help: Help::TestOrders,
    },
    Argument {
        name: "every",
        kind: Flag,
        presence: Optional,
        help: Help::TestEvery,
    },
    Argument {
        name: "limit",
        kind: Number("N", 1, 1_000_000),
        presence: Optional,
        help: Help::TestLimit,
    },
    PROJECT,
    QUIET,
];

const EXPLORE: &[Argument] = &[
    DEFINITION_OR_CASES,
    MOCKS_WORD,
    CHOSEN_WORD,
    INPUT_WORD,
    MOCKS_OPTION,
    CASE_OPTION,
    INPUT_OPTION,
    TEST_OPTION,
    Argument {
        name: "limit",
        kind: Number("N", 1, 1_000_000),
        presence: Default(&["100000"]),
        help: Help::ExploreLimit,
    },
    Argument {
        name: "prompt",
        kind: Flag,
        presence: Optional,
        help: Help::ExplorePrompt,
    },
    Argument {
        name: "calls",
        kind: Flag,
        presence: Optional,
        help: Help::ExploreCalls,
    },
    Argument {
        name: "witness",
        kind: Number("I", 1, 1_000_000),
        presence: Optional,
        help: Help::ExploreWitness,
    },
    Argument {
        name: "format",
        kind: Choice(&["steps", "tree", "data", "test", "mocks", "json"]),
        presence: Optional,
        help: Help::ExploreFormat,
    },
    Argument {
        name: "errors",
        kind: Number("K", 0, 2),
        presence: Optional,
        help: Help::ExploreErrors,
    },
    Argument {
        name: "error",
        kind: Texts("NAME"),
        presence: Optional,
        help: Help::ExploreError,
    },
    Argument {
        name: "always",
        kind: Texts("RULE"),
        presence: Optional,
        help: Help::ExploreAlways,
    },
    Argument {
        name: "undo",
        kind: Texts("PAIR"),
        presence: Optional,
        help: Help::ExploreUndo,
    },
    PROJECT_OF_CHOSEN,
    QUIET,
];

const EXPLAIN: &[Argument] = &[
    Argument {
        name: "CODE",
        kind: Word,
        presence: Optional,
        help: Help::ExplainCode,
    },
    QUIET,
];

const LSP: &[Argument] = &[QUIET];

/// The name of a definition's file.
const DEFINITION: Argument = Argument {
    name: "DEF",
    kind: Word,
    presence: Required,
    help: Help::Definition,
};

/// The same, where the workflows of a project may stand for it.
const DEFINITION_OR_NONE: Argument = Argument {
    name: "DEF",
    kind: Word,
    presence: Optional,
    help: Help::DefinitionOrNone,
};

/// The same, where what is chosen of a project may stand for it.
const DEFINITION_OR_CHOSEN: Argument = Argument {
    name: "DEF",
    kind: Word,
    presence: Optional,
    help: Help::DefinitionOrChosen,
};

/// The same, where nothing need be named.
const DEFINITION_OR_CASES: Argument = Argument {
    name: "DEF",
    kind: Word,
    presence: Optional,
    help: Help::DefinitionOrCases,
};

/// The name of the file of the project of which something is chosen.
const PROJECT_OF_CHOSEN: Argument = Argument {
    name: "project",
    kind: Text("FILE"),
    presence: Optional,
    help: Help::ProjectOfChosen,
};

/// The name of a project's file.
const PROJECT: Argument = Argument {
    name: "project",
    kind: Text("FILE"),
    presence: Optional,
    help: Help::Project,
};

/// The same, where other files may be named in its place.
const PROJECT_OF_FILES: Argument = Argument {
    name: "project",
    kind: Text("FILE"),
    presence: Optional,
    help: Help::ProjectOfFiles,
};

/// Whether JSON is printed for a person.
const PRETTY: Argument = Argument {
    name: "pretty",
    kind: Flag,
    presence: Optional,
    help: Help::Pretty,
};

/// Whether little is told on standard error. Each command takes it.
const QUIET: Argument = Argument {
    name: "quiet",
    kind: Flag,
    presence: Optional,
    help: Help::Quiet,
};

/// The name of the mock file.
const MOCKS_WORD: Argument = Argument {
    name: "MOCKS",
    kind: Word,
    presence: Optional,
    help: Help::Mocks,
};

/// What is chosen of the mock file.
const CHOSEN_WORD: Argument = Argument {
    name: "CHOSEN",
    kind: Word,
    presence: Optional,
    help: Help::Chosen,
};

/// The name of the input's file.
const INPUT_WORD: Argument = Argument {
    name: "INPUT",
    kind: Word,
    presence: Optional,
    help: Help::Input,
};

const MOCKS_OPTION: Argument = Argument {
    name: "mocks",
    kind: Text("FILE"),
    presence: Optional,
    help: Help::MocksOption,
};

const CASE_OPTION: Argument = Argument {
    name: "case",
    kind: Text("CHOSEN"),
    presence: Optional,
    help: Help::CaseOption,
};

const INPUT_OPTION: Argument = Argument {
    name: "input",
    kind: Text("FILE"),
    presence: Optional,
    help: Help::InputOption,
};

/// A test that names its case and its input.
const TEST_OPTION: Argument = Argument {
    name: "test",
    kind: Text("SUITE#N"),
    presence: Optional,
    help: Help::TestOption,
};

const COMMANDS: &[CommandRow] = &[
    CommandRow {
        verb: Verb::Check,
        name: "check",
        arguments: CHECK,
    },
    CommandRow {
        verb: Verb::Lint,
        name: "lint",
        arguments: LINT,
    },
    CommandRow {
        verb: Verb::Print,
        name: "print",
        arguments: PRINT,
    },
    CommandRow {
        verb: Verb::Upgrade,
        name: "upgrade",
        arguments: UPGRADE,
    },
    CommandRow {
        verb: Verb::Graph,
        name: "graph",
        arguments: GRAPH,
    },
    CommandRow {
        verb: Verb::Mocks,
        name: "mocks",
        arguments: MOCKS,
    },
    CommandRow {
        verb: Verb::Run,
        name: "run",
        arguments: RUN,
    },
    CommandRow {
        verb: Verb::Debug,
        name: "debug",
        arguments: DEBUG,
    },
    CommandRow {
        verb: Verb::Test,
        name: "test",
        arguments: TEST,
    },
    CommandRow {
        verb: Verb::Explore,
        name: "explore",
        arguments: EXPLORE,
    },
    CommandRow {
        verb: Verb::Explain,
        name: "explain",
        arguments: EXPLAIN,
    },
    CommandRow {
        verb: Verb::Lsp,
        name: "lsp",
        arguments: LSP,
    },
];
