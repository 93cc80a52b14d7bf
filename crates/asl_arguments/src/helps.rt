// What help tells of arguments, and its examples. These texts stand apart from the table of arguments, since a proof unfolds that wherever it is named.

use asl_words::Verb;

/// What help tells of an argument.
#[derive(Clone, Copy)]
pub enum Help {
    LintFiles,
    LintMocks,
    LintExpectations,
    LintInput,
    LintSteps,
    LintScript,
    LintMachine,
    LintFormat,
    LintStrict,
    LintIgnore,
    GraphRun,
    GraphFormat,
    MocksMachine,
    RunSteps,
    RunMostSteps,
    RunFormat,
    RunRegion,
    DebugScript,
    ScriptOption,
    DebugFormat,
    DebugStrict,
    Mocks,
    TestExpectations,
    TestWorkers,
    TestFormat,
    TestJUnit,
    TestJson,
    TestShard,
    TestFilter,
    TestList,
    TestCoverage,
    TestMin,
    TestCoverageFormat,
    TestStrict,
    TestOrders,
    TestEvery,
    TestLimit,
    ExploreLimit,
    ExplorePrompt,
    ExploreCalls,
    ExploreWitness,
    ExploreFormat,
    ExploreErrors,
    ExploreError,
    ExploreAlways,
    ExploreUndo,
    ExplainCode,
    Definition,
    DefinitionOrNone,
    DefinitionOrChosen,
    DefinitionOrCases,
    Project,
    ProjectOfChosen,
    ProjectOfFiles,
    Pretty,
    Quiet,
    Chosen,
    Input,
    MocksOption,
    CaseOption,
    InputOption,
    TestOption,
}

impl Help {
    /// Its text.
    pub(crate) fn text(self) -> &'static str {
        match self {
            Help::LintFiles =>
                "Definitions, mock files, expectation files, steps files and scripts, which are told apart by what stands in them; without any, each workflow of the project is taken; - is standard input, as for each file",
            Help::LintMocks => "A mock file, also where that doesn't show",
            Help::LintExpectations => "An expectation file, also where that doesn't show",
            Help::LintInput => "An input of an execution",
            Help::LintSteps => "A steps file, also where that doesn't show",
            Help::LintScript => "A script, also where that doesn't show",
            Help::LintMachine =>
                "The machine's name in the mock file, where that has more than one",
            Help::LintFormat => "How the findings are printed",
            Help::LintStrict => "Counts warnings as errors",
            Help::LintIgnore =>
                "The rule whose warnings aren't told and don't count, besides those that the project ignores; it may be named more than once",
            Help::GraphRun => "Marks the states that a run of MOCKS, CHOSEN and INPUT enters",
            Help::GraphFormat => "The language of the graph",
            Help::MocksMachine => "The machine's name in the mock file",
            Help::RunSteps =>
                "The file of the steps to take; without it, each step is the one that comes next",
            Help::RunMostSteps =>
                "How many steps are taken at most where no file names them, from 1 to 1000000; 10000 if it isn't given",
            Help::RunFormat => "How the run is printed",
            Help::RunRegion => "The region that --format aws tells of; us-east-1 if it isn't given",
            Help::DebugScript =>
                "The file of the commands to carry out; without it, lines are read from standard input and answered at once",
            Help::ScriptOption => "Stands for the word SCRIPT",
            Help::DebugFormat =>
                "How the steps of a line are told: by their replies, or by what happened at each state, which is the default at a terminal",
            Help::DebugStrict =>
                "Ends with status 1 at the first line that is typed and not carried out",
            Help::Mocks => "The file of the mocked tasks",
            Help::TestExpectations => "The file of the tests: what each runs, and how it is to end",
            Help::TestWorkers => "How many workers run the tests side by side, from 1 to 64",
            Help::TestFormat => "How the reports are printed",
            Help::TestJUnit => "Writes the reports to this file as JUnit's XML, too",
            Help::TestJson => "Writes the reports to this file as JSON, too",
            Help::TestShard => "Only the tests I, I+N, .. of the file, counted from 1",
            Help::TestFilter => {
                "Only the tests of which the machine and the case, as Machine#Case, or the name contain WORD"
            }
            Help::TestList => "Lists the tests that would be run, and runs none",
            Help::TestCoverage => "Tells on standard error how much the tests cover",
            Help::TestMin =>
                "The least that the tests are to cover, from 0 to 100; it implies --coverage",
            Help::TestCoverageFormat =>
                "How it is told what the tests cover: as text, which is the default, as JSON, or as a tracefile of LCOV",
            Help::TestStrict =>
                "Fails a test that is ok though its run lacked an answer, or failed by accident",
            Help::TestOrders =>
                "Each test has to hold in every order of its branches in which none is late",
            Help::TestEvery => "With --orders: also in orders in which a branch is late",
            Help::TestLimit =>
                "With --orders: how many worlds are tried at most for each test, from 1 to 1000000; 100000 if it isn't given",
            Help::ExploreLimit => "How many worlds are tried at most, from 1 to 1000000",
            Help::ExplorePrompt =>
                "Tries only orders in which no branch is late: one steps only where none may step earlier",
            Help::ExploreCalls =>
                "Tells how often each Task is invoked in the orders that end in each outcome",
            Help::ExploreWitness =>
                "Prints the steps of the outcome of this number alone, as a steps file",
            Help::ExploreFormat =>
                "How the steps of --witness are printed: as a steps file, which is the default, by what happened at each state, or as a file of one test; with --errors also the mock file of its plan, and json where there is no --witness: what comes of each plan, as a line of JSON",
            Help::ExploreErrors =>
                "Tries every order where invocations of Tasks fail, too: under each plan of at most so many errors, from 0 to 2; Tasks that the case doesn't name are answered by the other cases of the machine, else as by asl mocks, so no mock file need be named",
            Help::ExploreError =>
                "With --errors: the error that is put in, in place of those that retriers and catchers tell apart; it may be named more than once",
            Help::ExploreAlways =>
                "With --errors: a rule that is to hold wherever the execution ends, as 'done(\"Charge\") and status(FAILED) => done(\"Refund\")'; it may be given more than once",
            Help::ExploreUndo =>
                "With --errors: two Tasks, as '\"Charge\"=\"Refund\"': wherever the execution doesn't succeed, the second is to return as often as the first; it may be given more than once",
            Help::ExplainCode =>
                "A code that a command told, as F10, no-default or States.Timeout; without it, all codes are listed",
            Help::Definition =>
                "The file of the state machine's definition; - is standard input, as for each file",
            Help::DefinitionOrNone =>
                "The file of the state machine's definition; without it, each workflow of the project is taken; - is standard input, as for each file",
            Help::Project =>
                "The project file, where no definition is named; asl.toml if it isn't given",
            Help::DefinitionOrCases =>
                "The file of the state machine's definition; or, in place of the first four words, Machine#Case of a project, behind which INPUT may stand; without any of them, each test case of the project's workflows is taken; - is standard input, as for each file",
            Help::DefinitionOrChosen =>
                "The file of the state machine's definition; or, in place of the first four words, Machine#Case of a project, behind which INPUT may stand; - is standard input, as for each file",
            Help::ProjectOfChosen =>
                "The project file, where the files of a workflow aren't named; asl.toml if it isn't given",
            Help::ProjectOfFiles =>
                "The project file, where no file is named; asl.toml if it isn't given",
            Help::Pretty => "Prints a line for each member and item, with spaces in front",
            Help::Quiet => "Tells a fault in one line, and no notes",
            Help::Chosen =>
                "The machine's name, the machine's and a case's as Machine#Case, or the case's alone where the mock file has one machine",
            Help::Input => {
                "The file of the execution's input, or the input itself, as '{\"id\":17}'"
            }
            Help::MocksOption => "Stands for the word MOCKS",
            Help::CaseOption => "Stands for the word CHOSEN",
            Help::InputOption => "Stands for the word INPUT",
            Help::TestOption =>
                "Stands for the words CHOSEN and INPUT: those of the test of this number, from 1, in the file SUITE",
        }
    }
}

/// How the help of a command ends: two command lines on files of the repository.
pub(crate) fn examples_of(verb: Verb) -> &'static str {
    match verb {
        Verb::Check => {
            "Examples:\n  asl check examples/order/definition.json\n  asl check - < examples/order/definition.json"
        }
        Verb::Lint => {
            "Examples:\n  asl lint examples/order/definition.json examples/order/mocks.json\n  asl lint examples/order/definition.json examples/order/mocks.json examples/order/expectations.json --input examples/order/input.json"
        }
        Verb::Print => {
            "Examples:\n  asl print examples/order/definition.json\n  asl print --pretty examples/order/definition.json"
        }
        Verb::Upgrade => {
            "Examples:\n  asl upgrade examples/orders/definition.json\n  asl upgrade --pretty examples/orders/definition.json"
        }
        Verb::Graph => {
            "Examples:\n  asl graph --format dot examples/order/definition.json\n  asl graph --run examples/order/definition.json examples/order/mocks.json unpaid examples/order/input.json"
        }
        Verb::Mocks => {
            "Examples:\n  asl mocks examples/order/definition.json\n  asl mocks --pretty examples/order/definition.json order"
        }
        Verb::Run => {
            "Examples:\n  asl run examples/order/definition.json examples/order/mocks.json shipped examples/order/input.json\n  asl run --format tree examples/order/definition.json examples/order/mocks.json unpaid '{\"id\":17}'"
        }
        Verb::Debug => {
            "Examples:\n  asl debug examples/order/definition.json examples/order/mocks.json unpaid examples/order/input.json\n  asl debug examples/order/definition.json examples/order/mocks.json unpaid examples/order/input.json examples/order/unpaid.script.txt"
        }
        Verb::Test => {
            "Examples:\n  asl test examples/order/definition.json examples/order/mocks.json examples/order/expectations.json\n  asl test --coverage --filter unpaid examples/order/definition.json examples/order/mocks.json examples/order/expectations.json"
        }
        Verb::Explore => {
            "Examples:\n  asl explore examples/loan/definition.json examples/loan/mocks.json both examples/loan/input.json\n  asl explore --errors 1 examples/loan/definition.json examples/loan/mocks.json both examples/loan/input.json"
        }
        Verb::Explain => "Examples:\n  asl explain F10\n  asl explain States.Timeout",
        Verb::Lsp => "Examples:\n  asl lsp",
    }
}
