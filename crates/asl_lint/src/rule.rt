// What a finding is of.
ghost use Rattle.std.specs.Prelude.{◌≡◌};
ghost use Rattle.asl_lint.specs.Reports.{is_mock_error, is_error};
ghost use Rattle.asl_lint.specs.Rules.{severity_of, word_of, rule_name, fault_name, mock_name, file_name, sentence, fault_sentence, warning_sentence, mock_sentence, file_sentence};

use asl_def_schema::FaultKind;
use asl_lint_warnings::WarningKind;

/// How bad a finding is.
#[derive(Clone, Copy, Debug, PartialEq, Eq)]
pub enum Severity {
    /// It is refused.
    Error,
    /// It is accepted, and surely isn't meant.
    Warning,
}

impl Severity {
    /// The word for it.
    #[tactic(auto, unfolding(crate::specs::Rules::word_of))]
    pub fn word(self) -> &'static str
        ensures { result.now ≡ word_of self }
    {
        match self {
            Severity::Error => "error",
            Severity::Warning => "warning",
        }
    }
}

/// What can be wrong with a mock file, by itself and beside a definition.
#[derive(Clone, Copy, Debug, PartialEq, Eq)]
pub enum MockRule {
    /// M1: it is no JSON text.
    Json,
    /// M2: a value doesn't fit.
    Shape,
    /// M3: a key of an answer is neither `N` nor `low-high`.
    Key,
    /// M4: an answer has a number of one before it.
    Overlap,
    /// M5: a case names a response that isn't there.
    NoResponse,
    /// M7: no machine has the name that was chosen, or it isn't said which of several is meant.
    NoMachine,
    /// A case has an answer for what is no state of the definition.
    UnknownState,
    /// A case has an answer for a state that is no Task.
    NotTask,
    /// No case has an answer for a Task.
    UnansweredTask,
    /// No case names a response.
    UnusedResponse,
    /// A response leaves out a number below its last one.
    MissingAnswer,
}

/// What can be wrong with a file that is neither a definition nor a mock file.
#[derive(Clone, Copy, Debug, PartialEq, Eq)]
pub enum FileRule {
    /// It isn't clear what the file is.
    Kind,
    /// J1: an input isn't written as JSON is.
    Syntax,
    /// J2: an object of an input has a key twice.
    Duplicate,
    /// J3: lists and objects of an input stand too deep.
    Depth,
    /// J4: a number of an input is past the limits.
    Number,
    /// J5: an input is too long.
    Size,
    /// J6: bytes of an input are no UTF-8.
    Utf8,
    /// X1: an expectation file is no JSON text.
    ExpectJson,
    /// X2: a value of an expectation file doesn't fit.
    ExpectShape,
    /// A test names a test case that the mock file doesn't have.
    NoCase,
    /// E1: a line of a steps file is no step.
    StepLine,
    /// E2: a line of a script is no command.
    ScriptLine,
}

/// What a finding is of.
#[derive(Clone, Copy, Debug, PartialEq, Eq)]
pub enum Rule {
    /// F1: the definition is no JSON text.
    Json,
    /// F2 to F15: a fault of the definition.
    Fault(FaultKind),
    /// Something suspicious of the definition.
    Warning(WarningKind),
    /// Something of the mock file.
    Mock(MockRule),
    /// Something of a file that is neither.
    File(FileRule),
}

impl Rule {
    /// Whether it is an error.
    pub fn is_error(self) -> bool
        ensures { result ≡ is_error self }
    {
        match self {
            Rule::Json | Rule::Fault(_) | Rule::File(_) => true,
            Rule::Warning(_) => false,
            Rule::Mock(rule) => is_mock_error(rule),
        }
    }

    /// How bad it is.
    pub fn severity(self) -> Severity
        ensures { result ≡ severity_of self }
    {
        if self.is_error() {
            Severity::Error
        } else {
            Severity::Warning
        }
    }

    /// Its name: a number or words.
    #[tactic(auto, unfolding(crate::specs::Rules::rule_name))]
    pub fn name(self) -> &'static str
        ensures { result.now ≡ rule_name self }
    {
        match self {
            Rule::Json => "F1",
            Rule::Fault(kind) => fault_name(kind),
            Rule::Warning(kind) => kind.name(),
            Rule::Mock(rule) => mock_name(rule),
            Rule::File(rule) => file_name(rule),
        }
    }

    /// What is wrong, in one sentence.
    #[tactic(auto, unfolding(crate::specs::Rules::sentence))]
    pub fn sentence(self) -> &'static str
        ensures { result.now ≡ sentence self }
    {
        match self {
            Rule::Json => "The definition is no JSON text.",
            Rule::Fault(kind) => fault_sentence(kind),
            Rule::Warning(kind) => warning_sentence(kind),
            Rule::Mock(rule) => mock_sentence(rule),
            Rule::File(rule) => file_sentence(rule),
        }
    }
}

fn is_mock_error(rule: MockRule) -> bool
    ensures { result ≡ is_mock_error rule }
{
    match rule {
        MockRule::Json
        | MockRule::Shape
        | MockRule::Key
        | MockRule::Overlap
        | MockRule::NoResponse
        | MockRule::NoMachine
        | MockRule::UnknownState
        | MockRule::NotTask => true,
        MockRule::UnansweredTask | MockRule::UnusedResponse | MockRule::MissingAnswer => false,
    }
}

#[tactic(auto, unfolding(crate::specs::Rules::fault_name))]
fn fault_name(kind: FaultKind) -> &'static str
    ensures { result.now ≡ fault_name kind }
{
    match kind {
        FaultKind::NotObject => "F2",
        FaultKind::Missing => "F3",
        FaultKind::UnknownField => "F4",
        FaultKind::Unsupported => "F5",
        FaultKind::WrongType => "F6",
        FaultKind::Range => "F7",
        FaultKind::Both => "F8",
        FaultKind::Neither => "F9",
        FaultKind::NoTarget => "F10",
        FaultKind::DuplicateState => "F11",
        FaultKind::AllNotLast => "F12",
        FaultKind::Path => "F13",
        FaultKind::Expression => "F14",
        FaultKind::Nesting => "F15",
    }
}

#[tactic(auto, unfolding(crate::specs::Rules::fault_sentence))]
fn fault_sentence(kind: FaultKind) -> &'static str
    ensures { result.now ≡ fault_sentence kind }
{
    match kind {
        FaultKind::NotObject => "The definition isn't an object.",
        FaultKind::Missing => "A required member is missing.",
        FaultKind::UnknownField => "The object may not have this member.",
        FaultKind::Unsupported => "Something of the language isn't supported.",
        FaultKind::WrongType => "A value is of a wrong type.",
        FaultKind::Range => "A value is outside its range.",
        FaultKind::Both => "Two members are there that exclude each other.",
        FaultKind::Neither => "None of the members is there of which one has to be.",
        FaultKind::NoTarget => "No state of the same machine has this name.",
        FaultKind::DuplicateState => "An earlier state of the definition has this name.",
        FaultKind::AllNotLast => "States.ALL isn't alone, or isn't in the last retrier or catcher.",
        FaultKind::Path => "A text isn't a path of the supported kind.",
        FaultKind::Expression => "A text isn't a call of an intrinsic function.",
        FaultKind::Nesting => "A machine is inside 16 others.",
    }
}

#[tactic(auto, unfolding(crate::specs::Rules::warning_sentence))]
fn warning_sentence(kind: WarningKind) -> &'static str
    ensures { result.now ≡ warning_sentence kind }
{
    match kind {
        WarningKind::UnreachableState => "Nothing leads to a state.",
        WarningKind::NoEnd => "From a state no end can be reached.",
        WarningKind::NoDefault => "A Choice has no Default.",
        WarningKind::OwnDefault => "The Default of a Choice leads back to it.",
        WarningKind::RepeatedRule => "An earlier rule of the Choice has the same test.",
        WarningKind::ImpossibleAnd => "Two rules of an And never hold both.",
        WarningKind::EndlessWait => "A Task that waits for a token has no time limit.",
        WarningKind::UnsentToken => "A Task that waits for a token gives it to nobody.",
        WarningKind::HeartbeatNotShorter => "A heartbeat isn't shorter than the time limit.",
        WarningKind::LimitBelowWait => "A Wait lasts as long as the time limit, or longer.",
        WarningKind::UnaskedHandler =>
            "Retriers or catchers before it are for all that this one names.",
        WarningKind::UnknownError => "No error of the language has this name.",
        WarningKind::RepeatedError => "The list names this error before.",
        WarningKind::UnusedDelay => "A retrier that never retries says how long it waits.",
        WarningKind::MaxDelayBelowInterval =>
            "The longest delay of a retrier is shorter than the first one.",
        WarningKind::ForgottenDollar =>
            "A text of a template looks like a path or a call and is none.",
        WarningKind::NotComputed => "A value that stays as it is looks computed.",
        WarningKind::UnknownContextMember => "The Context Object never has what a path names.",
        WarningKind::FailingCall => "A call of an intrinsic function fails on each input.",
    }
}

#[tactic(auto, unfolding(crate::specs::Rules::mock_name))]
fn mock_name(rule: MockRule) -> &'static str
    ensures { result.now ≡ mock_name rule }
{
    match rule {
        MockRule::Json => "M1",
        MockRule::Shape => "M2",
        MockRule::Key => "M3",
        MockRule::Overlap => "M4",
        MockRule::NoResponse => "M5",
        MockRule::NoMachine => "M7",
        MockRule::UnknownState => "unknown-state",
        MockRule::NotTask => "not-a-task",
        MockRule::UnansweredTask => "unanswered-task",
        MockRule::UnusedResponse => "unused-response",
        MockRule::MissingAnswer => "missing-answer",
    }
}

#[tactic(auto, unfolding(crate::specs::Rules::mock_sentence))]
fn mock_sentence(rule: MockRule) -> &'static str
    ensures { result.now ≡ mock_sentence rule }
{
    match rule {
        MockRule::Json => "The mock file is no JSON text.",
        MockRule::Shape => "A value of the mock file doesn't fit.",
        MockRule::Key => "The key of an answer is neither a number nor a range of numbers.",
        MockRule::Overlap => "An answer has a number of an earlier one.",
        MockRule::NoResponse => "A case names a response that isn't there.",
        MockRule::NoMachine => "It isn't clear which machine of the mock file the definition is.",
        MockRule::UnknownState => "A case has an answer for what is no state of the definition.",
        MockRule::NotTask => "A case has an answer for a state that is no Task.",
        MockRule::UnansweredTask => "No case of the mock file has an answer for this Task.",
        MockRule::UnusedResponse => "No case names this response.",
        MockRule::MissingAnswer => "A response leaves out a number below its last one.",
    }
}

#[tactic(auto, unfolding(crate::specs::Rules::file_name))]
fn file_name(rule: FileRule) -> &'static str
    ensures { result.now ≡ file_name rule }
{
    match rule {
        FileRule::Kind => "kind",
        FileRule::Syntax => "J1",
        FileRule::Duplicate => "J2",
        FileRule::Depth => "J3",
        FileRule::Number => "J4",
        FileRule::Size => "J5",
        FileRule::Utf8 => "J6",
        FileRule::ExpectJson => "X1",
        FileRule::ExpectShape => "X2",
        FileRule::NoCase => "nocase",
        FileRule::StepLine => "E1",
        FileRule::ScriptLine => "E2",
    }
}

#[tactic(auto, unfolding(crate::specs::Rules::file_sentence))]
fn file_sentence(rule: FileRule) -> &'static str
    ensures { result.now ≡ file_sentence rule }
{
    match rule {
        FileRule::Kind => "It isn't clear what the file is.",
        FileRule::Syntax => "The input isn't written as JSON is.",
        FileRule::Duplicate => "An object of the input has a key twice.",
        FileRule::Depth => "Lists and objects of the input stand too deep.",
        FileRule::Number => "A number of the input is past the limits.",
        FileRule::Size => "The input is too long.",
        FileRule::Utf8 => "Bytes of the input are no UTF-8.",
        FileRule::ExpectJson => "The expectation file is no JSON text.",
        FileRule::ExpectShape => "A value of the expectation file doesn't fit.",
        FileRule::NoCase => "A test names a test case that the mock file doesn't have.",
        FileRule::StepLine => "A line of the steps file is no step.",
        FileRule::ScriptLine => "A line of the script is no command.",
    }
}
