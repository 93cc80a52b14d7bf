// What may stand where in a definition.

/// The largest whole number that a member may be, as `Seconds` and `MaxAttempts`.
pub const MOST_WHOLE: i128 = 99_999_999;

/// The types of states. (Amazon States Language, "State Types".)
#[derive(Clone, Copy, Debug, PartialEq, Eq)]
pub enum Kind {
    /// `"Type": "Task"`.
    Task,
    /// `"Type": "Pass"`.
    Pass,
    /// `"Type": "Choice"`.
    Choice,
    /// `"Type": "Wait"`.
    Wait,
    /// `"Type": "Parallel"`.
    Parallel,
    /// `"Type": "Map"`.
    Map,
    /// `"Type": "Succeed"`.
    Succeed,
    /// `"Type": "Fail"`.
    Fail,
}

/// What a value of a definition is to be.
#[derive(Clone, Copy, Debug, PartialEq, Eq)]
pub enum Sort {
    /// The whole definition: a state machine.
    Definition,
    /// A state machine inside a state.
    Machine,
    /// The state machine of an `ItemProcessor`.
    ItemProcessor,
    /// The `ProcessorConfig` of an `ItemProcessor`.
    ProcessorConfig,
    /// The `Mode` of a `ProcessorConfig`.
    Mode,
    /// State machines.
    Machines,
    /// The states of a machine by their names.
    States,
    /// A state.
    State,
    /// The `Type` of a state.
    KindName,
    /// The `Version` of the language.
    Version,
    /// The `QueryLanguage`.
    QueryLanguage,
    /// A text.
    Text,
    /// `true` or `false`.
    Truth,
    /// The name of a state of the same machine.
    Target,
    /// A path, into the input or into the Context Object.
    Path,
    /// A path, or null for nothing.
    PathOrNull,
    /// A path into the input, or null for nowhere.
    PlaceOrNull,
    /// A path where it begins with `$`, else a call of an intrinsic function.
    PathOrCall,
    /// A timestamp.
    Timestamp,
    /// A number.
    Number,
    /// A whole number from 0 to 99,999,999.
    FromZero,
    /// A whole number from 1 to 99,999,999.
    FromOne,
    /// A number from 1 to 1000.
    Rate,
    /// A whole number from 1 to 31,622,399.
    DelayLimit,
    /// `FULL` or `NONE`.
    Jitter,
    /// The rules of a Choice state.
    Rules,
    /// A rule of a Choice state.
    Rule,
    /// Rules inside a rule.
    InnerRules,
    /// A rule inside a rule.
    InnerRule,
    /// The retriers of a state.
    Retriers,
    /// A retrier.
    Retrier,
    /// The catchers of a state.
    Catchers,
    /// A catcher.
    Catcher,
    /// The names of errors that a retrier or a catcher is for.
    ErrorNames,
    /// A payload template, or a part of one.
    Template,
    /// The value of a computed member of a template.
    Computed,
    /// Any value. It isn't searched.
    Any,
    /// The value of a member that stands for what isn't supported.
    Unsupported,
    /// The value of a member that the object may not have.
    Unknown,
}

/// The types of JSON that a value may be of.
#[derive(Clone, Copy, Debug, PartialEq, Eq)]
pub enum Form {
    /// An object.
    Object,
    /// A list.
    List,
    /// A text.
    Text,
    /// A text or null.
    TextOrNull,
    /// A truth value.
    Truth,
    /// A number.
    Number,
    /// Any value.
    Value,
}
