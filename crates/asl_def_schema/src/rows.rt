// The table of members.
ghost use Rattle.std.specs.Prelude.{◌≡◌, [], map, option_map};
ghost use Rattle.asl_json.specs.View.{data_of, members_of};
ghost use Rattle.asl_json_data.specs.Data.{pairs};
ghost use Rattle.asl_json.specs.Meaning.{value_at};
ghost use Rattle.asl_def_schema.specs.private.Code.{row_of, rows_of, groups_of, shape_seen};
ghost use Rattle.asl_def_schema.specs.declared.sort.Sort.{Sort};
ghost use Rattle.asl_def_schema.specs.Members.{shape_of, kind_rows, kind_groups, kind_of, kind_named, shape_in, sort_at, other_sort, item_sort, is_among, sort_in, unsupported_names, part_sort};

use crate::rows::Row::{Beside, Optional, Required};
use crate::sort::{Kind, Sort};
use asl_json::{Json, Member};
use asl_template::name_before;

/// A member that an object may have.
#[derive(Clone, Copy)]
pub enum Row {
    /// It has to be there.
    Required(&'static str, Sort),
    /// It may be there.
    Optional(&'static str, Sort),
    /// It has to be there beside any of these.
    Beside(&'static [&'static str], &'static str, Sort),
}

/// Members of which at most one is there, or exactly one.
#[derive(Clone, Copy)]
pub struct Group {
    /// Some of their names.
    pub names: &'static [&'static str],
    /// The others.
    pub more: &'static [&'static str],
    /// Whether one of them has to be there.
    pub exact: bool,
}

/// What an object may have: these members, others of one sort, and these groups among them.
#[derive(Clone, Copy)]
pub struct Shape {
    /// The members in canonical order.
    pub rows: &'static [Row],
    /// What all other members are to be.
    pub others: Sort,
    /// The groups among its members.
    pub groups: &'static [Group],
}

/// (Amazon States Language, "Top-level fields".)
const DEFINITION: &[Row] = &[
    Optional("Comment", Sort::Text),
    Optional("QueryLanguage", Sort::QueryLanguage),
    Optional("Version", Sort::Version),
    Required("StartAt", Sort::Target),
    Optional("TimeoutSeconds", Sort::FromOne),
    Required("States", Sort::States),
];

/// A machine of a Parallel state, or the `Iterator` of a Map state.
const MACHINE: &[Row] = &[
    Optional("Comment", Sort::Text),
    Required("StartAt", Sort::Target),
    Required("States", Sort::States),
];

/// The `ItemProcessor` of a Map state. (Amazon States Language, "Map State", "ItemProcessor".)
const ITEM_PROCESSOR: &[Row] = &[
    Optional("Comment", Sort::Text),
    Optional("ProcessorConfig", Sort::ProcessorConfig),
    Required("StartAt", Sort::Target),
    Required("States", Sort::States),
];

/// (Amazon States Language, "Map State", "ProcessorConfig".)
const PROCESSOR_CONFIG: &[Row] = &[Optional("Mode", Sort::Mode)];

/// A state whose type is missing or unknown.
const UNTYPED: &[Row] = &[Required("Type", Sort::KindName)];

/// (Amazon States Language, "Common State Fields", "Task State".)
const TASK: &[Row] = &[
    Required("Type", Sort::KindName),
    Optional("Comment", Sort::Text),
    Optional("QueryLanguage", Sort::QueryLanguage),
    Required("Resource", Sort::Text),
    Optional("InputPath", Sort::PathOrNull),
    Optional("Parameters", Sort::Template),
    Optional("Credentials", Sort::Any),
    Optional("TimeoutSeconds", Sort::FromOne),
    Optional("TimeoutSecondsPath", Sort::Path),
    Optional("HeartbeatSeconds", Sort::FromOne),
    Optional("HeartbeatSecondsPath", Sort::Path),
    Optional("ResultSelector", Sort::Template),
    Optional("ResultPath", Sort::PlaceOrNull),
    Optional("OutputPath", Sort::PathOrNull),
    Optional("Retry", Sort::Retriers),
    Optional("Catch", Sort::Catchers),
    Optional("Next", Sort::Target),
    Optional("End", Sort::Truth),
];

/// (Amazon States Language, "Common State Fields", "Pass State".)
const PASS: &[Row] = &[
    Required("Type", Sort::KindName),
    Optional("Comment", Sort::Text),
    Optional("QueryLanguage", Sort::QueryLanguage),
    Optional("InputPath", Sort::PathOrNull),
    Optional("Parameters", Sort::Template),
    Optional("Result", Sort::Any),
    Optional("ResultPath", Sort::PlaceOrNull),
    Optional("OutputPath", Sort::PathOrNull),
    Optional("Next", Sort::Target),
    Optional("End", Sort::Truth),
];

/// (Amazon States Language, "Common State Fields", "Choice State".)
const CHOICE: &[Row] = &[
    Required("Type", Sort::KindName),
    Optional("Comment", Sort::Text),
    Optional("QueryLanguage", Sort::QueryLanguage),
    Optional("InputPath", Sort::PathOrNull),
    Required("Choices", Sort::Rules),
    Optional("Default", Sort::Target),
    Optional("OutputPath", Sort::PathOrNull),
];

/// (Amazon States Language, "Common State Fields", "Wait State".)
const WAIT: &[Row] = &[
    Required("Type", Sort::KindName),
    Optional("Comment", Sort::Text),
    Optional("QueryLanguage", Sort::QueryLanguage),
    Optional("InputPath", Sort::PathOrNull),
    Optional("Seconds", Sort::FromZero),
    Optional("SecondsPath", Sort::Path),
    Optional("Timestamp", Sort::Timestamp),
    Optional("TimestampPath", Sort::Path),
    Optional("OutputPath", Sort::PathOrNull),
    Optional("Next", Sort::Target),
    Optional("End", Sort::Truth),
];

/// (Amazon States Language, "Common State Fields", "Parallel State".)
const PARALLEL: &[Row] = &[
    Required("Type", Sort::KindName),
    Optional("Comment", Sort::Text),
    Optional("QueryLanguage", Sort::QueryLanguage),
    Optional("InputPath", Sort::PathOrNull),
    Optional("Parameters", Sort::Template),
    Required("Branches", Sort::Machines),
    Optional("ResultSelector", Sort::Template),
    Optional("ResultPath", Sort::PlaceOrNull),
    Optional("OutputPath", Sort::PathOrNull),
    Optional("Retry", Sort::Retriers),
    Optional("Catch", Sort::Catchers),
    Optional("Next", Sort::Target),
    Optional("End", Sort::Truth),
];

/// (Amazon States Language, "Common State Fields", "Map State".)
const MAP: &[Row] = &[
    Required("Type", Sort::KindName),
    Optional("Comment", Sort::Text),
    Optional("QueryLanguage", Sort::QueryLanguage),
    Optional("InputPath", Sort::PathOrNull),
    Optional("ItemsPath", Sort::Path),
    Optional("MaxConcurrency", Sort::FromZero),
    Optional("Parameters", Sort::Template),
    Optional("ItemSelector", Sort::Template),
    Optional("Iterator", Sort::Machine),
    Optional("ItemProcessor", Sort::ItemProcessor),
    Optional("ResultSelector", Sort::Template),
    Optional("ResultPath", Sort::PlaceOrNull),
    Optional("OutputPath", Sort::PathOrNull),
    Optional("Retry", Sort::Retriers),
    Optional("Catch", Sort::Catchers),
    Optional("Next", Sort::Target),
    Optional("End", Sort::Truth),
];

/// (Amazon States Language, "Common State Fields", "Succeed State".)
const SUCCEED: &[Row] = &[
    Required("Type", Sort::KindName),
    Optional("Comment", Sort::Text),
    Optional("QueryLanguage", Sort::QueryLanguage),
    Optional("InputPath", Sort::PathOrNull),
    Optional("OutputPath", Sort::PathOrNull),
];

/// (Amazon States Language, "Common State Fields", "Fail State".)
const FAIL: &[Row] = &[
    Required("Type", Sort::KindName),
    Optional("Comment", Sort::Text),
    Optional("QueryLanguage", Sort::QueryLanguage),
    Optional("Error", Sort::Text),
    Optional("ErrorPath", Sort::PathOrCall),
    Optional("Cause", Sort::Text),
    Optional("CausePath", Sort::PathOrCall),
];

/// The tests of a rule. (Amazon States Language, "Data-test expression".)
const OPERATORS: &[&str] = &[
    "StringEquals",
    "StringEqualsPath",
    "StringLessThan",
    "StringLessThanPath",
    "StringGreaterThan",
    "StringGreaterThanPath",
    "StringLessThanEquals",
    "StringLessThanEqualsPath",
    "StringGreaterThanEquals",
    "StringGreaterThanEqualsPath",
    "NumericEquals",
    "NumericEqualsPath",
    "NumericLessThan",
    "NumericLessThanPath",
    "NumericGreaterThan",
    "NumericGreaterThanPath",
    "NumericLessThanEquals",
    "NumericLessThanEqualsPath",
    "NumericGreaterThanEquals",
    "NumericGreaterThanEqualsPath",
    "TimestampEquals",
    "TimestampEqualsPath",
    "TimestampLessThan",
    "TimestampLessThanPath",
    "TimestampGreaterThan",
    "TimestampGreaterThanPath",
    "TimestampLessThanEquals",
    "TimestampLessThanEqualsPath",
    "TimestampGreaterThanEquals",
    "TimestampGreaterThanEqualsPath",
    "BooleanEquals",
    "BooleanEqualsPath",
    "StringMatches",
    "IsNull",
    "IsPresent",
    "IsNumeric",
    "IsString",
    "IsBoolean",
    "IsTimestamp",
];

/// A rule inside a rule. (Amazon States Language, "Choice State", "Boolean expression".)
const INNER_RULE: &[Row] = &[
    Optional("Comment", Sort::Text),
    Beside(OPERATORS, "Variable", Sort::Path),
    Optional("And", Sort::InnerRules),
    Optional("Or", Sort::InnerRules),
    Optional("Not", Sort::InnerRule),
    Optional("StringEquals", Sort::Text),
    Optional("StringEqualsPath", Sort::Path),
    Optional("StringLessThan", Sort::Text),
    Optional("StringLessThanPath", Sort::Path),
    Optional("StringGreaterThan", Sort::Text),
    Optional("StringGreaterThanPath", Sort::Path),
    Optional("StringLessThanEquals", Sort::Text),
    Optional("StringLessThanEqualsPath", Sort::Path),
    Optional("StringGreaterThanEquals", Sort::Text),
    Optional("StringGreaterThanEqualsPath", Sort::Path),
    Optional("NumericEquals", Sort::Number),
    Optional("NumericEqualsPath", Sort::Path),
    Optional("NumericLessThan", Sort::Number),
    Optional("NumericLessThanPath", Sort::Path),
    Optional("NumericGreaterThan", Sort::Number),
    Optional("NumericGreaterThanPath", Sort::Path),
    Optional("NumericLessThanEquals", Sort::Number),
    Optional("NumericLessThanEqualsPath", Sort::Path),
    Optional("NumericGreaterThanEquals", Sort::Number),
    Optional("NumericGreaterThanEqualsPath", Sort::Path),
    Optional("TimestampEquals", Sort::Timestamp),
    Optional("TimestampEqualsPath", Sort::Path),
    Optional("TimestampLessThan", Sort::Timestamp),
    Optional("TimestampLessThanPath", Sort::Path),
    Optional("TimestampGreaterThan", Sort::Timestamp),
    Optional("TimestampGreaterThanPath", Sort::Path),
    Optional("TimestampLessThanEquals", Sort::Timestamp),
    Optional("TimestampLessThanEqualsPath", Sort::Path),
    Optional("TimestampGreaterThanEquals", Sort::Timestamp),
    Optional("TimestampGreaterThanEqualsPath", Sort::Path),
    Optional("BooleanEquals", Sort::Truth),
    Optional("BooleanEqualsPath", Sort::Path),
    Optional("StringMatches", Sort::Text),
    Optional("IsNull", Sort::Truth),
    Optional("IsPresent", Sort::Truth),
    Optional("IsNumeric", Sort::Truth),
    Optional("IsString", Sort::Truth),
    Optional("IsBoolean", Sort::Truth),
    Optional("IsTimestamp", Sort::Truth),
];

/// A rule of a Choice state.
const RULE: &[Row] = &[
    Optional("Comment", Sort::Text),
    Beside(OPERATORS, "Variable", Sort::Path),
    Optional("And", Sort::InnerRules),
    Optional("Or", Sort::InnerRules),
    Optional("Not", Sort::InnerRule),
    Optional("StringEquals", Sort::Text),
    Optional("StringEqualsPath", Sort::Path),
    Optional("StringLessThan", Sort::Text),
    Optional("StringLessThanPath", Sort::Path),
    Optional("StringGreaterThan", Sort::Text),
    Optional("StringGreaterThanPath", Sort::Path),
    Optional("StringLessThanEquals", Sort::Text),
    Optional("StringLessThanEqualsPath", Sort::Path),
    Optional("StringGreaterThanEquals", Sort::Text),
    Optional("StringGreaterThanEqualsPath", Sort::Path),
    Optional("NumericEquals", Sort::Number),
    Optional("NumericEqualsPath", Sort::Path),
    Optional("NumericLessThan", Sort::Number),
    Optional("NumericLessThanPath", Sort::Path),
    Optional("NumericGreaterThan", Sort::Number),
    Optional("NumericGreaterThanPath", Sort::Path),
    Optional("NumericLessThanEquals", Sort::Number),
    Optional("NumericLessThanEqualsPath", Sort::Path),
    Optional("NumericGreaterThanEquals", Sort::Number),
    Optional("NumericGreaterThanEqualsPath", Sort::Path),
    Optional("TimestampEquals", Sort::Timestamp),
    Optional("TimestampEqualsPath", Sort::Path),
    Optional("TimestampLessThan", Sort::Timestamp),
    Optional("TimestampLessThanPath", Sort::Path),
    Optional("TimestampGreaterThan", Sort::Timestamp),
    Optional("TimestampGreaterThanPath", Sort::Path),
    Optional("TimestampLessThanEquals", Sort::Timestamp),
    Optional("TimestampLessThanEqualsPath", Sort::Path),
    Optional("TimestampGreaterThanEquals", Sort::Timestamp),
    Optional("TimestampGreaterThanEqualsPath", Sort::Path),
    Optional("BooleanEquals", Sort::Truth),
    Optional("BooleanEqualsPath", Sort::Path),
    Optional("StringMatches", Sort::Text),
    Optional("IsNull", Sort::Truth),
    Optional("IsPresent", Sort::Truth),
    Optional("IsNumeric", Sort::Truth),
    Optional("IsString", Sort::Truth),
    Optional("IsBoolean", Sort::Truth),
    Optional("IsTimestamp", Sort::Truth),
    Required("Next", Sort::Target),
];

/// (Amazon States Language, "Retrying after error".)
const RETRIER: &[Row] = &[
    Optional("Comment", Sort::Text),
    Required("ErrorEquals", Sort::ErrorNames),
    Optional("IntervalSeconds", Sort::FromOne),
    Optional("MaxAttempts", Sort::FromZero),
    Optional("BackoffRate", Sort::Rate),
    Optional("MaxDelaySeconds", Sort::DelayLimit),
    Optional("JitterStrategy", Sort::Jitter),
];

/// (Amazon States Language, "Fallback states".)
const CATCHER: &[Row] = &[
    Optional("Comment", Sort::Text),
    Required("ErrorEquals", Sort::ErrorNames),
    Optional("ResultPath", Sort::PlaceOrNull),
    Required("Next", Sort::Target),
];

/// Members of the language that stand for what isn't supported.
const UNSUPPORTED: &[&str] = &[
    "Assign",
    "Arguments",
    "Output",
    "Items",
    "Condition",
    "ItemReader",
    "ItemBatcher",
    "ResultWriter",
    "ToleratedFailureCount",
    "ToleratedFailureCountPath",
    "ToleratedFailurePercentage",
    "ToleratedFailurePercentagePath",
    "Label",
    "MaxConcurrencyPath",
    "ExecutionType",
];

const NONE: &[&str] = &[];

const NO_ROWS: &[Row] = &[];

const NO_GROUPS: &[Group] = &[];

const CONNECTIVES: &[&str] = &["And", "Or", "Not"];

/// How a state goes on. (Amazon States Language, "Transitions".)
const TRANSITION: &[&str] = &["Next", "End"];

const MOVING: &[Group] = &[Group {
    names: TRANSITION,
    more: NONE,
    exact: true,
}];

const TASK_GROUPS: &[Group] = &[
    Group {
        names: &["TimeoutSeconds", "TimeoutSecondsPath"],
        more: NONE,
        exact: false,
    },
    Group {
        names: &["HeartbeatSeconds", "HeartbeatSecondsPath"],
        more: NONE,
        exact: false,
    },
    Group {
        names: TRANSITION,
        more: NONE,
        exact: true,
    },
];

const WAIT_GROUPS: &[Group] = &[
    Group {
        names: &["Seconds", "SecondsPath", "Timestamp", "TimestampPath"],
        more: NONE,
        exact: true,
    },
    Group {
        names: TRANSITION,
        more: NONE,
        exact: true,
    },
];

const MAP_GROUPS: &[Group] = &[
    Group {
        names: &["Iterator", "ItemProcessor"],
        more: NONE,
        exact: true,
    },
    Group {
        names: &["Parameters", "ItemSelector"],
        more: NONE,
        exact: false,
    },
    Group {
        names: TRANSITION,
        more: NONE,
        exact: true,
    },
];

const FAIL_GROUPS: &[Group] = &[
    Group {
        names: &["Error", "ErrorPath"],
        more: NONE,
        exact: false,
    },
    Group {
        names: &["Cause", "CausePath"],
        more: NONE,
        exact: false,
    },
];

const RULE_GROUPS: &[Group] = &[
    Group {
        names: OPERATORS,
        more: CONNECTIVES,
        exact: true,
    },
    Group {
        names: &["Variable"],
        more: CONNECTIVES,
        exact: false,
    },
];

#[tactic(auto, unfolding(crate::specs::Members::task_rows, crate::specs::Members::pass_rows, crate::specs::Members::choice_rows, crate::specs::Members::wait_rows, crate::specs::Members::parallel_rows, crate::specs::Members::map_rows, crate::specs::Members::succeed_rows, crate::specs::Members::fail_rows))]
fn kind_rows(kind: Kind) -> &'static [Row]
    ensures { rows_of result.now ≡ kind_rows kind }
{
    match kind {
        Kind::Task => TASK,
        Kind::Pass => PASS,
        Kind::Choice => CHOICE,
        Kind::Wait => WAIT,
        Kind::Parallel => PARALLEL,
        Kind::Map => MAP,
        Kind::Succeed => SUCCEED,
        Kind::Fail => FAIL,
    }
}

fn kind_groups(kind: Kind) -> &'static [Group]
    ensures { groups_of result.now ≡ kind_groups kind }
{
    match kind {
        Kind::Task => TASK_GROUPS,
        Kind::Pass | Kind::Parallel => MOVING,
        Kind::Wait => WAIT_GROUPS,
        Kind::Map => MAP_GROUPS,
        Kind::Fail => FAIL_GROUPS,
        Kind::Choice | Kind::Succeed => NO_GROUPS,
    }
}

fn known(rows: &'static [Row], groups: &'static [Group]) -> Shape
    ensures rows { rows_of (result.rows.now) ≡ rows_of rows.now }
    ensures groups { groups_of (result.groups.now) ≡ groups_of groups.now }
    ensures others { result.others ≡ Sort.Unknown }
{
    Shape {
        rows,
        others: Sort::Unknown,
        groups,
    }
}

fn searched_as(rows: &'static [Row], others: Sort) -> Shape
    ensures rows { rows_of (result.rows.now) ≡ rows_of rows.now }
    ensures groups { groups_of (result.groups.now) ≡ [] }
    ensures others { result.others ≡ others }
{
    Shape {
        rows,
        others,
        groups: NO_GROUPS,
    }
}

/// What an object of this sort may have; for a state by its type.
#[tactic(auto, unfolding(crate::specs::Members::definition_rows, crate::specs::Members::machine_rows, crate::specs::Members::item_processor_rows, crate::specs::Members::processor_config_rows, crate::specs::Members::untyped_rows, crate::specs::Members::operators, crate::specs::Members::inner_rule_rows, crate::specs::Members::test_rows, crate::specs::Members::rule_rows, crate::specs::Members::retrier_rows, crate::specs::Members::catcher_rows))]
fn shape_of(sort: Sort, kind: Option<Kind>) -> Shape
    ensures { shape_seen result ≡ shape_of sort kind }
{
    match sort {
        Sort::Definition => known(DEFINITION, NO_GROUPS),
        Sort::Machine => known(MACHINE, NO_GROUPS),
        Sort::ItemProcessor => known(ITEM_PROCESSOR, NO_GROUPS),
        Sort::ProcessorConfig => known(PROCESSOR_CONFIG, NO_GROUPS),
        Sort::Rule => known(RULE, RULE_GROUPS),
        Sort::InnerRule => known(INNER_RULE, RULE_GROUPS),
        Sort::Retrier => known(RETRIER, NO_GROUPS),
        Sort::Catcher => known(CATCHER, NO_GROUPS),
        Sort::States => searched_as(NO_ROWS, Sort::State),
        Sort::State => match kind {
            Some(kind) => known(kind_rows(kind), kind_groups(kind)),
            None => searched_as(UNTYPED, Sort::Any),
        },
        Sort::Template => searched_as(NO_ROWS, Sort::Template),
        _ => searched_as(NO_ROWS, Sort::Any),
    }
}

/// What the items of a list are to be.
pub fn item_sort(sort: Sort) -> Sort
    ensures { result ≡ item_sort sort }
{
    match sort {
        Sort::Machines => Sort::Machine,
        Sort::Rules => Sort::Rule,
        Sort::InnerRules => Sort::InnerRule,
        Sort::Retriers => Sort::Retrier,
        Sort::Catchers => Sort::Catcher,
        Sort::ErrorNames => Sort::Text,
        Sort::Template => Sort::Template,
        _ => Sort::Any,
    }
}

/// The type of states of this name.
pub fn kind_of(name: &str) -> Option<Kind>
    ensures { result ≡ kind_of name.now }
{
    match name {
        "Task" => Some(Kind::Task),
        "Pass" => Some(Kind::Pass),
        "Choice" => Some(Kind::Choice),
        "Wait" => Some(Kind::Wait),
        "Parallel" => Some(Kind::Parallel),
        "Map" => Some(Kind::Map),
        "Succeed" => Some(Kind::Succeed),
        "Fail" => Some(Kind::Fail),
        _ => None,
    }
}

/// Whether a name is one of these.
pub fn is_among(name: &str, names: &[&str]) -> bool
    ensures { result ≡ is_among name.now (map (λ l. l.now) names.now) }
{
    for other in names {
        if name == *other {
            return true;
        }
    }
    false
}

/// Whether a member stands for what isn't supported.
#[tactic(auto, unfolding(crate::specs::Members::unsupported_names))]
fn is_unsupported(name: &str) -> bool
    ensures { result ≡ is_among name.now unsupported_names }
{
    is_among(name, UNSUPPORTED)
}

/// What a member of a template's object is to be.
fn part_sort(name: &str) -> Sort
    ensures { result ≡ part_sort name.now }
{
    if name_before(name).is_some() {
        return Sort::Computed;
    }
    Sort::Template
}

/// What a member is to be that stands in no row.
fn other_sort(others: Sort, name: &str) -> Sort
    ensures { result ≡ other_sort others name.now }
{
    match others {
        Sort::Unknown => {
            if is_unsupported(name) {
                return Sort::Unsupported;
            }
            Sort::Unknown
        }
        Sort::Template => part_sort(name),
        _ => others,
    }
}

impl Row {
    /// The name of the member.
    pub fn name(self) -> &'static str
        ensures { result.now ≡ (row_of self).name }
    {
        match self {
            Required(name, _) | Optional(name, _) | Beside(_, name, _) => name,
        }
    }

    /// What its value is to be.
    pub fn sort(self) -> Sort
        ensures { result ≡ (row_of self).sort }
    {
        match self {
            Required(_, sort) | Optional(_, sort) | Beside(_, _, sort) => sort,
        }
    }
}

/// What a member of this name is to be.
pub fn sort_at(shape: Shape, name: &str) -> Sort
    ensures { result ≡ sort_at (shape_seen shape) name.now }
{
    for row in shape.rows {
        if name == row.name() {
            return row.sort();
        }
    }
    other_sort(shape.others, name)
}

/// The value at a name.
pub fn find<'a>(members: &'a [Member], name: &str) -> Option<&'a Json>
    ensures { option_map (λ v. data_of v.now) result
        ≡ value_at name.now (pairs (members_of members.now)) }
{
    for member in members {
        if name == member.key.as_str() {
            return Some(&member.value);
        }
    }
    None
}

/// The type that an object names, where it is one.
pub fn kind_named(value: Option<&Json>) -> Option<Kind>
    ensures { result ≡ kind_named (option_map (λ v. data_of v.now) value.entry) }
{
    match value {
        Some(Json::Text(name)) => kind_of(name.as_str()),
        _ => None,
    }
}

/// What an object of these members may have.
pub fn shape_in(sort: Sort, members: &[Member]) -> Shape
    ensures { shape_seen result ≡ shape_in sort (pairs (members_of members.now)) }
{
    shape_of(sort, kind_named(find(members, "Type")))
}
