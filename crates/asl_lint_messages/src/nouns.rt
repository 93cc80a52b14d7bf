// What things are called.
use crate::quoting::{put_key, put_name};
use crate::standing::Standing;
use asl_def_schema::{Kind, Sort, find, kind_named};
use asl_json::{Json, Member};
use std::alloc::AllocError;

/// The types of states.
pub(crate) const KINDS: [&str; 8] = [
    "Task", "Pass", "Choice", "Wait", "Parallel", "Map", "Succeed", "Fail",
];

/// The word for a type of states.
pub fn kind_word(kind: Kind) -> &'static str {
    match kind {
        Kind::Task => "Task",
        Kind::Pass => "Pass",
        Kind::Choice => "Choice",
        Kind::Wait => "Wait",
        Kind::Parallel => "Parallel",
        Kind::Map => "Map",
        Kind::Succeed => "Succeed",
        Kind::Fail => "Fail",
    }
}

fn state_noun(kind: Option<Kind>) -> &'static str {
    match kind {
        Some(Kind::Task) => "a Task state",
        Some(Kind::Pass) => "a Pass state",
        Some(Kind::Choice) => "a Choice state",
        Some(Kind::Wait) => "a Wait state",
        Some(Kind::Parallel) => "a Parallel state",
        Some(Kind::Map) => "a Map state",
        Some(Kind::Succeed) => "a Succeed state",
        Some(Kind::Fail) => "a Fail state",
        None => "a state",
    }
}

/// What an object of this sort is called.
pub(crate) fn noun(sort: Sort, members: &[Member]) -> &'static str {
    match sort {
        Sort::Definition => "the definition",
        Sort::Machine => "a machine inside a state",
        Sort::ItemProcessor => "an ItemProcessor",
        Sort::ProcessorConfig => "a ProcessorConfig",
        Sort::State => state_noun(kind_named(find(members, "Type"))),
        Sort::Rule => "a rule of a Choice state",
        Sort::InnerRule => "a rule inside another",
        Sort::Retrier => "a retrier",
        Sort::Catcher => "a catcher",
        Sort::Template => "an object of a template",
        _ => "this object",
    }
}

/// Appends what a member or an item is called.
pub(crate) fn put_subject(out: &mut String, standing: &Standing<'_>) -> Result<(), AllocError> {
    if standing.is_item {
        out.push_str("item ")?;
        out.push_str(standing.key)
    } else if standing.key.is_empty() && standing.sort == Sort::Definition {
        out.push_str("the definition")
    } else if standing.sort == Sort::State {
        out.push_str("the state ")?;
        put_name(out, standing.key)
    } else {
        put_key(out, standing.key)
    }
}

/// Appends what a value is.
pub(crate) fn put_value(out: &mut String, value: Option<&Json>) -> Result<(), AllocError> {
    match value {
        None | Some(Json::Null) => out.push_str("null"),
        Some(Json::Bool(true)) => out.push_str("true"),
        Some(Json::Bool(false)) => out.push_str("false"),
        Some(Json::Num(number)) => {
            out.push_str("the number ")?;
            out.push_str(number.spelling())
        }
        Some(Json::Text(text)) => {
            out.push_str("the text ")?;
            put_name(out, text.as_str())
        }
        Some(Json::List(_)) => out.push_str("a list"),
        Some(Json::Dict(_)) => out.push_str("an object"),
    }
}
