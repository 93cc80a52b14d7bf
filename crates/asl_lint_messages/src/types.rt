// Values of a wrong type.
use crate::nouns::{put_subject, put_value};
use crate::standing::Standing;
use asl_def_schema::Sort;
use asl_json::Json;
use std::alloc::AllocError;

/// What a value of this sort has to be.
fn wanted(sort: Sort) -> &'static str {
    match sort {
        Sort::Definition => "an object with StartAt and States",
        Sort::Machine | Sort::ItemProcessor => "an object: a machine with StartAt and States",
        Sort::ProcessorConfig => "an object",
        Sort::States => "an object: states by their names",
        Sort::State => "an object: a state",
        Sort::Rule | Sort::InnerRule => "an object: a rule",
        Sort::Retrier => "an object: a retrier with ErrorEquals",
        Sort::Catcher => "an object: a catcher with ErrorEquals and Next",
        Sort::Machines => "a list of machines",
        Sort::Rules | Sort::InnerRules => "a list of rules",
        Sort::Retriers => "a list of retriers",
        Sort::Catchers => "a list of catchers",
        Sort::ErrorNames => "a list of names of errors",
        other => wanted_leaf(other),
    }
}

/// The same of what is neither a list nor an object.
fn wanted_leaf(sort: Sort) -> &'static str {
    match sort {
        Sort::KindName => "a text: the type of the state",
        Sort::Target => "a text: the name of a state",
        Sort::Path => "a text: a path, as \"$.a\"",
        Sort::PathOrNull => "a text, a path as \"$.a\", or null",
        Sort::PlaceOrNull => "a text, a path into the input as \"$.a\", or null",
        Sort::PathOrCall => "a text: a path or a call of an intrinsic function",
        Sort::Computed => {
            "a text, a path or a call of an intrinsic function, since its key ends in \".$\""
        }
        Sort::Timestamp => "a text: a timestamp, as \"2024-01-01T00:00:00Z\"",
        Sort::Truth => "true or false",
        Sort::Number => "a number",
        Sort::FromZero | Sort::FromOne | Sort::DelayLimit => "a whole number",
        Sort::Rate => "a number from 1 to 1000",
        _ => "a text",
    }
}

/// Whether a text is what stands in quotes though it should not.
fn is_quoted(sort: Sort, value: Option<&Json>) -> bool {
    let Some(Json::Text(text)) = value else {
        return false;
    };
    let text = text.as_str();
    match sort {
        Sort::Truth => text == "true" || text == "false",
        Sort::Number | Sort::FromZero | Sort::FromOne | Sort::DelayLimit | Sort::Rate => {
            !text.is_empty()
                && text
                    .as_bytes()
                    .iter()
                    .all(|byte| byte.is_ascii_digit() || *byte == b'.')
        }
        Sort::PathOrNull | Sort::PlaceOrNull => text == "null",
        _ => false,
    }
}

/// Appends what a value is, and what it has to be.
pub(crate) fn put_wrong_type(out: &mut String, standing: &Standing<'_>) -> Result<(), AllocError> {
    put_subject(out, standing)?;
    out.push_str(" is ")?;
    put_value(out, standing.value)?;
    out.push_str("; it has to be ")?;
    out.push_str(wanted(standing.sort))?;
    if is_quoted(standing.sort, standing.value) {
        out.push_str(", without quotes")?;
    }
    Ok(())
}
