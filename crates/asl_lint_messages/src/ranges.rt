// Values outside their ranges.
use crate::nouns::{put_subject, put_value};
use crate::standing::Standing;
use asl_def_schema::Sort;
use std::alloc::AllocError;

fn limits(sort: Sort) -> &'static str {
    match sort {
        Sort::FromZero => "a whole number from 0 to 99999999",
        Sort::FromOne => "a whole number from 1 to 99999999",
        Sort::Rate => "a number from 1 to 1000",
        Sort::DelayLimit => "a whole number from 1 to 31622399",
        Sort::Timestamp => {
            "a timestamp of RFC 3339 with capital T and Z, as \"2024-01-01T00:00:00Z\""
        }
        Sort::Jitter => "\"FULL\" or \"NONE\"",
        Sort::Machines => "a list of 1 to 999999999 machines",
        Sort::Rules | Sort::InnerRules => "a list with one rule at least",
        Sort::ErrorNames => "a list with the name of one error at least, as \"States.ALL\"",
        _ => "in its range",
    }
}

fn put_state_name(out: &mut String, name: &str) -> Result<(), AllocError> {
    let count = name.chars().count();
    out.push_str("the name of a state has from 1 to 80 characters, and this one has ")?;
    write!(out, "{count}")
}

fn is_list(sort: Sort) -> bool {
    matches!(
        sort,
        Sort::Machines | Sort::Rules | Sort::InnerRules | Sort::ErrorNames
    )
}

/// Appends what a value is, and its limits.
pub(crate) fn put_range(out: &mut String, standing: &Standing<'_>) -> Result<(), AllocError> {
    if standing.sort == Sort::State {
        return put_state_name(out, standing.key);
    }
    put_subject(out, standing)?;
    if is_list(standing.sort) {
        out.push_str(" is empty")?;
    } else {
        out.push_str(" is ")?;
        put_value(out, standing.value)?;
    }
    out.push_str("; it has to be ")?;
    out.push_str(limits(standing.sort))
}
