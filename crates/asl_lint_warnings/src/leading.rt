// Where a state leads.
ghost use Rattle.std.specs.Prelude.{◌≡◌, ◌++◌, IfOk, OnOk, map, option_map};
ghost use Rattle.asl_json_data.specs.Data.{chain};
ghost use Rattle.asl_json.specs.View.{data_of, items_of};
ghost use Rattle.asl_json.specs.Meaning.{value_in};
ghost use Rattle.asl_lint_warnings.specs.Handlers.{items_in};
ghost use Rattle.asl_lint_warnings.specs.Graphs.{name_in, next_of, targets, is_last};

use asl_json::Json;
use std::alloc::{AllocError, Global};

/// The items of a list; any other value has none.
fn items_in(value: Option<&Json>) -> &[Json]
    ensures { chain (items_of result.now)
        ≡ items_in (option_map (λ v. data_of v.now) value.entry) }
{
    match value {
        Some(Json::List(items)) => items.values(),
        _ => &[],
    }
}

/// Adds the name of a state, where there is one.
fn add_name<'a>(names: &mut Vec<&'a str>, name: Option<&'a Json>) -> Result<(), AllocError>
    ensures { OnOk result (map (λ l. l.now) names.new.items ≡ map (λ l. l.now) names.old.items
        ++ name_in (option_map (λ v. data_of v.now) name.entry)) }
{
    match name {
        Some(Json::Text(name)) => {
            names.push(name.as_str())?;
            Ok(())
        }
        _ => Ok(()),
    }
}

/// Adds the states that the rules or catchers lead to.
fn add_next<'a>(names: &mut Vec<&'a str>, parts: &'a [Json]) -> Result<(), AllocError>
    ensures { OnOk result (map (λ l. l.now) names.new.items
        ≡ map (λ l. l.now) names.old.items ++ next_of (chain (items_of parts.now))) }
{
    for part in parts {
        add_name(names, part.get("Next"))?;
    }
    Ok(())
}

/// The names of the states that a state leads to: by `Next`, by `Default`, by each rule of `Choices` and by each catcher of `Catch`.
pub(crate) fn targets<'a>(alloc: Global, state: &'a Json) -> Result<Vec<&'a str>, AllocError>
    ensures { IfOk result (λ names. map (λ l. l.now) names.items ≡ targets (data_of state.now)) }
{
    let mut names = Vec::new(alloc);
    add_name(&mut names, state.get("Next"))?;
    add_name(&mut names, state.get("Default"))?;
    add_next(&mut names, items_in(state.get("Choices")))?;
    add_next(&mut names, items_in(state.get("Catch")))?;
    Ok(names)
}

/// Whether a state has `"End": true`.
pub(crate) fn is_last(end: Option<&Json>) -> bool
    ensures { result ≡ is_last (option_map (λ v. data_of v.now) end.entry) }
{
    match end {
        Some(Json::Bool(last)) => *last,
        _ => false,
    }
}
