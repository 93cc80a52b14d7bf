// A state, and where it leads.
ghost use Rattle.std.specs.Prelude.{◌≡◌, ◌++◌, ◌∷◌, Some, IfOk, OnOk, option_map, string_bytes, codes};
ghost use Rattle.asl_json_data.specs.Data.{chain};
ghost use Rattle.asl_json.specs.View.{data_of, items_of};
ghost use Rattle.asl_graph.specs.Members.{text_in, text_at, items_at};
ghost use Rattle.asl_graph.specs.Names.{shown};
ghost use Rattle.asl_graph.specs.Graphs.{retry_mark, own_line, next_line, default_line, rule_label, rule_lines, errors_shown, catcher_lines, is_true, is_end_kind, is_end, last_line, state_lines, first_lines};

use crate::conditions::put_condition;
use crate::edges::{Edge, Way, is_taken};
use crate::language::Language;
use crate::lines::{
    put_begin_lines, put_end_line, put_labelled_line, put_plain_line, put_state_line,
};
use crate::members::{items_at, text_at, text_in};
use crate::naming::{put_shown, put_shown_short};
use asl_json::Json;
use std::alloc::{AllocError, Global};

/// What marks a state that has retriers.
fn retry_mark(retriers: Option<&Json>) -> &'static str
    ensures { result.now ≡ retry_mark (option_map (λ v. data_of v.now) retriers.entry) }
{
    match retriers {
        Some(_) => " - Retry",
        None => "",
    }
}

fn put_own_line(
    out: &mut String,
    language: Language,
    name: &str,
    state: &Json,
) -> Result<(), AllocError>
    ensures { OnOk result (string_bytes out.new
        ≡ string_bytes out.old ++ own_line language name.now (data_of state.now)) }
{
    let mark = retry_mark(state.get("Retry"));
    put_state_line(out, language, name, text_at(state, "Type"), mark)
}

fn put_next_line(
    out: &mut String,
    language: Language,
    edges: &[Edge],
    name: &str,
    next: Option<&Json>,
) -> Result<(), AllocError>
    ensures { OnOk result (string_bytes out.new ≡ string_bytes out.old
        ++ next_line language edges.now name.now (option_map (λ v. data_of v.now) next.entry)) }
{
    match next {
        Some(Json::Text(next)) => {
            let taken = is_taken(edges, name, Way::Next);
            put_plain_line(out, language, taken, name, next.as_str())
        }
        _ => Ok(()),
    }
}

fn put_default_line(
    out: &mut String,
    language: Language,
    edges: &[Edge],
    name: &str,
    next: Option<&Json>,
) -> Result<(), AllocError>
    ensures { OnOk result (string_bytes out.new ≡ string_bytes out.old
        ++ default_line language edges.now name.now (option_map (λ v. data_of v.now) next.entry)) }
{
    match next {
        Some(Json::Text(next)) => {
            let taken = is_taken(edges, name, Way::Default);
            put_labelled_line(out, language, taken, name, "Default", next.as_str())
        }
        _ => Ok(()),
    }
}

/// The label of a rule: its condition, cut where it is long.
#[tactic(auto, unfolding(crate::specs::Graphs::rule_label))]
fn rule_label(alloc: Global, language: Language, rule: &Json) -> Result<String, AllocError>
    ensures { IfOk result (λ t. string_bytes t ≡ rule_label language (data_of rule.now)) }
{
    let mut told = String::new(alloc);
    put_condition(&mut told, false, rule)?;
    let mut label = String::new(alloc);
    put_shown_short(&mut label, language, told.as_str())?;
    Ok(label)
}

fn put_rule_lines(
    alloc: Global,
    out: &mut String,
    language: Language,
    edges: &[Edge],
    name: &str,
    rules: &[Json],
) -> Result<(), AllocError>
    ensures { OnOk result (string_bytes out.new ≡ string_bytes out.old
        ++ rule_lines language edges.now name.now 0 (chain (items_of rules.now))) }
{
    for (number, rule) in rules.iter().enumerate() {
        let label = rule_label(alloc, language, rule)?;
        let taken = is_taken(edges, name, Way::Rule(number));
        let next = text_at(rule, "Next");
        put_labelled_line(out, language, taken, name, label.as_str(), next)?;
    }
    Ok(())
}

fn put_error(out: &mut String, language: Language, error: &Json) -> Result<(), AllocError>
    ensures { OnOk result (string_bytes out.new ≡ string_bytes out.old
        ++ 32 ∷ shown language (text_in (Some (data_of error.now)))) }
{
    out.push(' ')?;
    put_shown(out, language, text_in(Some(error)))
}

fn put_errors(out: &mut String, language: Language, errors: &[Json]) -> Result<(), AllocError>
    ensures { OnOk result (string_bytes out.new ≡ string_bytes out.old
        ++ errors_shown language (chain (items_of errors.now))) }
{
    for error in errors {
        put_error(out, language, error)?;
    }
    Ok(())
}

/// The label of a catcher of these errors.
fn catcher_label(alloc: Global, language: Language, errors: &[Json]) -> Result<String, AllocError>
    ensures { IfOk result (λ t. string_bytes t
        ≡ codes "catch" ++ errors_shown language (chain (items_of errors.now))) }
{
    let mut label = String::new(alloc);
    label.push_str("catch")?;
    put_errors(&mut label, language, errors)?;
    Ok(label)
}

fn put_catcher_lines(
    alloc: Global,
    out: &mut String,
    language: Language,
    edges: &[Edge],
    name: &str,
    catchers: &[Json],
) -> Result<(), AllocError>
    ensures { OnOk result (string_bytes out.new ≡ string_bytes out.old
        ++ catcher_lines language edges.now name.now 0 (chain (items_of catchers.now))) }
{
    for (number, catcher) in catchers.iter().enumerate() {
        let label = catcher_label(alloc, language, items_at(catcher, "ErrorEquals"))?;
        let taken = is_taken(edges, name, Way::Catcher(number));
        let next = text_at(catcher, "Next");
        put_labelled_line(out, language, taken, name, label.as_str(), next)?;
    }
    Ok(())
}

fn is_true(value: Option<&Json>) -> bool
    ensures { result ≡ is_true (option_map (λ v. data_of v.now) value.entry) }
{
    match value {
        Some(Json::Bool(value)) => *value,
        _ => false,
    }
}

fn is_end_kind(kind: &str) -> bool
    ensures { result ≡ is_end_kind kind.now }
{
    match kind {
        "Succeed" | "Fail" => true,
        _ => false,
    }
}

/// Whether a machine ends in this state.
fn is_end(state: &Json) -> bool
    ensures { result ≡ is_end (data_of state.now) }
{
    is_true(state.get("End")) || is_end_kind(text_at(state, "Type"))
}

fn put_last_line(
    out: &mut String,
    language: Language,
    key: &str,
    name: &str,
    state: &Json,
) -> Result<(), AllocError>
    ensures { OnOk result (string_bytes out.new
        ≡ string_bytes out.old ++ last_line language key.now name.now (data_of state.now)) }
{
    if is_end(state) {
        put_end_line(out, language, key, name)?;
    }
    Ok(())
}

/// Appends the marks where a machine begins and where it ends, by what tells it from others, and the line to its first state. The error is
/// that memory ran out.
pub(crate) fn put_first_lines(
    out: &mut String,
    language: Language,
    edges: &[Edge],
    key: &str,
    machine: &Json,
) -> Result<(), AllocError>
    ensures { OnOk result (string_bytes out.new ≡ string_bytes out.old
        ++ first_lines language edges.now key.now (text_at (codes "StartAt") (data_of machine.now))) }
{
    let first = text_at(machine, "StartAt");
    let taken = is_taken(edges, first, Way::Start);
    put_begin_lines(out, language, taken, key, first)
}

/// Appends the lines of a state: its own, and one for each transition; its machine's key tells that from others. The error is that memory
/// ran out.
pub(crate) fn put_state_lines(
    alloc: Global,
    out: &mut String,
    language: Language,
    edges: &[Edge],
    key: &str,
    name: &str,
    state: &Json,
) -> Result<(), AllocError>
    ensures { OnOk result (string_bytes out.new
        ≡ string_bytes out.old ++ state_lines language edges.now key.now name.now (data_of state.now)) }
{
    put_own_line(out, language, name, state)?;
    put_next_line(out, language, edges, name, state.get("Next"))?;
    put_rule_lines(
        alloc,
        out,
        language,
        edges,
        name,
        items_at(state, "Choices"),
    )?;
    put_default_line(out, language, edges, name, state.get("Default"))?;
    put_catcher_lines(alloc, out, language, edges, name, items_at(state, "Catch"))?;
    put_last_line(out, language, key, name, state)
}
