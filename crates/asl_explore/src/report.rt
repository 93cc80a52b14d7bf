// What is told of a search.
ghost use Rattle.std.specs.Prelude.{◌≡◌, ◌++◌, ◌||◌, OnOk, string_bytes, nat_eq, is_some};
ghost use Rattle.std.specs.Fmt.{decimal};
ghost use Rattle.std.specs.List.{list_any};
ghost use Rattle.asl_json.specs.View.{data_of};
ghost use Rattle.asl_json_data.specs.Compact.{compact};
ghost use Rattle.asl_step.specs.Rows.{error_output};
ghost use Rattle.asl_explore.specs.Telling.{are_remarks};
ghost use Rattle.asl_explore.specs.Reports.{ended_text, place_word, order_line, loop_line, endless_text, outcome_line, found_text, late_line, founds_text, number_line, note_text, gap, prompt_note, is_prompt, time_limit_note, clock_words, clock_note, notes_text, tried_text, stuck_text, cut_text, scope_text, complete_text, searched_text, explored_text, are_good, is_good};

use crate::endless::Lasso;
use crate::found::{Explored, Found};
use crate::orders::Orders;
use crate::telling::{are_remarks, put_calls, put_remarks};
use asl_json::Json;
use asl_json_write::{Pointer, put, put_quoted};
use asl_run_input::StepAt;
use asl_run_state::{Outcome, is_success};
use asl_step::{ErrorOut, error_output};
use asl_text::put_decimal;
use std::alloc::{AllocError, Global};

/// Appends a word, a number and a line feed. The error is that memory ran out.
fn put_number_line(out: &mut String, word: &str, number: u64) -> Result<(), AllocError>
    ensures { OnOk result (string_bytes out.new
        ≡ string_bytes out.old ++ number_line word.now number) }
{
    out.push_str(word)?;
    put_decimal(out, number)?;
    out.push('\n')
}

/// Appends a status and the value that it has. The error is that memory ran out.
fn put_value(out: &mut String, status: &str, value: &Json) -> Result<(), AllocError>
    ensures { OnOk result (string_bytes out.new
        ≡ string_bytes out.old ++ (status.now ++ compact (data_of value.now))) }
{
    out.push_str(status)?;
    put(out, value)
}

/// Appends a status and the error output. The error is that memory ran out.
fn put_error(
    alloc: Global,
    out: &mut String,
    status: &str,
    error: &ErrorOut,
) -> Result<(), AllocError>
    ensures { OnOk result (string_bytes out.new
        ≡ string_bytes out.old ++ (status.now ++ compact (data_of (error_output error.now)))) }
{
    let output = error_output(alloc, error)?;
    put_value(out, status, &output)
}

/// Appends a status with its output or error. The error is that memory ran out.
pub(crate) fn put_ended(
    alloc: Global,
    out: &mut String,
    outcome: &Outcome,
) -> Result<(), AllocError>
    ensures { OnOk result (string_bytes out.new ≡ string_bytes out.old ++ ended_text outcome.now) }
{
    match outcome {
        Outcome::Running => out.push_str("RUNNING"),
        Outcome::Succeeded(output) => put_value(out, "SUCCEEDED ", output),
        Outcome::Failed(error) => put_error(alloc, out, "FAILED ", error),
        Outcome::TimedOut => out.push_str("TIMED_OUT {\"Error\":\"States.Timeout\"}"),
    }
}

/// Appends a space and the place of a step. The error is that memory ran out.
fn put_place(out: &mut String, at: &StepAt) -> Result<(), AllocError>
    ensures { OnOk result (string_bytes out.new ≡ string_bytes out.old ++ place_word at.now) }
{
    out.push(' ')?;
    at.place.put(out)
}

/// Appends the line of an order: the places of its steps. The error is that memory ran out.
fn put_order(out: &mut String, steps: &[StepAt]) -> Result<(), AllocError>
    ensures { OnOk result (string_bytes out.new ≡ string_bytes out.old ++ order_line steps.now) }
{
    out.push_str("order")?;
    for at in steps {
        put_place(out, at)?;
    }
    out.push('\n')
}

/// Appends the line of steps that are taken again and again: their places. The error is that memory ran out.
fn put_loop(out: &mut String, steps: &[StepAt]) -> Result<(), AllocError>
    ensures { OnOk result (string_bytes out.new
        ≡ string_bytes out.old ++ loop_line steps.now) }
{
    out.push_str("loop")?;
    for at in steps {
        put_place(out, at)?;
    }
    out.push('\n')
}

/// Appends the lines of an order that never ends, if there is one. The error is that memory ran out.
fn put_endless(out: &mut String, endless: &Option<Lasso>) -> Result<(), AllocError>
    ensures { OnOk result (string_bytes out.new
        ≡ string_bytes out.old ++ endless_text endless.now) }
{
    match endless {
        None => Ok(()),
        Some(lasso) => {
            out.push_str("\nendless\n")?;
            put_order(out, &lasso.stem)?;
            put_loop(out, &lasso.round)
        }
    }
}

/// Appends an empty line, and the line of an outcome of this number. The error is that memory ran out.
fn put_outcome(
    alloc: Global,
    out: &mut String,
    number: u64,
    outcome: &Outcome,
) -> Result<(), AllocError>
    ensures { OnOk result (string_bytes out.new
        ≡ string_bytes out.old ++ outcome_line number outcome.now) }
{
    out.push_str("\noutcome ")?;
    put_decimal(out, number)?;
    out.push(' ')?;
    put_ended(alloc, out, outcome)?;
    out.push('\n')
}

/// Appends the lines of an outcome of this number. The error is that memory ran out.
fn put_found(alloc: Global, out: &mut String, number: u64, found: &Found) -> Result<(), AllocError>
    ensures { OnOk result (string_bytes out.new
        ≡ string_bytes out.old ++ found_text number found.now) }
{
    put_outcome(alloc, out, number, &found.outcome)?;
    put_order(out, &found.steps)
}

/// Whether a number is among these.
fn is_among(numbers: &[usize], number: usize) -> bool
    ensures { result ≡ list_any (λ k. nat_eq k number) numbers.now }
{
    numbers.iter().any(|one| *one == number)
}

/// Appends the line of an outcome that comes only where a branch is late, if this one does. The error is that memory ran out.
fn put_late(out: &mut String, late: &[usize], number: usize) -> Result<(), AllocError>
    ensures { OnOk result (string_bytes out.new
        ≡ string_bytes out.old ++ late_line late.now number) }
{
    if is_among(late, number) {
        return out.push_str("late\n");
    }
    Ok(())
}

/// Appends the lines of outcomes, numbered from 1. The error is that memory ran out.
fn put_founds(alloc: Global, out: &mut String, explored: &Explored) -> Result<(), AllocError>
    ensures { OnOk result (string_bytes out.new
        ≡ string_bytes out.old ++ founds_text explored.now 1 explored.now.found.items) }
{
    for (index, one) in explored.found.iter().enumerate() {
        let number = index + 1;
        put_found(alloc, out, number as u64, one)?;
        put_late(out, &explored.late, number)?;
        put_calls(out, &explored.states, &explored.calls, index)?;
    }
    Ok(())
}

/// Appends how many steps were tried in every order by a search that its limit cut. The error is that memory ran out.
fn put_tried(out: &mut String, depth: Option<usize>) -> Result<(), AllocError>
    ensures { OnOk result (string_bytes out.new ≡ string_bytes out.old ++ tried_text depth) }
{
    match depth {
        None => out.push_str("search cut\n"),
        Some(depth) => {
            out.push_str("search cut after ")?;
            put_decimal(out, depth as u64)?;
            out.push_str(" steps\n")
        }
    }
}

/// Appends how far a search came that was cut. The error is that memory ran out.
#[tactic(auto, unfolding(crate::specs::Reports::stuck_text))]
fn put_cut(out: &mut String, stuck: bool, depth: Option<usize>) -> Result<(), AllocError>
    ensures { OnOk result (string_bytes out.new ≡ string_bytes out.old ++ cut_text stuck depth) }
{
    if stuck {
        return out.push_str("search cut: an order has more steps than a history has room for\n");
    }
    put_tried(out, depth)
}

/// Appends of which orders nothing was left out. The error is that memory ran out.
#[tactic(auto, unfolding(crate::specs::Reports::scope_text))]
fn put_scope(out: &mut String, orders: Orders, clock: &Option<Pointer>) -> Result<(), AllocError>
    ensures { OnOk result (string_bytes out.new
        ≡ string_bytes out.old ++ scope_text orders clock.now) }
{
    match (orders, clock) {
        (Orders::Every, None) => out.push_str("every order, every moment\n"),
        (Orders::Every, Some(_)) => {
            out.push_str("every order, each step at its earliest moment\n")
        }
        (Orders::Prompt, _) => out.push_str("every order in which no branch is late\n"),
    }
}

/// Appends that nothing was left out, and of what. The error is that memory ran out.
fn put_complete(out: &mut String, orders: Orders, clock: &Option<Pointer>) -> Result<(), AllocError>
    ensures { OnOk result (string_bytes out.new
        ≡ string_bytes out.old ++ complete_text orders clock.now) }
{
    out.push_str("search complete: ")?;
    put_scope(out, orders, clock)
}

/// Appends the line that says whether anything was left out, and of what. The error is that memory ran out.
fn put_searched(out: &mut String, explored: &Explored) -> Result<(), AllocError>
    ensures { OnOk result (string_bytes out.new
        ≡ string_bytes out.old ++ searched_text explored.now) }
{
    if explored.complete {
        return put_complete(out, explored.orders, &explored.clock);
    }
    put_cut(out, explored.stuck, explored.depth)
}

/// Whether only orders were tried in which no branch is late.
fn is_prompt(orders: Orders) -> bool
    ensures { result ≡ is_prompt orders }
{
    match orders {
        Orders::Every => false,
        Orders::Prompt => true,
    }
}

/// Whether anything is told behind the outcomes.
fn has_notes(explored: &Explored) -> bool
    ensures { result ≡ (is_prompt explored.now.orders
        || (explored.now.limited || (is_some explored.now.clock || are_remarks explored.now.remarks))) }
{
    is_prompt(explored.orders)
        || explored.limited
        || explored.clock.is_some()
        || are_remarks(&explored.remarks)
}

/// Appends an empty line, where it is wanted. The error is that memory ran out.
fn put_gap(out: &mut String, wanted: bool) -> Result<(), AllocError>
    ensures { OnOk result (string_bytes out.new ≡ string_bytes out.old ++ note_text wanted gap) }
{
    if wanted {
        return out.push('\n');
    }
    Ok(())
}

/// Appends the note on the orders, where it is wanted. The error is that memory ran out.
#[tactic(auto, unfolding(crate::specs::Reports::prompt_note))]
fn put_prompt(out: &mut String, wanted: bool) -> Result<(), AllocError>
    ensures { OnOk result (string_bytes out.new
        ≡ string_bytes out.old ++ note_text wanted prompt_note) }
{
    if wanted {
        return out.push_str(
            "note only orders in which no branch is late: one steps only where none may step earlier\n",
        );
    }
    Ok(())
}

/// Appends the note on a time limit, where it is wanted. The error is that memory ran out.
#[tactic(auto, unfolding(crate::specs::Reports::time_limit_note))]
fn put_time_limit(out: &mut String, wanted: bool) -> Result<(), AllocError>
    ensures { OnOk result (string_bytes out.new
        ≡ string_bytes out.old ++ note_text wanted time_limit_note) }
{
    if wanted {
        return out.push_str(
            "note time limit: a late step ends the execution at any time, as TIMED_OUT {\"Error\":\"States.Timeout\"}\n",
        );
    }
    Ok(())
}

/// Appends what may come of a text that may read the clock. The error is that memory ran out.
#[tactic(auto, unfolding(crate::specs::Reports::clock_words))]
fn put_clock_words(out: &mut String) -> Result<(), AllocError>
    ensures { OnOk result (string_bytes out.new ≡ string_bytes out.old ++ clock_words) }
{
    out.push_str(" may read the clock: at other moments there may be other outcomes\n")
}

/// Appends the note on the text at this place, which may read the clock. The error is that memory ran out.
fn put_clock(out: &mut String, clock: &Option<Pointer>) -> Result<(), AllocError>
    ensures { OnOk result (string_bytes out.new ≡ string_bytes out.old ++ clock_note clock.now) }
{
    match clock {
        None => Ok(()),
        Some(place) => {
            out.push_str("note the text at ")?;
            put_quoted(out, place.as_str())?;
            put_clock_words(out)
        }
    }
}

/// Appends the lines of what is remarkable, of which orders were tried, and of what else may come at other moments. The error is that
/// memory ran out.
fn put_notes(out: &mut String, explored: &Explored) -> Result<(), AllocError>
    ensures { OnOk result (string_bytes out.new ≡ string_bytes out.old ++ notes_text explored.now) }
{
    put_gap(out, has_notes(explored))?;
    put_remarks(out, &explored.remarks)?;
    put_prompt(out, is_prompt(explored.orders))?;
    put_time_limit(out, explored.limited)?;
    put_clock(out, &explored.clock)
}

/// Appends what a search found. The error is that memory ran out.
pub fn put_explored(alloc: Global, out: &mut String, explored: &Explored) -> Result<(), AllocError>
    ensures { OnOk result (string_bytes out.new
        ≡ string_bytes out.old ++ explored_text explored.now) }
{
    put_searched(out, explored)?;
    put_number_line(out, "worlds ", explored.worlds as u64)?;
    put_number_line(out, "outcomes ", explored.found.len() as u64)?;
    put_founds(alloc, out, explored)?;
    put_endless(out, &explored.endless)?;
    put_notes(out, explored)
}

/// Whether each outcome is a success.
fn are_good(found: &[Found]) -> bool
    ensures { result ≡ are_good found.now }
{
    found.iter().all(|one| is_success(&one.outcome))
}

/// Whether nothing was left out, each outcome is a success, and an end is always reached.
pub fn is_good(explored: &Explored) -> bool
    ensures { result ≡ is_good explored.now }
{
    explored.complete && are_good(&explored.found) && explored.endless.is_none()
}
