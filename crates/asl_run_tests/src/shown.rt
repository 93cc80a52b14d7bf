// Records as texts, so that tests can compare them.
use asl_exec::Execution;
use asl_history::Place;
use asl_json_shared::{Name, Shared, SharedItems};
use asl_json_write::put;
use asl_step::{ErrorOut, Record, Uses, error_output};
use asl_time::Moment;
use std::alloc::Global;
use std::test::Fail;

/// Appends the name of a state and its raw input.
fn put_state(out: &mut String, state: &Name, input: &Shared) -> Result<(), Fail> {
    out.push(' ')?;
    out.push_str(state.as_str())?;
    out.push(' ')?;
    Ok(put(out, input.get())?)
}

/// Appends a moment in milliseconds.
fn put_moment(out: &mut String, moment: Moment) -> Result<(), Fail> {
    Ok(write!(out, " {}", moment.millis())?)
}

/// Appends how often each retrier was used.
fn put_uses(out: &mut String, uses: &Uses) -> Result<(), Fail> {
    let mut behind = " [";
    for count in &uses.counts {
        write!(out, "{behind}{count}")?;
        behind = ",";
    }
    if uses.counts.is_empty() {
        out.push_str(behind)?;
    }
    Ok(out.push(']')?)
}

/// Appends the items of a Map.
fn put_items(out: &mut String, items: &SharedItems) -> Result<(), Fail> {
    let mut behind = " [";
    for item in items.values() {
        out.push_str(behind)?;
        put(out, item)?;
        behind = ",";
    }
    if items.values().is_empty() {
        out.push_str(behind)?;
    }
    Ok(out.push(']')?)
}

/// Appends an error as its error output.
fn put_error(alloc: Global, out: &mut String, error: &ErrorOut) -> Result<(), Fail> {
    out.push(' ')?;
    Ok(put(out, &error_output(alloc, error)?)?)
}

fn put_record(alloc: Global, out: &mut String, record: &Record) -> Result<(), Fail> {
    match record {
        Record::New { state, input } => {
            out.push_str("New")?;
            put_state(out, state, input)
        }
        Record::Ready { state, input } => {
            out.push_str("Ready")?;
            put_state(out, state, input)
        }
        Record::Pausing {
            state,
            input,
            since,
            until,
        } => {
            out.push_str("Pausing")?;
            put_state(out, state, input)?;
            put_moment(out, *since)?;
            put_moment(out, *until)
        }
        Record::Again {
            state,
            input,
            since,
            uses,
            until,
        } => {
            out.push_str("Again")?;
            put_state(out, state, input)?;
            put_moment(out, *since)?;
            put_uses(out, uses)?;
            put_moment(out, *until)
        }
        Record::Forked {
            state,
            input,
            since,
            uses,
            items,
        } => {
            out.push_str("Forked")?;
            put_state(out, state, input)?;
            put_moment(out, *since)?;
            put_uses(out, uses)?;
            put_items(out, items)
        }
        Record::Done(output) => {
            out.push_str("Done ")?;
            Ok(put(out, output.get())?)
        }
        Record::Failed(error) => {
            out.push_str("Failed")?;
            put_error(alloc, out, error)
        }
    }
}

/// A record as a text: its kind, then its fields in order, moments in milliseconds; `none` for none.
pub(crate) fn record_text(alloc: Global, record: Option<&Record>) -> Result<String, Fail> {
    let mut text = String::new(alloc);
    match record {
        None => text.push_str("none")?,
        Some(record) => put_record(alloc, &mut text, record)?,
    }
    Ok(text)
}

/// The place of a text.
pub(crate) fn place_of(alloc: Global, text: &str) -> Result<Place, Fail> {
    Ok(Place::read(alloc, text)?.ok_or("no place")?)
}

/// What the branch at a place is doing, as a text.
pub(crate) fn view(rt: &HostRuntime, execution: &Execution, place: &str) -> Result<String, Fail> {
    let place = place_of(rt.alloc(), place)?;
    record_text(rt.alloc(), execution.view(&place))
}
