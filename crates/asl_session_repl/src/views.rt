// What a session is shown to be: its branches, data and events.
ghost use Rattle.std.specs.Prelude.{◌≡◌, ◌++◌, ◌∷◌, [], option_map, OnOk, string_bytes};
ghost use Rattle.std.specs.List.{flat_map};
ghost use Rattle.asl_json.specs.View.{data_of};
ghost use Rattle.asl_json_data.specs.Compact.{compact};
ghost use Rattle.asl_history.specs.Lines.{history_text};
ghost use Rattle.asl_session_repl.specs.Views.{kind_word, state_text, branch_line, helds_of, held_lines, places_text, data_in, data_text, events_text};

use asl_history::{Event, Place, put_line};
use asl_json::Json;
use asl_json_shared::Name;
use asl_json_write::{put, put_quoted};
use asl_run_branches::{Frame, SharedFrame};
use asl_run_input::StepAt;
use asl_session::{Session, put_answer};
use asl_step::{Record, error_output};
use std::alloc::{AllocError, Global};

/// What a branch is doing, in a word.
#[tactic(auto, unfolding(crate::specs::Views::kind_word))]
fn kind_word(current: &Record) -> &'static str
    ensures { result.now ≡ kind_word current.now }
{
    match current {
        Record::New { .. } => "New",
        Record::Ready { .. } => "Ready",
        Record::Pausing { .. } => "Pausing",
        Record::Again { .. } => "Again",
        Record::Forked { .. } => "Forked",
        Record::Done(_) => "Done",
        Record::Failed(_) => "Failed",
    }
}

/// Appends the name of the state that a branch is in, with a space before it. The error is that memory ran out.
fn put_state(out: &mut String, state: Option<&Name>) -> Result<(), AllocError>
    ensures { OnOk result (string_bytes out.new
        ≡ string_bytes out.old ++ state_text (option_map (λ n. n.now) state.entry)) }
{
    match state {
        Some(name) => {
            out.push(' ')?;
            put_quoted(out, name.as_str())
        }
        None => Ok(()),
    }
}

/// Appends the line of a branch: its place, what it is doing, its state, and what a step now would be replied. The error is that memory
/// ran out.
fn put_branch(
    alloc: Global,
    out: &mut String,
    session: &Session,
    place: &Place,
    current: &Record,
) -> Result<(), AllocError>
    ensures { OnOk result (string_bytes out.new
        ≡ string_bytes out.old ++ branch_line session.now place.now current.now) }
{
    place.put(out)?;
    out.push(' ')?;
    out.push_str(kind_word(current))?;
    put_state(out, current.state())?;
    out.push(' ')?;
    let at = StepAt {
        place: place.try_clone()?,
        moment: session.execution().world().last(),
    };
    let reply = session.foreseen(&at)?;
    put_answer(alloc, out, &reply)
}

/// Appends the lines of a branch and of those under it. It recurses as deep as machines stand in machines. The error is that memory
/// ran out.
#[cycle(places)]
fn put_frame(
    alloc: Global,
    out: &mut String,
    session: &Session,
    frame: &Frame,
) -> Result<(), AllocError>
    ensures { OnOk result (string_bytes out.new
        ≡ string_bytes out.old ++ held_lines session.now (helds_of frame.now)) }
{
    put_branch(alloc, out, session, frame.place(), frame.held())?;
    put_frames(alloc, out, session, frame.children())
}

/// Appends the lines of these branches and of those under them.
#[cycle(places)]
fn put_frames(
    alloc: Global,
    out: &mut String,
    session: &Session,
    frames: &[SharedFrame],
) -> Result<(), AllocError>
    ensures { OnOk result (string_bytes out.new
        ≡ string_bytes out.old ++ held_lines session.now (flat_map helds_of frames.now)) }
{
    for frame in frames {
        put_frame(alloc, out, session, frame.get())?;
    }
    Ok(())
}

/// Appends a line for each branch, in the order of places. The error is that memory ran out.
pub(crate) fn put_places(
    alloc: Global,
    out: &mut String,
    session: &Session,
) -> Result<(), AllocError>
    ensures { OnOk result (string_bytes out.new
        ≡ string_bytes out.old ++ places_text session.now) }
{
    put_frame(alloc, out, session, session.execution().root())
}

/// Appends a value and a line feed. The error is that memory ran out.
fn put_value(out: &mut String, value: &Json) -> Result<(), AllocError>
    ensures { OnOk result (string_bytes out.new
        ≡ string_bytes out.old ++ (compact (data_of value.now) ++ 10 ∷ [])) }
{
    put(out, value)?;
    out.push('\n')
}

/// Appends the data of a branch that is doing this: its raw input, its output, or its error output. The error is that memory ran out.
fn put_data_of(alloc: Global, out: &mut String, current: &Record) -> Result<(), AllocError>
    ensures { OnOk result (string_bytes out.new
        ≡ string_bytes out.old ++ (compact (data_in current.now) ++ 10 ∷ [])) }
{
    match current {
        Record::New { input, .. }
        | Record::Ready { input, .. }
        | Record::Pausing { input, .. }
        | Record::Again { input, .. }
        | Record::Forked { input, .. }
        | Record::Done(input) => put_value(out, input.get()),
        Record::Failed(error) => {
            let output = error_output(alloc, error)?;
            put_value(out, &output)
        }
    }
}

/// Appends the data of the branch at a place. The error is that memory ran out.
pub(crate) fn put_data(
    alloc: Global,
    out: &mut String,
    session: &Session,
    place: &Place,
) -> Result<(), AllocError>
    ensures { OnOk result (string_bytes out.new
        ≡ string_bytes out.old ++ data_text session.now place.now) }
{
    match session.execution().view(place) {
        Some(current) => put_data_of(alloc, out, current),
        None => out.push_str("NoSuchPlace\n"),
    }
}

/// Appends the lines of these events. The error is that memory ran out.
fn put_lines(out: &mut String, events: &[Event]) -> Result<(), AllocError>
    ensures { OnOk result (string_bytes out.new
        ≡ string_bytes out.old ++ history_text events.now) }
{
    for event in events {
        put_line(out, event)?;
    }
    Ok(())
}

/// Appends the lines of the latest events, so many. The error is that memory ran out.
pub(crate) fn put_events(out: &mut String, session: &Session, count: u32) -> Result<(), AllocError>
    ensures { OnOk result (string_bytes out.new
        ≡ string_bytes out.old ++ events_text count session.now) }
{
    let events = session.execution().history().events();
    let before = events.len().saturating_sub(count as usize);
    put_lines(out, &events[before..])
}
