// The branches that a step stops.
ghost use Rattle.std.specs.Prelude.{◌≡◌, ◌++◌, ◌∷◌, [], None, IfSome, OnOk, slice_get, string_bytes};
ghost use Rattle.std.specs.Option.{option_copied};
ghost use Rattle.asl_run_branches.specs.Trees.{nodes_of};
ghost use Rattle.asl_trace.specs.Stopped.{runs, running_line, stopped_lines};
ghost use Rattle.asl_trace.specs.private.Walked.{lines_at, lines_in, lines_under};

use asl_history::Place;
use asl_run_branches::{Frame, SharedFrame};
use asl_run_state::World;
use asl_step::Record;
use asl_time::Moment;
use asl_trace_lines::put_stopped;
use std::alloc::{AllocError, Global};

/// Whether a branch has begun and hasn't ended.
fn runs(doing: &Record) -> bool
    ensures { result ≡ runs doing.now }
{
    match doing {
        Record::New { .. } | Record::Done(_) | Record::Failed(_) => false,
        _ => true,
    }
}

/// Appends the line of a branch, where it runs.
fn put_running(
    alloc: Global,
    out: &mut String,
    start: Moment,
    now: Moment,
    frame: &Frame,
) -> Result<(), AllocError>
    ensures { OnOk result (string_bytes out.new ≡ string_bytes out.old
        ++ running_line start now frame.now.head.place frame.now.head.current) }
{
    if runs(frame.held()) {
        return put_stopped(alloc, out, start, now, frame.place(), frame.held().name());
    }
    Ok(())
}

/// Appends the lines of a branch that runs, and of those under it.
#[cycle(frames)]
fn put_stopped_at(
    alloc: Global,
    out: &mut String,
    start: Moment,
    now: Moment,
    frame: &Frame,
) -> Result<(), AllocError>
    ensures { OnOk result (string_bytes out.new
        ≡ string_bytes out.old ++ lines_at start now frame.now) }
{
    put_running(alloc, out, start, now, frame)?;
    put_all_stopped(alloc, out, start, now, frame.children())
}

/// The same of several branches.
#[cycle(frames)]
fn put_all_stopped(
    alloc: Global,
    out: &mut String,
    start: Moment,
    now: Moment,
    frames: &[SharedFrame],
) -> Result<(), AllocError>
    ensures { OnOk result (string_bytes out.new
        ≡ string_bytes out.old ++ lines_in start now frames.now) }
{
    for frame in frames {
        put_stopped_at(alloc, out, start, now, frame.get())?;
    }
    Ok(())
}

/// The first number of a place, and the others.
fn split(place: &[u32]) -> Option<(u32, &[u32])>
    ensures some { IfSome result (λ s. place.now ≡ s.0 ∷ s.1.now) }
    ensures none { result ≡ None → place.now ≡ [] }
{
    let (number, deeper) = place.split_first()?;
    Some((*number, deeper))
}

/// The child of that number.
fn child_of(children: &[SharedFrame], number: u32) -> Option<&Frame>
    ensures { option_copied result ≡ slice_get children.now number }
{
    let child = children.get(number as usize)?;
    Some(child.get())
}

/// Appends the lines of the branches under the one that these numbers lead to from a frame.
fn put_stopped_below(
    alloc: Global,
    out: &mut String,
    start: Moment,
    now: Moment,
    frame: &Frame,
    place: &[u32],
) -> Result<(), AllocError>
    ensures { OnOk result (string_bytes out.new
        ≡ string_bytes out.old ++ lines_under start now place.now (nodes_of frame.now)) }
{
    let Some((number, deeper)) = split(place) else {
        return put_all_stopped(alloc, out, start, now, frame.children());
    };
    match child_of(frame.children(), number) {
        Some(child) => put_stopped_below(alloc, out, start, now, child, deeper),
        None => Ok(()),
    }
}

/// Appends the lines of the branches under a place that run. It recurses as deep as machines stand in machines. The error is that memory
/// ran out.
pub(crate) fn put_stopped_under(
    alloc: Global,
    out: &mut String,
    start: Moment,
    now: Moment,
    world: &World,
    place: &Place,
) -> Result<(), AllocError>
    ensures { OnOk result (string_bytes out.new
        ≡ string_bytes out.old ++ stopped_lines start now place.now world.now.branches) }
{
    put_stopped_below(alloc, out, start, now, world.root(), place.numbers())
}
