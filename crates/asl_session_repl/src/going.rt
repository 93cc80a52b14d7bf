// Taking the steps that come next.
ghost use Rattle.std.specs.Prelude.{◌≡◌, ◌++◌, ◌-◌, ◌&&◌, ◌||◌, true, IfOk, OnOk, OnErr, string_bytes};
ghost use Rattle.asl_session.specs.Sessions.{next_session, reply_to};
ghost use Rattle.asl_session.specs.declared.command.Command.TheVariants.{Step};
ghost use Rattle.asl_session_repl.specs.declared.onward.Onward.{Onward};
ghost use Rattle.asl_session_repl.specs.Onward.{onward_of, freed, is_stepped, step_line, rest_line, moved, is_halt, halted, goes_on_by, goes_on, move_line, gone, gone_lines};

use crate::failing::{ends_badly, handles_error};
use crate::onward::{Onward, onward_of};
use asl_run_input::StepAt;
use asl_session::{Command, Reply, Session, put_answer};
use asl_time::{Moment, put_stamp};
use std::alloc::{AllocError, Global};

/// Appends the line of a step that was tried: as a script has it, and the reply. The error is that memory ran out.
pub(crate) fn put_step_line(
    alloc: Global,
    out: &mut String,
    at: &StepAt,
    reply: &Reply,
) -> Result<(), AllocError>
    ensures { OnOk result (string_bytes out.new
        ≡ string_bytes out.old ++ step_line at.now reply.now) }
{
    out.push_str("step ")?;
    at.place.put(out)?;
    out.push(' ')?;
    put_stamp(out, at.moment)?;
    out.push(' ')?;
    put_answer(alloc, out, reply)
}

/// Appends why no step comes next. The error is that memory ran out.
fn put_later(out: &mut String, moment: Moment) -> Result<(), AllocError>
    ensures { OnOk result (string_bytes out.new
        ≡ string_bytes out.old ++ rest_line (Onward.Later moment)) }
{
    out.push_str("the next step is at ")?;
    put_stamp(out, moment)?;
    out.push('\n')
}

/// Takes a step, appends its line, and tells whether it was taken. The error is that memory ran out.
fn take(
    alloc: Global,
    out: &mut String,
    session: &mut Session,
    at: &StepAt,
) -> Result<bool, AllocError>
    ensures text { OnOk result (string_bytes out.new
        ≡ string_bytes out.old ++ step_line at.now (reply_to session.old (Step at.now))) }
    ensures next { OnOk result (session.new ≡ next_session session.old (Step at.now)) }
    ensures taken { IfOk result (λ b. b ≡ is_stepped (reply_to session.old (Step at.now))) }
{
    let reply = session.apply(&Command::Step(at.try_clone()?))?;
    put_step_line(alloc, out, at, &reply)?;
    Ok(matches!(&reply, Reply::Stepped))
}

/// Whether steps stop behind one that was taken or wasn't, in which an error was handled or wasn't, and which ended badly or didn't.
fn halts(taken: bool, handled: bool, badly: bool) -> bool
    ensures { result ≡ (taken && (handled || badly)) }
{
    taken && (handled || badly)
}

/// Takes a step, and appends its line, and behind it where something failed; tells whether it was taken and nothing failed. The error is
/// that memory ran out.
fn take_warily(
    alloc: Global,
    out: &mut String,
    session: &mut Session,
    at: &StepAt,
) -> Result<bool, AllocError>
    ensures text { OnOk result (string_bytes out.new ≡ string_bytes out.old
        ++ halted (is_halt true session.old at.now)
        (step_line at.now (reply_to session.old (Step at.now)))) }
    ensures next { OnOk result (session.new ≡ next_session session.old (Step at.now)) }
    ensures goes { IfOk result
        (λ b. b ≡ goes_on_by true session.old (Onward.Step at.now)) }
{
    let handled = handles_error(alloc, session, at)?;
    let taken = take(alloc, out, session, at)?;
    if halts(taken, handled, ends_badly(session, &at.place)) {
        out.push_str("something failed\n")?;
        return Ok(false);
    }
    Ok(taken)
}

/// The same, where that is wanted.
fn take_either(
    alloc: Global,
    out: &mut String,
    session: &mut Session,
    halting: bool,
    at: &StepAt,
) -> Result<bool, AllocError>
    ensures text { OnOk result (string_bytes out.new ≡ string_bytes out.old
        ++ halted (is_halt halting session.old at.now)
        (step_line at.now (reply_to session.old (Step at.now)))) }
    ensures next { OnOk result (session.new ≡ next_session session.old (Step at.now)) }
    ensures goes { IfOk result
        (λ b. b ≡ goes_on_by halting session.old (Onward.Step at.now)) }
{
    if halting {
        take_warily(alloc, out, session, at)
    } else {
        take(alloc, out, session, at)
    }
}

/// Takes the step that comes next, unless its branch pauses or it is later than a moment: appends the line of the step, or why there is
/// none, and tells whether another may follow. The error is that memory ran out.
fn go_once(
    alloc: Global,
    out: &mut String,
    session: &mut Session,
    halting: bool,
    until: Moment,
) -> Result<bool, AllocError>
    ensures text { OnOk result (string_bytes out.new
        ≡ string_bytes out.old ++ move_line halting until session.old) }
    ensures next { OnOk result (session.new ≡ moved until session.old) }
    ensures goes { IfOk result (λ b. b ≡ goes_on halting until session.old) }
{
    match onward_of(session, until)? {
        Onward::Over => {
            out.push_str("the execution is over\n")?;
            Ok(false)
        }
        Onward::Full => {
            out.push_str("the history is full\n")?;
            Ok(false)
        }
        Onward::Later(moment) => {
            put_later(out, moment)?;
            Ok(false)
        }
        Onward::Step(at) => take_either(alloc, out, session, halting, &at),
    }
}

/// Lets the branch go on that steps next, if it pauses. The error is that memory ran out, and nothing changed.
fn free(session: &mut Session, until: Moment) -> Result<(), AllocError>
    ensures ok { OnOk result (session.new ≡ freed until session.old) }
    ensures err { OnErr result (session.new ≡ session.old) }
{
    match onward_of(session, until)? {
        Onward::Step(at) => {
            let _reply = session.apply(&Command::Resume(at.place.try_clone()?))?;
            Ok(())
        }
        _ => Ok(()),
    }
}

/// Takes the steps that come next, at most so many and none later than a moment, until a branch pauses, or, if that is wanted, until
/// something fails: appends a line for each, and why there is no further one. The first one passes its breakpoint. The error is that
/// memory ran out, behind some of the steps.
pub(crate) fn go(
    alloc: Global,
    out: &mut String,
    session: &mut Session,
    halting: bool,
    most: u32,
    until: Moment,
) -> Result<(), AllocError>
    ensures text { OnOk result (string_bytes out.new
        ≡ string_bytes out.old ++ gone_lines halting most until (freed until session.old)) }
    ensures next { OnOk result (session.new ≡ gone halting most until (freed until session.old)) }
{
    free(session, until)?;
    go_on(alloc, out, session, halting, most, until)
}

/// The same, where no branch is let go on.
fn go_on(
    alloc: Global,
    out: &mut String,
    session: &mut Session,
    halting: bool,
    most: u32,
    until: Moment,
) -> Result<(), AllocError>
    ensures text { OnOk result (string_bytes out.new
        ≡ string_bytes out.old ++ gone_lines halting most until session.old) }
    ensures next { OnOk result (session.new ≡ gone halting most until session.old) }
{
    for _ in 0..most {
        if !go_once(alloc, out, session, halting, until)? {
            return Ok(());
        }
    }
    Ok(())
}
