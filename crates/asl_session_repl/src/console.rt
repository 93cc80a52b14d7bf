// What is answered to a line.
ghost use Rattle.std.specs.Prelude.{◌≡◌, ◌++◌, ◌||◌, false, true, is_none, IfOk, OnOk, OnErr, string_bytes};
ghost use Rattle.asl_run_branches.specs.Branches.{record_at};
ghost use Rattle.asl_session.specs.ReplyLines.{answer_line};
ghost use Rattle.asl_session.specs.Sessions.{next_session, reply_to, world_in};
ghost use Rattle.asl_session_repl.specs.Views.{data_text};
ghost use Rattle.asl_session.specs.declared.command.Command.TheVariants.{Step};
ghost use Rattle.asl_session_repl.specs.Dated.{dated, dated_step};
ghost use Rattle.asl_session_repl.specs.Requests.{complaint};
ghost use Rattle.asl_session_repl.specs.Answers.{first_console, most_moves, step_answer, halt_answer, halts_behind, start_in, started, answer_to, after, settles, is_quit, is_refusal, is_refused, IsRefusedLine, next_console, swap_line, swap_text, IsAnswer};

use crate::dated::{dated, dated_step, last_moment, moment_of};
use crate::going::{go, put_step_line};
use crate::reading::{put_complaint, read_request};
use crate::request::Request;
use crate::timed::{Timed, When};
use crate::views::{put_data, put_events, put_places};
use crate::word::put_help;
use asl_exec::{Obstacle, put_obstacle};
use asl_history::Place;
use asl_run_input::{Setup, StepAt, put_steps};
use asl_session::{Command, Reply, Session, put_answer};
use asl_time::Moment;
use std::alloc::{AllocError, Global};
use std::marker::Model;

/// A session that answers lines. Its execution starts at the moment of the first `step` that is typed, if no step was taken before.
/// Contracts see the session, whether its start is settled, and whether steps are stopped behind one in which something fails.
pub struct Console {
    session: Session,
    settled: bool,
    halting: bool,
    alloc: Global,
}

impl Drop for Console {
    fn drop(self) {
        let Console {
            session: _session,
            settled: _settled,
            halting: _halting,
            alloc: _alloc,
        } = self;
    }
}

impl Model for Console {
    ghost use Rattle.asl_session_repl.specs.Answers.{Console};

    ghost Value = { Console };

    ghost use Rattle.std.specs.Coded.{codes};
    ghost use Rattle.asl_run_input.specs.contracts.setup.Setup as setup_row;
    ghost use Rattle.asl_run_input.specs.contracts.step_at.StepAt as step_row;

    ghost coded = { Prim.hlevel (codes, setup_row.the_row.coded, step_row.the_row.coded) };

    ghost view = { λ c. record { session = c.session; settled = c.settled; halting = c.halting } };
}

/// What is answered to a line.
pub struct Answer {
    /// Lines, each with its line feed.
    pub text: String,
    /// Whether no further line is read.
    pub quits: bool,
    /// Whether the line isn't carried out: it asks for nothing, or for what is refused.
    pub refused: bool,
}

impl Drop for Answer {
    fn drop(self) {
        let Answer {
            text: _text,
            quits: _quits,
            refused: _refused,
        } = self;
    }
}

/// So many steps are taken at most where none is the last one.
#[tactic(auto, unfolding(crate::specs::Answers::most_moves))]
fn most_moves() -> u32
    ensures { result ≡ most_moves }
{
    25_000
}

/// Appends that two steps may change places, or why not. The error is that memory ran out.
fn put_swap_line(out: &mut String, found: &Option<Obstacle>) -> Result<(), AllocError>
    ensures { OnOk result (string_bytes out.new ≡ string_bytes out.old ++ swap_line found.now) }
{
    match found {
        None => out.push_str("exchangeable\n"),
        Some(obstacle) => {
            put_obstacle(out, obstacle)?;
            out.push('\n')
        }
    }
}

/// Appends whether two steps may change places, or why not. The error is that memory ran out.
fn put_swap(
    out: &mut String,
    session: &Session,
    one: &Timed,
    other: &Timed,
) -> Result<(), AllocError>
    ensures { OnOk result (string_bytes out.new ≡ string_bytes out.old
        ++ swap_text session.now (dated session.now one.now) (dated session.now other.now)) }
{
    let one = dated(session, one)?;
    let other = dated(session, other)?;
    let found = session.execution().obstacle(&one, &other)?;
    put_swap_line(out, &found)
}

/// Appends what is answered to a step that was tried: the reply, where its moment was given; else its line, which tells the moment. The
/// error is that memory ran out.
fn put_step_answer(
    alloc: Global,
    out: &mut String,
    when: Option<When>,
    at: &StepAt,
    reply: &Reply,
) -> Result<(), AllocError>
    ensures { OnOk result (string_bytes out.new
        ≡ string_bytes out.old ++ step_answer when at.now reply.now) }
{
    match when {
        Some(When::At(_)) => put_answer(alloc, out, reply),
        Some(When::After(_) | When::Since(_)) | None => put_step_line(alloc, out, at, reply),
    }
}

/// Whether this is the reply to a command that wasn't carried out.
fn is_refusal(reply: &Reply) -> bool
    ensures { result ≡ is_refusal reply.now }
{
    match reply {
        Reply::Refused(_)
        | Reply::Paused(_)
        | Reply::NotPaused
        | Reply::NoSuchState
        | Reply::NoSuchPlace
        | Reply::TooFar => true,
        _ => false,
    }
}

/// Takes the step that is named, and appends what is answered; tells whether it is refused. The error is that memory ran out.
fn take_named(
    alloc: Global,
    out: &mut String,
    session: &mut Session,
    place: &Place,
    when: Option<When>,
) -> Result<bool, AllocError>
    ensures text { OnOk result (string_bytes out.new ≡ string_bytes out.old
        ++ step_answer when (dated_step session.old place.now when)
        (reply_to session.old (Step (dated_step session.old place.now when)))) }
    ensures next { OnOk result (session.new
        ≡ next_session session.old (Step (dated_step session.old place.now when))) }
    ensures refused { IfOk result (λ b. b
        ≡ is_refusal (reply_to session.old (Step (dated_step session.old place.now when)))) }
{
    let at = dated_step(session, place, when)?;
    let reply = session.apply(&Command::Step(at.try_clone()?))?;
    put_step_answer(alloc, out, when, &at, &reply)?;
    Ok(is_refusal(&reply))
}

/// Carries out a command, and appends the reply; tells whether it is refused. The error is that memory ran out.
fn tell(
    alloc: Global,
    out: &mut String,
    session: &mut Session,
    command: &Command,
) -> Result<bool, AllocError>
    ensures text { OnOk result (string_bytes out.new
        ≡ string_bytes out.old ++ answer_line (reply_to session.old command.now)) }
    ensures next { OnOk result (session.new ≡ next_session session.old command.now) }
    ensures refused { IfOk result (λ b. b ≡ is_refusal (reply_to session.old command.now)) }
{
    let reply = session.apply(command)?;
    put_answer(alloc, out, &reply)?;
    Ok(is_refusal(&reply))
}

/// Appends the data of the branch at a place; tells whether no branch runs there. The error is that memory ran out.
fn show_data(
    alloc: Global,
    out: &mut String,
    session: &Session,
    place: &Place,
) -> Result<bool, AllocError>
    ensures text { OnOk result (string_bytes out.new
        ≡ string_bytes out.old ++ data_text session.now place.now) }
    ensures refused { IfOk result (λ b. b
        ≡ is_none (record_at place.now (world_in session.now).branches)) }
{
    put_data(alloc, out, session, place)?;
    Ok(session.execution().view(place).is_none())
}

/// Whether the start is settled by a request.
fn settles(request: &Request) -> bool
    ensures { result ≡ settles request.now }
{
    match request {
        Request::Step(..) | Request::Next(_) | Request::Continue | Request::Until(_) => true,
        _ => false,
    }
}

/// The moment at which the execution starts by a request, where its start isn't settled.
fn start_in(request: &Request) -> Option<Moment>
    ensures { result ≡ start_in request.now }
{
    match request {
        Request::Step(_, Some(When::At(moment))) => Some(*moment),
        _ => None,
    }
}

/// Whether the start is settled behind a request, where it was or wasn't before.
fn is_settled(settled: bool, request: &Request) -> bool
    ensures { result ≡ (settled || settles request.now) }
{
    settled || settles(request)
}

/// The reply where steps are to be stopped behind a failure, or no longer.
fn halt_answer(halting: bool) -> Reply
    ensures { result ≡ halt_answer halting }
{
    if halting { Reply::Set } else { Reply::Cleared }
}

/// Whether steps are stopped behind a failure after a request, where they were or weren't before.
fn halts_behind(halting: bool, request: &Request) -> bool
    ensures { result ≡ halts_behind halting request.now }
{
    match request {
        Request::Halt(halts) => *halts,
        _ => halting,
    }
}

/// What is told of a line that asks for nothing. The error is that memory ran out.
fn complain(alloc: Global, line: &[u8]) -> Result<Answer, AllocError>
    ensures text { IfOk result (λ a. string_bytes a.text ≡ complaint line.now) }
    ensures quits { IfOk result (λ a. a.quits ≡ false) }
    ensures refused { IfOk result (λ a. a.refused ≡ true) }
{
    let mut text = String::new(alloc);
    put_complaint(&mut text, line)?;
    Ok(Answer {
        text,
        quits: false,
        refused: true,
    })
}

impl Console {
    /// A session of no line. The error is that memory ran out.
    pub fn open(alloc: Global, setup: Setup) -> Result<Console, AllocError>
        ensures { IfOk result (λ c. c ≡ first_console setup) }
    {
        let session = Session::open(alloc, setup)?;
        Ok(Console {
            session,
            settled: false,
            halting: false,
            alloc,
        })
    }

    /// The session as it is now.
    pub fn session(&self) -> &Session
        ensures { result.now ≡ self.now.session }
    {
        &self.session
    }

    /// Whether the moment at which its execution starts is settled.
    pub(crate) fn is_settled(&self) -> bool
        ensures { result ≡ self.now.settled }
    {
        self.settled
    }

    /// Answers a line: carries out what it asks for, or tells what it could be. The error is that memory ran out.
    pub fn answer(&mut self, line: &[u8]) -> Result<Answer, AllocError>
        ensures answer { IfOk result (λ a.
            IsAnswer self.old line.now (string_bytes a.text) a.quits self.new) }
        ensures refused { IfOk result (λ a. IsRefusedLine self.old line.now a.refused) }
    {
        match read_request(self.alloc, line)? {
            Some(request) => self.carry_out(&request),
            None => complain(self.alloc, line),
        }
    }

    /// Carries out a request. The error is that memory ran out.
    fn carry_out(&mut self, request: &Request) -> Result<Answer, AllocError>
        ensures text { IfOk result (λ a. string_bytes a.text
            ≡ answer_to self.old.halting (started self.old request.now) request.now) }
        ensures quits { IfOk result (λ a. a.quits ≡ is_quit request.now) }
        ensures refused { IfOk result (λ a. a.refused
            ≡ is_refused (started self.old request.now) request.now) }
        ensures next { OnOk result (self.new ≡ next_console self.old request.now) }
    {
        let mut text = String::new(self.alloc);
        self.start(request)?;
        // (also where memory runs out behind the first of several steps)
        self.settled = is_settled(self.settled, request);
        let refused = self.obey(&mut text, request)?;
        self.halting = halts_behind(self.halting, request);
        Ok(Answer {
            text,
            quits: matches!(request, Request::Quit),
            refused,
        })
    }

    /// Lets the execution start at the moment of a step, where its start isn't settled. The error is that memory ran out, and nothing
    /// changed.
    fn start(&mut self, request: &Request) -> Result<(), AllocError>
        ensures ok { OnOk result (self.new.session ≡ started self.old request.now) }
        ensures err { OnErr result (self.new.session ≡ self.old.session) }
        ensures settled { self.new.settled ≡ self.old.settled }
        ensures halting { self.new.halting ≡ self.old.halting }
    {
        if self.settled {
            return Ok(());
        }
        match start_in(request) {
            Some(moment) => self.session.restart(moment),
            None => Ok(()),
        }
    }

    /// Carries out a request, and appends what is answered; tells whether it is refused. The error is that memory ran out.
    fn obey(&mut self, out: &mut String, request: &Request) -> Result<bool, AllocError>
        ensures text { OnOk result (string_bytes out.new
            ≡ string_bytes out.old ++ answer_to self.old.halting self.old.session request.now) }
        ensures refused { IfOk result (λ b. b ≡ is_refused self.old.session request.now) }
        ensures next { OnOk result (self.new.session
            ≡ after self.old.halting self.old.session request.now) }
        ensures settled { self.new.settled ≡ self.old.settled }
        ensures halting { self.new.halting ≡ self.old.halting }
    {
        let (alloc, halting) = (self.alloc, self.halting);
        match request {
            Request::Told(command) => return tell(alloc, out, &mut self.session, command),
            Request::Step(place, when) => {
                return take_named(alloc, out, &mut self.session, place, *when);
            }
            Request::Data(place) => return show_data(alloc, out, &self.session, place),
            Request::Halt(halts) => put_answer(alloc, out, &halt_answer(*halts))?,
            Request::Next(count) => go(
                alloc,
                out,
                &mut self.session,
                halting,
                *count,
                last_moment(),
            )?,
            Request::Continue => go(
                alloc,
                out,
                &mut self.session,
                halting,
                most_moves(),
                last_moment(),
            )?,
            Request::Until(when) => {
                let until = moment_of(&self.session, *when);
                go(alloc, out, &mut self.session, halting, most_moves(), until)?;
            }
            Request::Places => put_places(alloc, out, &self.session)?,
            Request::Events(count) => put_events(out, &self.session, *count)?,
            Request::Steps => put_steps(out, self.session.steps())?,
            Request::Swap(one, other) => put_swap(out, &self.session, one, other)?,
            Request::Help => put_help(out)?,
            Request::Quit => {}
        }
        Ok(false)
    }
}
