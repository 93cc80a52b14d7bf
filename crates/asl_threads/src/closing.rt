// The end of a run.
ghost use Rattle.std.specs.Prelude.{◌≡◌, IfOk};
ghost use Rattle.asl_threads.specs.Closing.{run_view};
ghost use Rattle.asl_threads.specs.Answer.{opened_with, IsRecordOf, Ends, Closes};

use crate::agreeing::refusal;
use crate::lock::Lock;
use crate::row::Row;
use crate::run::Run;
use crate::seat::Seat;
use crate::shared::Shared;
use asl_run_input::Setup;
use asl_session::Session;
use std::error::Error;
use std::fmt;

/// What a closed run leaves: all commands with their replies, in the order in which they were carried out, and the session behind them.
#[derive(Drop)]
pub struct RunRecord {
    /// A row for each command.
    pub rows: Vec<Row>,
    /// The session behind the rows.
    pub session: Session,
}

/// Why a run isn't closed. Of several causes the first in this order is answered.
#[derive(Debug, Clone, Copy, PartialEq, Eq)]
pub enum Cause {
    /// H6: behind the lock is another setup or another label than the run was opened with.
    OtherSetup,
    /// H3: a seat has another run's label.
    Foreign,
    /// H1: the seat of this number is missing: the least one.
    SeatMissing(usize),
    /// H2: the least number of a seat whose list isn't that of its rows, that is there twice, or whose number no seat of the run has.
    Mismatch(usize),
}

impl fmt::Display for Cause {
    ghost use Rattle.std.specs.Prelude.{Some};
    ghost use Rattle.asl_threads.specs.Lines.{cause_line};

    ghost output = { λ e. Some (cause_line e) };

    fn fmt<W: fmt::Write>(&self, f: &mut fmt::Formatter<W>) -> fmt::Result {
        match self {
            Cause::OtherSetup => f.write_str("H6 OtherSetup"),
            Cause::Foreign => f.write_str("H3 Foreign"),
            Cause::SeatMissing(number) => write!(f, "H1 SeatMissing {number}"),
            Cause::Mismatch(number) => write!(f, "H2 Mismatch {number}"),
        }
    }
}

impl Error for Cause {}

/// Why a run isn't closed. It hands back the run and the seats, as they were.
#[derive(Drop)]
pub struct CloseFault<L> {
    /// Why.
    pub cause: Cause,
    /// The run.
    pub run: Run<L>,
    /// The seats that were given.
    pub seats: Vec<Seat>,
}

/// Its text is that of its cause.
impl<L: Drop> fmt::Display for CloseFault<L> {
    ghost use Rattle.std.specs.Prelude.{Some};
    ghost use Rattle.asl_threads.specs.Lines.{cause_line};

    ghost output = { λ e. Some (cause_line e.cause) };

    fn fmt<W: fmt::Write>(&self, f: &mut fmt::Formatter<W>) -> fmt::Result {
        write!(f, "{}", self.cause)
    }
}

impl<L: Drop> fmt::Debug for CloseFault<L> {
    fn fmt<W: fmt::Write>(&self, f: &mut fmt::Formatter<W>) -> fmt::Result {
        write!(f, "CloseFault({:?})", self.cause)
    }
}

impl<L: Drop> Error for CloseFault<L> {}

impl<L: Lock + Drop> Run<L> {
    /// Closes the run with its seats: their commands and replies are those of one legal list of rows, each once, and those of each seat
    /// in its order. Takes no lock and no memory. A record is answered exactly where what lies in the run's lock has the setup and the label
    /// of the run, each seat has this label, their numbers are those of the run, each once, and the list of each is that of the rows
    /// with its number. Else run and seats are handed back, with the first cause that applies, and in the run's lock lies what lay in it.
    pub fn close(self, seats: Vec<Seat>) -> Result<RunRecord, CloseFault<L>>
        // A record is one legal list, with which all seats agree.
        ensures record { IfOk result (IsRecordOf (opened_with self) seats.items) }
        // What lay in the lock decides all of it.
        ensures exactly { Closes L.holds self seats.items result }
    {
        let (state, setup, label, count) = self.into_parts();
        judge(state.into_shared(), setup, label, count, seats)
    }
}

/// Closes the run that was opened with this setup, label and number of seats, and has this behind its lock.
fn judge<L: Lock + Drop>(
    shared: Shared,
    setup: Setup,
    label: u64,
    count: usize,
    seats: Vec<Seat>,
) -> Result<RunRecord, CloseFault<L>>
    ensures { Ends L.holds (run_view setup label count) shared seats.items result }
{
    match refusal(&setup, label, count, &shared, seats.as_slice()) {
        None => {
            let (rows, session) = shared.into_parts();
            Ok(RunRecord { rows, session })
        }
        Some(cause) => {
            // This shows the prover what always holds behind the lock.
            let _ = shared.rows();
            let state = L::of(shared);
            let run = Run {
                state,
                setup,
                label,
                seats: count,
            };
            Err(CloseFault { cause, run, seats })
        }
    }
}
