// What lies behind a run's lock.
ghost use Rattle.std.specs.Prelude.{◌≡◌, ◌≢◌, ◌↔◌, [], IfOk, OnErr};
ghost use Rattle.asl_session.specs.Sessions.{reply_to};

use crate::row::Row;
use crate::seat::{Entry, Seat};
use asl_run_input::Setup;
use asl_session::{Command, Reply, Session};
use std::alloc::{AllocError, Global};
use std::error::Error;
use std::fmt;
use std::marker::Model;

/// Why a command wasn't carried out. Nothing changed.
#[derive(Debug, Clone, Copy, PartialEq, Eq)]
pub enum ApplyFault {
    /// H3: the seat has another run's label.
    Foreign,
    /// Memory ran out.
    OutOfMemory,
}

impl From<AllocError> for ApplyFault {
    ghost use Rattle.std.specs.Prelude.{◌≡◌};
    ghost use Rattle.asl_threads.specs.declared.shared.ApplyFault.{ApplyFault};
    ghost use Rattle.asl_threads.specs.declared.shared.ApplyFault.TheVariants.{OutOfMemory};

    ghost from_gives = { λ _ e. e ≡ OutOfMemory };

    fn from(_refused: AllocError) -> ApplyFault {
        ApplyFault::OutOfMemory
    }
}

impl fmt::Display for ApplyFault {
    ghost use Rattle.std.specs.Prelude.{Some};
    ghost use Rattle.asl_threads.specs.Lines.{apply_line};

    ghost output = { λ e. Some (apply_line e) };

    fn fmt<W: fmt::Write>(&self, f: &mut fmt::Formatter<W>) -> fmt::Result {
        match self {
            ApplyFault::Foreign => f.write_str("H3 Foreign"),
            ApplyFault::OutOfMemory => f.write_str("OutOfMemory"),
        }
    }
}

impl Error for ApplyFault {}

/// What lies behind a run's lock: the run's label, its session, and a row for each command. Contracts see the label, the session's setup
/// and the rows, which are legal; the session is the one after their commands. It keeps the allocator that it was opened with.
pub struct Shared {
    label: u64,
    session: Session,
    rows: Vec<Row>,
    alloc: Global,
}

// Written out, so that a caller's proof sees one call and not the drop of each part.
impl Drop for Shared {
    fn drop(self) {
        let Shared {
            label: _label,
            session: _session,
            rows: _rows,
            alloc: _alloc,
        } = self;
    }
}

impl Model for Shared {
    ghost use Rattle.std.specs.Prelude.{◌≡◌};
    ghost use Rattle.asl_threads.specs.Runs.{SharedView, IsReplay};

    ghost Value = { SharedView };

    ghost use Rattle.std.specs.Coded.{codes};
    ghost use Rattle.asl_run_input.specs.contracts.setup.Setup as setup_row;
    ghost use Rattle.asl_threads.specs.contracts.row.Row as row_row;

    ghost coded = { Prim.hlevel (codes, setup_row.the_row.coded, row_row.the_row.coded) };

    ghost view = { λ s. record { label = s.label; setup = s.session.setup; rows = s.rows.items } };

    ghost invariant = { λ s. IsReplay s.session.setup s.rows.items s.session };
}

impl Shared {
    ghost use Rattle.asl_threads.specs.Runs.{IsReplay, session_of, with_row, with_entry};

    /// No command was given yet. The error is that memory ran out.
    pub(crate) fn open(alloc: Global, setup: Setup, label: u64) -> Result<Shared, AllocError>
        ensures { IfOk result (λ s. s ≡ record { label = label; setup = setup; rows = [] }) }
    {
        let session = Session::open(alloc, setup)?;
        Ok(Shared {
            label,
            session,
            rows: Vec::new(alloc),
            alloc,
        })
    }

    /// The run's label.
    pub fn label(&self) -> u64
        ensures { result ≡ self.now.label }
    {
        self.label
    }

    /// What the session began with.
    pub fn setup(&self) -> &Setup
        ensures { result.now ≡ self.now.setup }
    {
        self.session.execution().setup()
    }

    /// The session as it is now.
    pub fn session(&self) -> &Session
        ensures { result.now ≡ session_of self.now }
    {
        &self.session
    }

    /// The rows, in the order in which their commands were carried out.
    pub fn rows(&self) -> &[Row]
        ensures rows { result.now ≡ self.now.rows }
        ensures replay { IsReplay self.now.setup self.now.rows (session_of self.now) }
    {
        let _ = &self.session;
        self.rows.as_slice()
    }

    /// The rows, and the session behind them.
    pub(crate) fn into_parts(self) -> (Vec<Row>, Session)
        ensures rows { result.0.items ≡ self.rows }
        ensures replay { IsReplay self.setup self.rows result.1 }
    {
        let Shared {
            label: _,
            session,
            rows,
            alloc: _,
        } = self;
        (rows, session)
    }

    /// Carries out a command from a seat. The rows and the seat's list grow together. On a fault neither does, and the session stays; the
    /// command is dropped.
    pub fn apply(&mut self, seat: &mut Seat, command: Command) -> Result<Reply, ApplyFault>
        ensures reply { IfOk result (λ r. r ≡ reply_to (session_of self.old) command) }
        ensures row { IfOk result (λ r. self.new
            ≡ with_row self.old seat.old.number command r) }
        ensures entry { IfOk result (λ r. seat.new ≡ with_entry seat.old command r) }
        ensures own { IfOk result (λ _. self.old.label ≡ seat.old.label) }
        ensures foreign { (result ≡ Err ApplyFault.Foreign) ↔ (self.old.label ≢ seat.old.label) }
        ensures err { OnErr result ((self.new ≡ self.old) × (seat.new ≡ seat.old)) }
    {
        if self.label != seat.label {
            return Err(ApplyFault::Foreign);
        }
        self.rows.reserve(1)?;
        seat.list.reserve(1)?;
        let copy = command.try_clone()?;
        let reply = self.session.apply(&command)?;
        // A reply that takes memory to copy leaves the session as it is, and no other can fail here.
        let first = reply.try_clone(self.alloc)?;
        let second = reply.try_clone(self.alloc)?;
        self.rows.push_reserved(Row {
            seat: seat.number,
            command,
            reply: first,
        });
        seat.list.push_reserved(Entry {
            command: copy,
            reply: second,
        });
        Ok(reply)
    }
}
