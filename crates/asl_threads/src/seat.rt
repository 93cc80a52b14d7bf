// What a thread keeps of its own commands.
ghost use Rattle.std.specs.Prelude.{◌≡◌};

use asl_session::{Command, Reply};
use std::alloc::Global;
use std::marker::Model;

/// A command of a seat, with its reply.
pub struct Entry {
    /// The command.
    pub command: Command,
    /// Its reply.
    pub reply: Reply,
}

// Written out, so that a caller's proof sees one call and not the drop of each part.
impl Drop for Entry {
    fn drop(self) {
        let Entry {
            command: _command,
            reply: _reply,
        } = self;
    }
}

/// A place at a run, with the commands that were given from it and their replies. It can't be copied. Contracts see the label of its
/// run, its number and the list.
pub struct Seat {
    pub(crate) label: u64,
    pub(crate) number: usize,
    pub(crate) list: Vec<Entry>,
}

// Written out, so that a caller's proof sees one call and not the drop of each part.
impl Drop for Seat {
    fn drop(self) {
        let Seat {
            label: _label,
            number: _number,
            list: _list,
        } = self;
    }
}

impl Model for Seat {
    ghost use Rattle.asl_threads.specs.Runs.{SeatView};

    ghost Value = { SeatView };

    ghost use Rattle.std.specs.Coded.{codes};
    ghost use Rattle.asl_threads.specs.contracts.seat.Entry as entry_row;

    ghost coded = { Prim.hlevel (codes, entry_row.the_row.coded) };

    ghost view = { λ s. record { label = s.label; number = s.number; list = s.list.items } };
}

impl Seat {
    ghost use Rattle.asl_threads.specs.Runs.{fresh};

    /// A seat from which no command was given.
    pub(crate) fn new(alloc: Global, label: u64, number: usize) -> Seat
        ensures { result ≡ fresh label number }
    {
        Seat {
            label,
            number,
            list: Vec::new(alloc),
        }
    }

    /// The label of its run.
    pub fn label(&self) -> u64
        ensures { result ≡ self.now.label }
    {
        self.label
    }

    /// Its number.
    pub fn number(&self) -> usize
        ensures { result ≡ self.now.number }
    {
        self.number
    }

    /// Its commands with their replies, in order.
    pub fn list(&self) -> &[Entry]
        ensures { result.now ≡ self.now.list }
    {
        self.list.as_slice()
    }
}
