// Branches that have numbers.
ghost use Rattle.std.specs.Prelude.{◌≡◌, [], true, Some, slice_get, IfOk, IfSome};
ghost use Rattle.asl_branch_numbers.specs.Numbers.{branch_in, branches_in, IsMore};

use crate::digest::digest_of;
use crate::table::Table;
use asl_history::Place;
use asl_step::Record;
use std::alloc::{AllocError, Global};

/// A branch that has a number.
#[derive(Drop)]
pub(crate) struct Numbered {
    pub(crate) place: Place,
    pub(crate) held: Record,
    /// By which it is looked up.
    digest: u64,
    /// The number, from 1, of the last branch before it in the same part of the table; 0 where there is none.
    before: usize,
}

/// Branches, each with its place and what it is doing, numbered from 0; and a table to look them up.
#[derive(Drop)]
pub struct Branches {
    pub(crate) list: Vec<Numbered>,
    table: Table,
}

/// Whether a branch is the one at this place that is doing this, if this is true.
fn is_same(one: &Numbered, place: &Place, held: &Record) -> bool
    ensures { result ≡ true
        → branch_in one.now ≡ record { place = place.now; current = held.now } }
{
    one.place == *place && one.held == *held
}

impl Branches {
    /// No branch has a number. The error is that memory ran out.
    pub fn none(alloc: Global) -> Result<Branches, AllocError>
        ensures { IfOk result (λ b. branches_in b ≡ []) }
    {
        Ok(Branches {
            list: Vec::new(alloc),
            table: Table::new(alloc)?,
        })
    }

    /// The number of the branch at a place that is doing this, of this digest, if it has one that is found.
    fn find(&self, place: &Place, held: &Record, digest: u64) -> Option<usize>
        ensures { IfSome result (λ n. slice_get (branches_in self.now) n
            ≡ Some (record { place = place.now; current = held.now })) }
    {
        let mut number = self.table.last_in(digest);
        for _ in 0..self.list.len() {
            if number == 0 || number > self.list.len() {
                return None;
            }
            let index = number - 1;
            let one = &self.list[index];
            if one.digest == digest && is_same(one, place, held) {
                return Some(index);
            }
            number = one.before;
        }
        None
    }

    /// The number of the branch at a place that is doing this, if it has one that is found.
    pub(crate) fn number_of(&self, place: &Place, held: &Record) -> Option<usize>
        ensures { IfSome result (λ n. slice_get (branches_in self.now) n
            ≡ Some (record { place = place.now; current = held.now })) }
    {
        self.find(place, held, digest_of(place, held))
    }

    /// The branch at a place that is doing this has a number from now on. The error is that memory ran out.
    pub(crate) fn put(
        &mut self,
        alloc: Global,
        place: &Place,
        held: &Record,
    ) -> Result<(), AllocError>
        ensures { IsMore (branches_in self.old) (branches_in self.new) }
    {
        let digest = digest_of(place, held);
        if self.find(place, held, digest).is_some() {
            return Ok(());
        }
        let one = Numbered {
            place: place.try_clone()?,
            held: held.try_clone(alloc)?,
            digest,
            before: self.table.last_in(digest),
        };
        self.list.push(one)?;
        self.table.put(digest, self.list.len());
        Ok(())
    }
}
