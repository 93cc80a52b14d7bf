// A table of numbers by digests.

use std::alloc::{AllocError, Global};

/// So many parts a table has: 2^17.
const PARTS: usize = 131_072;

/// For each part of the digests the number that was put there last, from 1; 0 where there is none.
#[derive(Drop)]
pub struct Table {
    last: Vec<usize>,
}

/// The part that a digest is in: its highest 17 bits.
fn part_of(digest: u64) -> usize {
    (digest >> 47) as usize
}

impl Table {
    /// A table without numbers. The error is that memory ran out.
    pub fn new(alloc: Global) -> Result<Table, AllocError> {
        let last = vec![in alloc; 0usize; PARTS]?;
        Ok(Table { last })
    }

    /// The number that was put last into the part of a digest; 0 where there is none.
    pub fn last_in(&self, digest: u64) -> usize {
        self.last.get(part_of(digest)).copied().unwrap_or(0)
    }

    /// Puts a number into the part of a digest.
    pub fn put(&mut self, digest: u64, number: usize) {
        let part = part_of(digest);
        if part < self.last.len() {
            self.last[part] = number;
        }
    }
}
