// Parts of a suite.
ghost use Rattle.std.specs.Prelude.{◌≡◌, ◌≤◌, [], OnOk, OnErr, vec_len, vec_capacity};
ghost use Rattle.asl_suite_file.specs.Shards.{every};

use crate::expectation::Draft;
use crate::expectations::Drafts;
use std::alloc::{AllocError, Global};
use std::mem;

impl Drafts {
    /// Keeps the tests of these numbers, counted from 1: `first`, and each that stands `apart` behind one of them. The error is that memory
    /// ran out, and all are kept.
    pub fn keep_every(
        &mut self,
        alloc: Global,
        first: usize,
        apart: usize,
    ) -> Result<(), AllocError>
        ensures ok { OnOk result (self.new.list.items ≡ every first apart self.old.list.items) }
        ensures err { OnErr result (self.new ≡ self.old) }
    {
        let room = Vec::with_capacity(alloc, self.list.len())?;
        let all = mem::replace(&mut self.list, room);
        pick(all, first, apart, &mut self.list);
        Ok(())
    }
}

/// Puts the tests of these numbers into a list that has room for all.
fn pick(all: Vec<Draft>, first: usize, apart: usize, kept: &mut Vec<Draft>)
    requires none { kept.old.items ≡ [] }
    requires len { vec_len kept.old ≡ 0 }
    requires room { vec_len all ≤ vec_capacity kept.old }
    ensures { kept.new.items ≡ every first apart all.items }
{
    let mut skipped = first.saturating_sub(1);
    for test in all {
        if skipped == 0 {
            kept.push_reserved(test);
            skipped = apart.saturating_sub(1);
        } else {
            skipped -= 1;
        }
    }
}
