// What a step does.
ghost use Rattle.std.specs.Prelude.{◌≡◌, [], ◌∷◌, ◌++◌, IfOk};

use crate::record::{ErrorOut, Record};
use asl_history::EventKind;
use asl_json_shared::{Name, Shared};
use std::alloc::{AllocError, Global};
use std::marker::Model;

/// An event before it has a place, a moment and a number.
#[derive(Drop)]
pub struct Draft {
    /// What happened.
    pub kind: EventKind,
    /// The name of the state; empty for an event of the execution.
    pub name: Name,
    /// What is told of it.
    pub body: Shared,
}

/// Some drafts, in order.
#[derive(Drop)]
pub struct Drafts {
    pub list: Vec<Draft>,
}

impl Model for Drafts {
    ghost use Rattle.std.specs.Prelude.{List};
    ghost use Rattle.asl_step.specs.declared.effect.Draft.{Draft};

    ghost Value = { List Draft };

    ghost use Rattle.std.specs.Coded.{coded_list};
    ghost use Rattle.asl_step.specs.contracts.effect.Draft as draft_row;

    ghost coded = { coded_list draft_row.the_row.coded };

    ghost view = { λ d. d.list.items };
}

impl Drafts {
    /// No drafts. It takes no memory.
    pub fn new(alloc: Global) -> Drafts
        ensures { result ≡ [] }
    {
        Drafts {
            list: Vec::new(alloc),
        }
    }

    /// These drafts and one more.
    pub fn and(self, kind: EventKind, name: Name, body: Shared) -> Result<Drafts, AllocError>
        ensures { IfOk result (λ d. d
            ≡ self ++ record { kind = kind; name = name; body = body } ∷ []) }
    {
        let mut list = self.list;
        list.push(Draft { kind, name, body })?;
        Ok(Drafts { list })
    }
}

/// Some records, in order.
#[derive(Drop)]
pub struct Records {
    pub list: Vec<Record>,
}

impl Model for Records {
    ghost use Rattle.std.specs.Prelude.{List};
    ghost use Rattle.asl_step.specs.declared.record.Record.{Record};

    ghost Value = { List Record };

    ghost use Rattle.std.specs.Coded.{coded_list};
    ghost use Rattle.asl_step.specs.contracts.record.Record as record_row;

    ghost coded = { coded_list record_row.the_row.coded };

    ghost view = { λ r. r.list.items };
}

/// What becomes of the places under the one that steps.
#[derive(Drop)]
pub enum Children {
    Kept,
    Removed,
    Forked(Records),
}

/// How an execution ended.
#[derive(Drop)]
pub enum Ended {
    Succeeded(Shared),
    Failed(ErrorOut),
}

/// What a step does.
#[derive(Drop)]
pub struct Effect {
    /// What the branch is doing then.
    pub after: Record,
    /// What becomes of the branches under it.
    pub children: Children,
    /// Whether the count of the state's invocations grows by one.
    pub raises: bool,
    /// The events, in order.
    pub events: Drafts,
    /// The outcome, where the execution ends.
    pub outcome: Option<Ended>,
}

/// What a step has done before the state is left or fails.
#[derive(Drop)]
pub struct Progress {
    /// What becomes of the branches under it.
    pub children: Children,
    /// Whether the count of the state's invocations grows by one.
    pub raises: bool,
    /// The events so far, in order.
    pub events: Drafts,
}
