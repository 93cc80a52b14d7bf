// What a branch is doing.
ghost use Rattle.std.specs.Prelude.{◌≡◌, IfOk, option_map};
ghost use Rattle.asl_step.specs.Records.{error_name, is_failed, is_done, state_in, name_in, entering_with, beginning_with, pausing_with, uses_in};

use asl_json::{Txt, clone_text};
use asl_json_shared::{Name, Shared, SharedItems};
use asl_time::Moment;
use std::alloc::{AllocError, Global};
use std::marker::Model;

/// Why a branch failed: an error's name and its cause, each where there is one. (ASL, "Errors".)
#[derive(PartialEq, Eq)]
pub struct ErrorOut {
    pub error: Option<Txt>,
    pub cause: Option<Txt>,
}

// Written out, so that a caller's proof sees one call and not the drop of each part.
impl Drop for ErrorOut {
    fn drop(self) {
        let ErrorOut {
            error: _error,
            cause: _cause,
        } = self;
    }
}

/// How often each retrier of a state was used since the state was entered.
pub struct Uses {
    pub counts: Vec<u32>,
}

impl Drop for Uses {
    fn drop(self) {
        let Uses { counts: _counts } = self;
    }
}

impl Model for Uses {
    ghost use Rattle.std.specs.Prelude.{List, ℕ};

    ghost Value = { List ℕ };

    ghost view = { λ u. u.counts.items };
}

impl PartialEq for Uses {
    ghost use Rattle.std.specs.Prelude.{nat_eq};
    ghost use Rattle.std.specs.Cmp.Lexicographic.{pointwise};
    ghost use Rattle.std.specs.Cmp.{partial_equiv_from_equiv};
    ghost use Rattle.std.proofs.lemmas.Cmp.{nat_list_eq_equiv};

    ghost eq = { pointwise nat_eq };

    ghost laws = { partial_equiv_from_equiv nat_list_eq_equiv };

    fn eq(&self, other: &Uses) -> bool {
        self.counts.as_slice() == other.counts.as_slice()
    }
}

impl Eq for Uses {
    ghost use Rattle.std.proofs.lemmas.Cmp.{nat_list_eq_equiv};

    ghost laws = { nat_list_eq_equiv };
}

/// What a branch is doing. `state` is the name of its state, `input` the state's raw input, `since` the moment of the state's first
/// step, `uses` how often each of its retriers was used.
#[derive(PartialEq, Eq)]
pub enum Record {
    /// An iteration of a Map that hasn't begun.
    New {
        state: Name,
        input: Shared,
    },
    /// About to enter its state.
    Ready {
        state: Name,
        input: Shared,
    },
    /// Waiting until a moment.
    Pausing {
        state: Name,
        input: Shared,
        since: Moment,
        until: Moment,
    },
    /// Waiting until a moment, then about to be retried.
    Again {
        state: Name,
        input: Shared,
        since: Moment,
        uses: Uses,
        until: Moment,
    },
    /// Waiting for its children; `items` are a Map's.
    Forked {
        state: Name,
        input: Shared,
        since: Moment,
        uses: Uses,
        items: SharedItems,
    },
    /// Ended with this output.
    Done(Shared),
    /// Failed with this error.
    Failed(ErrorOut),
}

impl Drop for Record {
    fn drop(self) {
        match self {
            Record::New {
                state: _a,
                input: _b,
            } => {}
            Record::Ready {
                state: _a,
                input: _b,
            } => {}
            Record::Pausing {
                state: _a,
                input: _b,
                since: _c,
                until: _d,
            } => {}
            Record::Again {
                state: _a,
                input: _b,
                since: _c,
                uses: _d,
                until: _e,
            } => {}
            Record::Forked {
                state: _a,
                input: _b,
                since: _c,
                uses: _d,
                items: _e,
            } => {}
            Record::Done(_part) => {}
            Record::Failed(_part) => {}
        }
    }
}

impl ErrorOut {
    /// The name of the error; empty where it has none.
    pub fn name(&self) -> &str
        ensures { result.now ≡ error_name self.now }
    {
        match &self.error {
            Some(name) => name.as_str(),
            None => "",
        }
    }

    /// An equal error. What fails is memory.
    pub fn try_clone(&self, alloc: Global) -> Result<ErrorOut, AllocError>
        ensures { IfOk result (λ e. e ≡ self.now) }
    {
        let error = clone_text(alloc, &self.error)?;
        let cause = clone_text(alloc, &self.cause)?;
        Ok(ErrorOut { error, cause })
    }
}

impl Uses {
    fn try_clone(&self, alloc: Global) -> Result<Uses, AllocError>
        ensures { IfOk result (λ u. u ≡ self.now) }
    {
        Ok(Uses {
            counts: Vec::from_slice(alloc, &self.counts)?,
        })
    }
}

impl Record {
    /// An equal record, of the same name and value. What fails is memory.
    pub fn try_clone(&self, alloc: Global) -> Result<Record, AllocError>
        ensures { IfOk result (λ r. r ≡ self.now) }
    {
        Ok(match self {
            Record::New { state, input } => Record::New {
                state: state.try_clone()?,
                input: input.try_clone()?,
            },
            Record::Ready { state, input } => Record::Ready {
                state: state.try_clone()?,
                input: input.try_clone()?,
            },
            Record::Pausing {
                state,
                input,
                since,
                until,
            } => Record::Pausing {
                state: state.try_clone()?,
                input: input.try_clone()?,
                since: *since,
                until: *until,
            },
            Record::Again {
                state,
                input,
                since,
                uses,
                until,
            } => Record::Again {
                state: state.try_clone()?,
                input: input.try_clone()?,
                since: *since,
                uses: uses.try_clone(alloc)?,
                until: *until,
            },
            Record::Forked {
                state,
                input,
                since,
                uses,
                items,
            } => Record::Forked {
                state: state.try_clone()?,
                input: input.try_clone()?,
                since: *since,
                uses: uses.try_clone(alloc)?,
                items: items.try_clone()?,
            },
            Record::Done(output) => Record::Done(output.try_clone()?),
            Record::Failed(error) => Record::Failed(error.try_clone(alloc)?),
        })
    }

    /// The name of the state that a branch is in; none where it has ended.
    pub fn state(&self) -> Option<&Name>
        ensures { option_map (λ n. n.now) result ≡ state_in self.now }
    {
        match self {
            Record::New { state, .. }
            | Record::Ready { state, .. }
            | Record::Pausing { state, .. }
            | Record::Again { state, .. }
            | Record::Forked { state, .. } => Some(state),
            Record::Done(_) | Record::Failed(_) => None,
        }
    }

    /// The name of the state that a branch is in; empty where it has ended.
    pub fn name(&self) -> &str
        ensures { result.now ≡ name_in self.now }
    {
        match self.state() {
            Some(name) => name.as_str(),
            None => "",
        }
    }

    /// The raw input of a state that is about to be entered.
    pub fn entering(&self) -> Option<&Shared>
        ensures { option_map (λ x. x.now) result ≡ entering_with self.now }
    {
        match self {
            Record::New { input, .. } | Record::Ready { input, .. } => Some(input),
            _ => None,
        }
    }

    /// The raw input of a state that is about to be entered, or to be retried.
    pub fn beginning(&self) -> Option<&Shared>
        ensures { option_map (λ x. x.now) result ≡ beginning_with self.now }
    {
        match self {
            Record::New { input, .. } | Record::Ready { input, .. } | Record::Again { input, .. } =>
                Some(input),
            _ => None,
        }
    }

    /// How often each retrier of the state was used; empty where nothing was counted yet.
    pub fn uses(&self) -> &[u32]
        ensures { result.now ≡ uses_in self.now }
    {
        match self {
            Record::Again { uses, .. } | Record::Forked { uses, .. } => &uses.counts,
            _ => &[],
        }
    }

    /// The raw input of a state that pauses.
    pub fn pausing(&self) -> Option<&Shared>
        ensures { option_map (λ x. x.now) result ≡ pausing_with self.now }
    {
        match self {
            Record::Pausing { input, .. } => Some(input),
            _ => None,
        }
    }

    /// Whether the branch has failed.
    pub fn is_failed(&self) -> bool
        ensures { result ≡ is_failed self.now }
    {
        matches!(self, Record::Failed(_))
    }

    /// Whether the branch has ended with an output.
    pub fn is_done(&self) -> bool
        ensures { result ≡ is_done self.now }
    {
        matches!(self, Record::Done(_))
    }
}
