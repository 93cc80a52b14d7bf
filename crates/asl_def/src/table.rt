// The states of a whole definition in one table.
ghost use Rattle.std.specs.Prelude.{◌≡◌, ◌∷◌, ◌++◌, [], Some, false, length, slice_get, string_bytes, IfSome, IfNone, OnOk, OnErr, ◌≤◌, option_map};
ghost use Rattle.asl_json_data.specs.Data.{pairs};
ghost use Rattle.asl_json_data.specs.Distinct.{AreDistinct, has_key};
ghost use Rattle.asl_json.specs.Meaning.{value_at};
ghost use Rattle.asl_def.specs.Machines.{number_at};
ghost use Rattle.asl_def_states.specs.Show.{state_of, StateIsWithin};
ghost use Rattle.asl_def.specs.Upgraded.{newer_rows};
ghost use Rattle.asl_def.specs.private.Table.{newer_entries};

use asl_def_states::State;
use indexmap::IndexMap;
use std::alloc::{AllocError, Global};
use std::marker::Model;

/// The states of a definition, by name and by number. A machine inside a state stands before that state, and the states of
/// one machine stand together. Contracts see the list of their names and canonical objects.
pub(crate) struct Table {
    states: IndexMap<String, State>,
}

// Written out, so that a caller's proof sees one call and not the drop of each part.
impl Drop for Table {
    fn drop(self) {
        let Table { states: _states } = self;
    }
}

impl Model for Table {
    ghost use Rattle.std.specs.Prelude.{List, ℕ};
    ghost use Rattle.asl_json_data.specs.Data.{Data};
    ghost use Rattle.asl_json.specs.private.Code.{coded_members};

    ghost Value = { List (List ℕ × Data) };

    ghost coded = { coded_members };

    ghost use Rattle.asl_def.specs.private.Table.{named, IsTable};

    ghost view = { named };

    ghost invariant = { IsTable };
}

/// Each state in the newer spelling, in place.
fn upgrade_all(states: &mut IndexMap<String, State>)
    ensures { states.new.entries ≡ newer_entries states.old.entries }
{
    let count = states.len();
    for number in 0..count {
        let Some(state) = states.get_index_mut(number) else {
            unreachable!();
        };
        state.upgrade();
    }
}

impl Table {
    pub(crate) fn new(alloc: Global) -> Table
        ensures { result ≡ [] }
    {
        Table {
            states: IndexMap::new(alloc),
        }
    }

    pub(crate) fn len(&self) -> usize
        ensures { result ≡ length self.now }
    {
        self.states.len()
    }

    /// The state of this name, by a hash.
    pub(crate) fn state(&self, name: &str) -> Option<&State>
        ensures { option_map (λ s. state_of self.now s.now) result
            ≡ value_at name.now (pairs self.now) }
    {
        self.states.get(name)
    }

    /// The state of this name and its number, by one look-up of a hash.
    pub(crate) fn find(&self, name: &str) -> Option<(usize, &State)>
        ensures number { option_map (λ f. f.0) result ≡ number_at name.now (pairs self.now) }
        ensures state { option_map (λ f. state_of self.now f.1.now) result
            ≡ value_at name.now (pairs self.now) }
    {
        let (number, _, state) = self.states.get_full(name)?;
        Some((number, state))
    }

    /// The state with this number, and its name. Machines inside it have smaller numbers.
    pub(crate) fn at(&self, number: usize) -> Option<(&String, &State)>
        ensures some { IfSome result
            (λ x. slice_get self.now number
            ≡ Some (string_bytes x.0.now, state_of self.now x.1.now)) }
        ensures none { IfNone result (length self.now ≤ number) }
        ensures within { IfSome result (λ x. StateIsWithin number x.1.now) }
    {
        self.states.get_index(number)
    }

    /// No name comes twice.
    pub(crate) fn names_differ(&self)
        ensures { AreDistinct [] self.now }
    {
        let _states = (&self.states).into_iter();
    }

    /// A state goes last. Inner machines stand before it.
    pub(crate) fn push(&mut self, name: String, state: State) -> Result<(), AllocError>
        requires new { has_key (string_bytes name) self.old ≡ false }
        requires within { StateIsWithin (length self.old) state }
        ensures ok { OnOk result (self.new
            ≡ self.old ++ (string_bytes name, state_of self.old state) ∷ []) }
        ensures err { OnErr result (self.new ≡ self.old) }
    {
        drop(self.states.insert(name, state)?);
        Ok(())
    }

    /// Each state in the newer spelling. Takes no memory.
    pub(crate) fn upgrade(&mut self)
        ensures { self.new ≡ newer_rows self.old }
    {
        upgrade_all(&mut self.states);
    }
}
