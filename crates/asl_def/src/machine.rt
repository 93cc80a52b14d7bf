// A definition, compiled.
ghost use Rattle.std.specs.Prelude.{◌≡◌, ◌↔◌, ◌<◌, Some, codes, length, option_map, slice_get, string_bytes, IfOk, IfErr, IfSome, IsTrue, IsFalse};
ghost use Rattle.std.specs.Arc.{arc_value};
ghost use Rattle.asl_json.specs.View.{data_of};
ghost use Rattle.asl_json_data.specs.Data.{text};
ghost use Rattle.asl_json_data.specs.Compact.{compact};
ghost use Rattle.asl_json.specs.Same.{equal};
ghost use Rattle.asl_json.specs.Meaning.{value_in};
ghost use Rattle.asl_def_schema.specs.Canon.{canonical};
ghost use Rattle.asl_def_schema.specs.Faults.{Accepted};
ghost use Rattle.asl_def_fields.specs.Retries.{whole_in};
ghost use Rattle.asl_def_states.specs.Show.{state_of};
ghost use Rattle.asl_def.specs.Machines.{states_of, state_object, state_number, state_count};
ghost use Rattle.asl_def.specs.Own.{own_states_in};
ghost use Rattle.asl_def.specs.Answer.{IsAnswer};
ghost use Rattle.asl_def.specs.Whole.{shown_by, IsWholeIn};
ghost use Rattle.asl_def.specs.Upgraded.{upgraded};

use crate::build::{object_in, states};
use crate::equal::equals_states;
use crate::fault::{DefFault, answer};
use crate::json::states_json;
use crate::table::Table;
use asl_def_fields::{object, read_optional};
use asl_def_judge::first_fault;
use asl_def_shared::{Body, Heading, Target, and, with_optional};
use asl_def_states::State;
use asl_json::{Json, Txt, every_value_is_sound};
use asl_json_write::write;
use std::alloc::{AllocError, Global};
use std::marker::Model;
use std::sync::Arc;

/// What a definition is compiled to.
pub(crate) struct Parts {
    table: Table,
    heading: Heading,
    root: Body,
}

// Written out, so that a caller's proof sees one call and not the drop of each part.
impl Drop for Parts {
    fn drop(self) {
        let Parts {
            table: _table,
            heading: _heading,
            root: _root,
        } = self;
    }
}

impl Parts {
    /// The same definition in the newer spelling. Takes no memory.
    fn upgrade(&mut self)
        requires { IsWholeIn self.old }
        ensures shown { shown_by self.new ≡ upgraded (shown_by self.old) }
        ensures whole { IsWholeIn self.new }
    {
        self.table.upgrade();
    }
}

/// The same of parts that have one owner. Whether they have: others are left alone.
fn upgrade_alone(shared: &mut Arc<Parts>) -> bool
    requires { IsWholeIn (arc_value shared.old) }
    ensures alone { IsTrue result
        → shown_by (arc_value shared.new) ≡ upgraded (shown_by (arc_value shared.old)) }
    ensures others { IsFalse result → arc_value shared.new ≡ arc_value shared.old }
    ensures whole { IsWholeIn (arc_value shared.new) }
{
    match Arc::get_mut(shared) {
        Some(parts) => {
            parts.upgrade();
            true
        }
        None => false,
    }
}

/// A state machine, compiled from a definition without faults. (Amazon States Language, "Structure of a State Machine".)
/// Contracts see it as its canonical definition: members in the order of the table, and `"End": false` left out. It never
/// changes, so that its copies share one compiled definition.
pub struct Machine {
    shared: Arc<Parts>,
}

impl Drop for Machine {
    fn drop(self) {
        let Machine { shared: _shared } = self;
    }
}

impl Model for Machine {
    ghost use Rattle.asl_json_data.specs.Data.{Data};
    ghost use Rattle.asl_json.specs.private.Code.{coded_data};

    ghost Value = { Data };

    ghost coded = { coded_data };

    ghost use Rattle.std.specs.Arc.{arc_value};
    ghost use Rattle.asl_def.specs.Whole.{shown_by, IsWholeIn};

    ghost view = { λ a. shown_by (arc_value a.shared) };

    ghost invariant = { λ a. IsWholeIn (arc_value a.shared) };
}

/// Whether two definitions show the same.
#[tactic(auto, using(crate::proofs::Alike::machine_alike))]
fn equals_parts(parts: &Parts, others: &Parts) -> bool
    requires whole { IsWholeIn parts.now }
    requires other_whole { IsWholeIn others.now }
    ensures { result ≡ equal (shown_by parts.now) (shown_by others.now) }
{
    parts.root.comment == others.root.comment
        && parts.heading.query_language == others.heading.query_language
        && parts.heading.version == others.heading.version
        && parts.root.start == others.root.start
        && parts.heading.timeout == others.heading.timeout
        && equals_states(
            &parts.table,
            parts.root.first,
            parts.root.count,
            &others.table,
            others.root.first,
            others.root.count,
        )
}

/// Two machines are equal where their canonical definitions are, the spelling of numbers and the order of states included.
/// Takes no memory.
impl PartialEq for Machine {
    ghost use Rattle.asl_json.specs.Same.{equal};
    ghost use Rattle.asl_def.specs.private.EqualLaws.{equal_laws};

    ghost eq = { equal };

    ghost laws = { equal_laws };

    fn eq(&self, other: &Machine) -> bool
        ensures equal { result ≡ equal self.now other.now }
        ensures same { IsTrue result ↔ (self.now ≡ other.now) }
    {
        equals_parts(self.parts(), other.parts())
    }
}

impl Eq for Machine {
    ghost use Rattle.asl_def.specs.private.EqualLaws.{equal_equivalence};

    ghost laws = { equal_equivalence };
}

impl Machine {
    /// The machine of these parts. The error is that memory ran out.
    fn of_parts(alloc: Global, parts: Parts) -> Result<Machine, AllocError>
        requires { IsWholeIn parts }
        ensures { IfOk result (λ m. m ≡ shown_by parts) }
    {
        let shared = Arc::new(alloc, parts)?;
        Ok(Machine { shared })
    }

    /// What its copies share.
    fn parts(&self) -> &Parts
        ensures shown { shown_by result.now ≡ self.now }
        ensures whole { IsWholeIn result.now }
    {
        &self.shared
    }

    /// Its definition has no fault, and is canonical. It does nothing: it is there for what its contract says of every
    /// machine.
    pub fn is_accepted(&self)
        ensures accepted { Accepted self.now }
        ensures stays { canonical self.now ≡ self.now }
    {
        let _parts = self.parts();
    }

    /// The name of the state that a run begins at.
    pub fn start(&self) -> &str
        ensures { Some (text result.now) ≡ value_in (codes "StartAt") self.now }
    {
        self.parts().root.start.name.as_str()
    }

    /// How many seconds an execution may take (`TimeoutSeconds`); `None` where nothing is said.
    pub fn timeout(&self) -> Option<u32>
        ensures { result ≡ whole_in (value_in (codes "TimeoutSeconds") self.now) }
    {
        match &self.parts().heading.timeout {
            Some(seconds) => Some(seconds.value()),
            None => None,
        }
    }

    /// `Comment`.
    pub fn comment(&self) -> Option<&Txt>
        ensures { option_map (λ t. text t.now) result
            ≡ value_in (codes "Comment") self.now }
    {
        self.parts().root.comment.as_ref()
    }

    /// `Version`.
    pub fn version(&self) -> Option<&Txt>
        ensures { option_map (λ t. text t.now) result
            ≡ value_in (codes "Version") self.now }
    {
        self.parts().heading.version.as_ref()
    }

    /// `QueryLanguage`.
    pub fn query_language(&self) -> Option<&Txt>
        ensures { option_map (λ t. text t.now) result
            ≡ value_in (codes "QueryLanguage") self.now }
    {
        self.parts().heading.query_language.as_ref()
    }

    /// The state of this name, in whatever machine it stands, by a hash. Contracts see its object over the states of the
    /// machines inside it.
    pub fn state(&self, name: &str) -> Option<&State>
        ensures { option_map (λ s. state_of (states_of self.now) s.now) result
            ≡ state_object name.now self.now }
    {
        self.parts().table.state(name)
    }

    /// How many states it has, those of the machines inside states among them.
    pub fn len(&self) -> usize
        ensures { result ≡ state_count self.now }
    {
        self.parts().table.len()
    }

    /// The state of this name, in the outermost machine or any inner one, and its number among all states, counted from
    /// 0. One hash finds both.
    pub fn find(&self, name: &str) -> Option<(usize, &State)>
        ensures number { option_map (λ f. f.0) result ≡ state_number name.now self.now }
        ensures within { IfSome result (λ f. f.0 < state_count self.now) }
        ensures object { option_map (λ f. state_of (states_of self.now) f.1.now) result
            ≡ state_object name.now self.now }
    {
        self.parts().table.find(name)
    }

    /// How many states the outermost machine has: those that stand in its own `States`.
    pub fn own_len(&self) -> usize
        ensures { result ≡ length (own_states_in self.now) }
    {
        self.parts().root.count
    }

    /// The name of the state with this number, and the state, among those of the outermost machine, counted from 0 in
    /// document order. Contracts see its object over the states of the machines inside it.
    pub fn own_state(&self, number: usize) -> Option<(&str, &State)>
        ensures { option_map (λ x. (x.0.now, state_of (states_of self.now) x.1.now)) result
            ≡ slice_get (own_states_in self.now) number }
    {
        let parts = self.parts();
        if number >= parts.root.count {
            return None;
        }
        let _states = parts.table.len();
        let (name, state) = parts.table.at(parts.root.first + number)?;
        Some((name.as_str(), state))
    }

    /// Its canonical definition as JSON. Its cost is that definition's length. The error is that memory ran out.
    pub fn json(&self, alloc: Global) -> Result<Json, AllocError>
        ensures { IfOk result (λ j. data_of j ≡ self.now) }
    {
        let parts = self.parts();
        let own = with_optional(alloc, Vec::new(alloc), "Comment", &parts.root.comment)?;
        let own = with_optional(alloc, own, "QueryLanguage", &parts.heading.query_language)?;
        let own = with_optional(alloc, own, "Version", &parts.heading.version)?;
        let start = parts.root.start.json(alloc)?;
        let own = and(own, "StartAt", Some(start))?;
        let own = with_optional(alloc, own, "TimeoutSeconds", &parts.heading.timeout)?;
        let states = states_json(alloc, &parts.table, parts.root.first, parts.root.count)?;
        let own = and(own, "States", Some(Json::Dict(states)))?;
        object(alloc, own)
    }

    /// The machine in the newer spelling of Map states: `Iterator` is `ItemProcessor`, and their `Parameters` are
    /// `ItemSelector`. It is changed in place, and takes no memory, where no copy shares its compiled definition; else that is
    /// compiled once more. The error is that memory ran out.
    pub fn upgrade(mut self, alloc: Global) -> Result<Machine, AllocError>
        ensures { IfOk result (λ m. m ≡ upgraded self) }
    {
        if upgrade_alone(&mut self.shared) {
            return Ok(self);
        }
        self.is_accepted();
        let definition = self.json(alloc)?;
        let mut parts = compiled(alloc, &definition)?;
        parts.upgrade();
        Machine::of_parts(alloc, parts)
    }

    /// One more owner of the same machine. It copies no state. The error is that there are too many.
    pub fn try_clone(&self) -> Result<Machine, AllocError>
        ensures { IfOk result (λ m. m ≡ self.now) }
    {
        let shared = Arc::try_clone(&self.shared)?;
        Ok(Machine { shared })
    }
}

/// What a definition without faults is compiled to.
fn compiled(alloc: Global, definition: &Json) -> Result<Parts, AllocError>
    requires { Accepted (data_of definition.now) }
    ensures shown { IfOk result (λ p. shown_by p ≡ canonical (data_of definition.now)) }
    ensures whole { IfOk result (λ p. IsWholeIn p) }
{
    every_value_is_sound(definition);
    let members = object_in(definition);
    let heading = Heading::read(alloc, members)?;
    let comment = read_optional(alloc, members.find("Comment"))?;
    let start = Target::read(alloc, members.find("StartAt"))?;
    let Some(own) = members.find("States") else {
        unreachable!();
    };
    let mut table = Table::new(alloc);
    let span = states(alloc, &mut table, object_in(own))?;
    let root = Body {
        comment,
        start,
        first: span.first,
        count: span.count,
    };
    Ok(Parts {
        table,
        heading,
        root,
    })
}

/// The machine of a definition without faults.
fn build(alloc: Global, definition: &Json) -> Result<Machine, AllocError>
    requires { Accepted (data_of definition.now) }
    ensures { IfOk result (λ m. m ≡ canonical (data_of definition.now)) }
{
    let parts = compiled(alloc, definition)?;
    Machine::of_parts(alloc, parts)
}

/// Makes the machine of a definition, exactly if the definition has no fault, unless memory runs out.
///
/// Of several faults the answer is the one with the lowest number, and of its places the first in document order. A
/// missing member counts as coming after the members of its object that are there; several count in the order of the
/// table. The search leaves out what is inside a value of a wrong type, or in a state whose `Type` is missing or
/// unknown. Its cost is the length of the definition.
pub fn parse(alloc: Global, definition: &Json) -> Result<Machine, DefFault>
    // The machine is the definition in canonical form.
    ensures found { IfOk result (λ m. m ≡ canonical (data_of definition.now)) }
    // A definition with a fault is never accepted,
    ensures accepted { IfOk result (λ _. Accepted (data_of definition.now)) }
    // and one without a fault is, unless memory runs out.
    ensures only { Accepted (data_of definition.now)
        → IfErr result (λ e. e ≡ DefFault.OutOfMemory) }
    // What is answered is a fault of the definition, and no other fault comes before it.
    ensures fault { IfErr result (λ e. IsAnswer (data_of definition.now) e) }
{
    match first_fault(alloc, definition)? {
        Some(fault) => Err(answer(alloc, &fault)),
        None => Ok(build(alloc, definition)?),
    }
}

/// The compact text of a machine's canonical definition: no spaces, members in the order of the table, states in document
/// order. Its cost is the length of that text. The error is that memory ran out.
pub fn print(alloc: Global, machine: &Machine) -> Result<String, AllocError>
    ensures { IfOk result (λ t. string_bytes t ≡ compact machine.now) }
{
    write(alloc, &machine.json(alloc)?)
}
