// Mock files.
ghost use Rattle.std.specs.Prelude.{◌≡◌, ◌∷◌, [], Ok, Err, IfOk, IfErr, option_map};
ghost use Rattle.asl_mock.specs.Tables.{value_for};
ghost use Rattle.asl_json_data.specs.Data.{Data};
ghost use Rattle.asl_json.specs.View.{data_of};
ghost use Rattle.asl_json_data.specs.Reads.{ReadsAs};
ghost use Rattle.asl_mock.specs.Places.{pointer_text};
ghost use Rattle.asl_mock.specs.Faults.{faults};
ghost use Rattle.asl_mock.specs.Told.{IsMockFile, IsJudged, IsAnswer, case_at};
ghost use Rattle.asl_mock.specs.declared.fault.MockFault.TheVariants.{OutOfMemory};

use crate::bad_key::first_bad_key;
use crate::case::{Case, Cases, machines};
use crate::fault::{CaseFault, MockFault, unread};
use crate::form::misfit;
use crate::place::Place;
use crate::responses::responses;
use crate::shape::Shape;
use crate::table::find;
use asl_json::Json;
use asl_json_read::read;
use asl_json_write::Pointer;
use indexmap::IndexMap;
use std::alloc::{AllocError, Global};
use std::marker::Model;

/// A mock file that was read: the cases of each machine. Contracts see what the file spells.
pub struct Mocks {
    machines: IndexMap<String, Cases>,
}

// Written out, so that a caller's proof sees one call and not the drop of each part.
impl Drop for Mocks {
    fn drop(self) {
        let Mocks {
            machines: _machines,
        } = self;
    }
}

impl Model for Mocks {
    ghost use Rattle.std.specs.Prelude.{List};
    ghost use Rattle.asl_mock.specs.Answers.{Machine};
    ghost use Rattle.asl_mock.specs.Tables.{Named, named};

    ghost Value = { List (Named Machine) };

    ghost use Rattle.std.specs.Coded.{codes};
    ghost use Rattle.asl_json.specs.contracts.value.Json as json;

    ghost coded = { Prim.hlevel (codes, json.the_row.coded) };

    ghost view = { λ a. named a.machines.entries };
}

/// The text of a place under a key. The error is that memory ran out.
fn pointer_below(alloc: Global, key: &str, place: Place) -> Result<Pointer, AllocError>
    ensures { IfOk result (λ p. p ≡ pointer_text (key.now ∷ place)) }
{
    let place = place.under(alloc, key)?;
    place.pointer(alloc)
}

/// What a value spells, or its first fault. The error is that memory ran out.
fn judged(alloc: Global, value: &Json) -> Result<Result<Mocks, MockFault>, AllocError>
    ensures { IfOk result (IsJudged (data_of value.now)) }
{
    if let Some(place) = misfit(alloc, Shape::Top, value)? {
        return Ok(Err(MockFault::Shape(place.pointer(alloc)?)));
    }
    let members = value.members_at("MockedResponses");
    if let Some(place) = first_bad_key(alloc, members)? {
        let place = pointer_below(alloc, "MockedResponses", place)?;
        return Ok(Err(MockFault::Key(place)));
    }
    let table = match responses(alloc, members)? {
        Ok(table) => table,
        Err(place) => {
            let place = pointer_below(alloc, "MockedResponses", place)?;
            return Ok(Err(MockFault::Overlap(place)));
        }
    };
    match machines(alloc, &table, value.members_at("StateMachines"))? {
        Ok(machines) => Ok(Ok(Mocks { machines })),
        Err(place) => {
            let place = pointer_below(alloc, "StateMachines", place)?;
            Ok(Err(MockFault::NoResponse(place)))
        }
    }
}

impl Mocks {
    /// The mock file that bytes spell. (AWS Step Functions, "Mocked service integrations", the file MockConfigFile.json.) Its
    /// cost grows with their length; keys that stand in no order cost moves of the answers behind them besides.
    #[tactic(auto, using(crate::proofs::Judging::found_of, crate::proofs::Judging::only_of, crate::proofs::Judging::fault_of, crate::proofs::Judging::unread_answer, crate::proofs::Judging::unread_only))]
    pub fn read(alloc: Global, bytes: &[u8]) -> Result<Mocks, MockFault>
        // What is read is a file without faults, and holds what it spells.
        ensures found { IfOk result (IsMockFile bytes.now) }
        // Each file without faults is read, unless memory runs out.
        ensures only { (d : Data) → ReadsAs bytes.now d → faults d ≡ []
            → IfErr result (λ e. e ≡ OutOfMemory) }
        // The fault is the first of the lowest number.
        ensures fault { IfErr result (IsAnswer bytes.now) }
    {
        let value = match read(alloc, bytes) {
            Ok(value) => value,
            Err(fault) => return Err(unread(fault)),
        };
        match judged(alloc, &value) {
            Ok(answer) => answer,
            Err(AllocError) => Err(MockFault::OutOfMemory),
        }
    }

    /// The cases of the machine of this name.
    pub(crate) fn cases_of(&self, machine: &str) -> Option<&Cases>
        ensures { option_map (λ m. m.now) result ≡ value_for machine.now self.now }
    {
        find(&self.machines, machine)
    }

    /// The case of these names.
    pub fn case<'a>(&'a self, machine: &str, case: &str) -> Result<&'a Case, CaseFault>
        ensures found { IfOk result (λ c. case_at self.now machine.now case.now ≡ Ok c.now) }
        ensures fault { IfErr result (λ e. case_at self.now machine.now case.now ≡ Err e) }
    {
        let Some(cases) = self.cases_of(machine) else {
            return Err(CaseFault::NoMachine);
        };
        match cases.case(case) {
            Some(case) => Ok(case),
            None => Err(CaseFault::NoCase),
        }
    }
}
