// The judge of a definition's text.
ghost use Rattle.std.specs.Prelude.{◌≡◌, IfOk, IfErr};
ghost use Rattle.asl_json_data.specs.Data.{Data};
ghost use Rattle.asl_json.specs.View.{data_of};
ghost use Rattle.asl_json_data.specs.Reads.{ReadsAs};
ghost use Rattle.asl_def_schema.specs.Faults.{Accepted};
ghost use Rattle.asl_def_schema.specs.Canon.{canonical};
ghost use Rattle.asl_check.specs.Judged.{IsDefinition, IsMachineOf, IsFaultOf, IsUnread, IsFaulty};

use crate::fault::Fault;
use asl_def::{DefFault, Machine, parse};
use asl_json::Json;
use asl_json_read::{JsonFault, read};
use std::alloc::Global;

/// The value that a text spells.
fn value_of(alloc: Global, text: &[u8]) -> Result<Json, Fault>
    ensures found { IfOk result (λ v. ReadsAs text.now (data_of v)) }
    ensures one { IfOk result (λ v. (d : Data) → ReadsAs text.now d → data_of v ≡ d) }
    ensures only { (d : Data) → ReadsAs text.now d → IfErr result (λ e. e ≡ Fault.OutOfMemory) }
    ensures fault { IfErr result (IsUnread text.now) }
{
    match read(alloc, text) {
        Ok(value) => Ok(value),
        Err(JsonFault::OutOfMemory) => Err(Fault::OutOfMemory),
        Err(fault) => Err(Fault::Json(fault)),
    }
}

/// The machine of a definition.
fn machine_of(alloc: Global, definition: &Json) -> Result<Machine, Fault>
    ensures found { IfOk result (λ m. m ≡ canonical (data_of definition.now)) }
    ensures accepted { IfOk result (λ _. Accepted (data_of definition.now)) }
    ensures only { Accepted (data_of definition.now) → IfErr result (λ e. e ≡ Fault.OutOfMemory) }
    ensures fault { IfErr result (IsFaulty (data_of definition.now)) }
{
    match parse(alloc, definition) {
        Ok(machine) => Ok(machine),
        Err(DefFault::OutOfMemory) => Err(Fault::OutOfMemory),
        Err(DefFault::Refused(kind, place)) => Err(Fault::Definition(kind, place)),
    }
}

/// Makes the machine of a definition's text.
///
/// If the text isn't a JSON text, the answer is the first fault of that text. Of several faults of a value the answer
/// is the one with the lowest number, and of its places the first in document order. A missing member counts as coming
/// after the members of its object that are there; several count in the order of the table of members. The search
/// leaves out what is inside a value of a wrong type, or in a state whose `Type` is missing or unknown. The cost is the
/// length of the text.
pub fn accept(alloc: Global, text: &[u8]) -> Result<Machine, Fault>
    // The machine is the definition in canonical form.
    ensures found { IfOk result (IsMachineOf text.now) }
    // Each definition is accepted, unless memory runs out.
    ensures only { IsDefinition text.now → IfErr result (λ e. e ≡ Fault.OutOfMemory) }
    // The fault is the first of the text, or of its value.
    ensures fault { IfErr result (IsFaultOf text.now) }
{
    let definition = value_of(alloc, text)?;
    machine_of(alloc, &definition)
}
