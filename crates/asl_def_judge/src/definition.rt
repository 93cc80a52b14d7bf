// The first fault of a definition.
ghost use Rattle.std.specs.Prelude.{IfOk, []};
ghost use Rattle.asl_json.specs.View.{data_of};
ghost use Rattle.asl_def_schema.specs.First.{Answers};
ghost use Rattle.asl_def_schema.specs.Faults.{claims_of};
ghost use Rattle.asl_def_schema.specs.States.{Has, states_in, unique_claims};
ghost use Rattle.asl_def_schema.specs.declared.sort.Sort.TheVariants.{Definition};

use crate::spot::Spot;
use crate::states::with_states;
use crate::walk::{better, check};
use asl_def_schema::{Fault, Sort};
use asl_json::Json;
use std::alloc::{AllocError, Global};
use std::collections::HashSet;

fn no_names(alloc: Global) -> HashSet<String>
    ensures { Has result [] }
{
    HashSet::new(alloc)
}

/// The fault of a name that a state before it has.
fn doubled(alloc: Global, definition: &Json) -> Result<Option<Fault>, AllocError>
    ensures { IfOk result (Answers
        (unique_claims [] (states_in Definition (data_of definition.now)))) }
{
    match with_states(alloc, no_names(alloc), Sort::Definition, definition)? {
        Ok(_) => Ok(None),
        Err(fault) => Ok(Some(fault)),
    }
}

/// The first fault of a definition, and `None` if it has none. It is the fault with the lowest number; of several
/// places the first in document order. A missing member counts as coming after the members of its object that are
/// there; several count in the order of the table.
///
/// The search leaves out what is inside a value of a wrong type, or in a state whose `Type` is missing or unknown. Its
/// cost is the length of the definition. The error is that memory ran out.
pub fn first_fault(alloc: Global, definition: &Json) -> Result<Option<Fault>, AllocError>
    ensures { IfOk result (Answers (claims_of (data_of definition.now))) }
{
    let names = no_names(alloc);
    let spot = Spot {
        names: &names,
        level: 0,
        ends: true,
        key: "",
        doubled: false,
    };
    let walked = check(alloc, spot, Sort::Definition, definition)?;
    let again = doubled(alloc, definition)?;
    Ok(better(walked, again))
}
