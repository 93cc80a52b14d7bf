// All faults of a definition.
ghost use Rattle.std.specs.Prelude.{IfOk};
ghost use Rattle.asl_json.specs.View.{data_of};
ghost use Rattle.asl_def_schema.specs.Faults.{claims_of};
ghost use Rattle.asl_lint_faults.specs.Told.{AreTold};

use crate::joining::joined;
use crate::states::{doubled, no_names, states_in};
use crate::walk::check;
use asl_def_judge::spot::Spot;
use asl_def_schema::{Fault, Sort};
use asl_json::Json;
use std::alloc::{AllocError, Global};

/// Every fault of a definition, in document order: each claim on it that is broken, once, and no other. A missing member comes
/// behind the members of its object that are there. Names that a state before has come last.
///
/// The search leaves out what is inside a value of a wrong type, or in a state whose `Type` is missing or unknown. Its cost is
/// the length of the definition, and that of the faults' places. The error is that memory ran out.
pub fn every_fault(alloc: Global, definition: &Json) -> Result<Vec<Fault>, AllocError>
    ensures { IfOk result (λ told. AreTold (claims_of (data_of definition.now)) told.items) }
{
    let names = no_names(alloc);
    let spot = Spot {
        names: &names,
        level: 0,
        ends: true,
        key: "",
        doubled: false,
    };
    let walked = check(alloc, spot, Sort::Definition, definition)?;
    let states = states_in(alloc, Sort::Definition, definition)?;
    let again = doubled(alloc, states)?;
    let told = joined(walked, again)?;
    Ok(told)
}
