// Faults that are told one behind another.
ghost use Rattle.std.specs.Prelude.{◌≡◌, ◌++◌, IfOk, OnOk, map, option_to_list};
ghost use Rattle.std.specs.Fmt.{decimal};
ghost use Rattle.asl_def_schema.specs.Claims.{step};
ghost use Rattle.asl_def_judge.specs.private.Firsts.{under_step};
ghost use Rattle.asl_lint_faults.specs.private.Parts.{listed};

use asl_def_schema::{Fault, FaultKind};
use std::alloc::{AllocError, Global};

/// Tells a fault behind others, where there is one.
pub(crate) fn add(told: &mut Vec<Fault>, fault: Option<Fault>) -> Result<(), AllocError>
    ensures { OnOk result (told.new.items ≡ told.old.items ++ option_to_list fault) }
{
    if let Some(fault) = fault {
        told.push(fault)?;
    }
    Ok(())
}

/// Tells a fault of the value itself.
pub(crate) fn tell(
    alloc: Global,
    told: &mut Vec<Fault>,
    kind: Option<FaultKind>,
) -> Result<(), AllocError>
    ensures { OnOk result (told.new.items ≡ told.old.items ++ listed kind) }
{
    if let Some(kind) = kind {
        told.push(Fault::here(alloc, kind))?;
    }
    Ok(())
}

/// These faults and those behind them.
pub(crate) fn joined(mut first: Vec<Fault>, mut rest: Vec<Fault>) -> Result<Vec<Fault>, AllocError>
    ensures { IfOk result (λ all. all.items ≡ first.items ++ rest.items) }
{
    first.append(&mut rest)?;
    Ok(first)
}

/// Faults inside a member, as they are seen from the object.
pub(crate) fn under_name(
    alloc: Global,
    faults: Vec<Fault>,
    at: usize,
    name: &str,
) -> Result<Vec<Fault>, AllocError>
    ensures { IfOk result (λ all. all.items ≡ map (under_step (step at name.now)) faults.items) }
{
    let mut all = Vec::new(alloc);
    for fault in faults {
        all.push(fault.under(alloc, at, name)?)?;
    }
    Ok(all)
}

/// Faults inside an item, as they are seen from the list.
pub(crate) fn under_index(
    alloc: Global,
    faults: Vec<Fault>,
    at: usize,
) -> Result<Vec<Fault>, AllocError>
    ensures { IfOk result (λ all. all.items
        ≡ map (under_step (step at (decimal at))) faults.items) }
{
    let mut all = Vec::new(alloc);
    for fault in faults {
        all.push(fault.under_index(alloc, at)?)?;
    }
    Ok(all)
}
