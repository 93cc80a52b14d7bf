// The faults of a value by itself.
ghost use Rattle.std.specs.Prelude.{◌++◌, List, IfOk, OnOk};
ghost use Rattle.asl_json.specs.View.{data_of};
ghost use Rattle.asl_json_data.specs.Data.{chain};
ghost use Rattle.asl_def_judge.specs.private.Spots.{spot_of};
ghost use Rattle.asl_def_schema.specs.Demands.{Demand};
ghost use Rattle.asl_def_schema.specs.Claims.{value_demands, demands, heres};
ghost use Rattle.asl_def_judge.specs.private.Firsts.{Judges};
ghost use Rattle.asl_lint_faults.specs.Told.{AreTold};
ghost use Rattle.asl_lint_faults.specs.private.Parts.{count_demands, last_demands};

use crate::joining::tell;
use asl_def_judge::spot::Spot;
use asl_def_judge::value::{
    form_fault, is_fork, is_last, is_nonempty, number_fault, spot_fault, text_fault, unless,
};
use asl_def_schema::{Fault, FaultKind, Sort};
use asl_json::{Items, Json};
use std::alloc::{AllocError, Global};

/// Whether a list has as many items as it may.
fn count_fault(sort: Sort, items: &Items) -> Option<FaultKind>
    ensures { Judges (count_demands sort (chain items.now)) result }
{
    match sort {
        Sort::Machines => unless(is_fork(items), FaultKind::Range),
        Sort::Rules => unless(is_nonempty(items), FaultKind::Range),
        Sort::InnerRules => unless(is_nonempty(items), FaultKind::Range),
        Sort::ErrorNames => unless(is_nonempty(items), FaultKind::Range),
        _ => None,
    }
}

/// Whether the name that stands for all errors stands where it may.
fn last_fault(spot: Spot, sort: Sort, items: &Items) -> Option<FaultKind>
    ensures { Judges (last_demands (spot_of spot.entry) sort (chain items.now)) result }
{
    match sort {
        Sort::ErrorNames => unless(is_last(spot.ends, items), FaultKind::AllNotLast),
        _ => None,
    }
}

/// Tells, behind the faults so far, those of a value of the right type.
fn tell_value(
    alloc: Global,
    spot: Spot,
    sort: Sort,
    value: &Json,
    told: &mut Vec<Fault>,
) -> Result<(), AllocError>
    ensures { OnOk result ((qs : List Demand) → AreTold (heres qs) told.old.items
        → AreTold (heres (qs ++ value_demands (spot_of spot.entry) sort (data_of value.now)))
        told.new.items) }
{
    match value {
        Json::Text(text) => {
            let fault = text_fault(alloc, spot, sort, text.as_str())?;
            tell(alloc, told, fault)?;
            Ok(())
        }
        Json::Num(number) => {
            tell(alloc, told, number_fault(sort, number))?;
            Ok(())
        }
        Json::List(items) => {
            tell(alloc, told, count_fault(sort, items))?;
            tell(alloc, told, last_fault(spot, sort, items))?;
            Ok(())
        }
        _ => Ok(()),
    }
}

/// The faults of a value by itself.
pub(crate) fn own_faults(
    alloc: Global,
    spot: Spot,
    sort: Sort,
    value: &Json,
) -> Result<Vec<Fault>, AllocError>
    ensures { IfOk result (λ told.
        AreTold (heres (demands (spot_of spot.entry) sort (data_of value.now))) told.items) }
{
    let mut told = Vec::new(alloc);
    tell(alloc, &mut told, unless(!spot.doubled, FaultKind::Both))?;
    tell(alloc, &mut told, spot_fault(spot, sort))?;
    tell(alloc, &mut told, form_fault(sort, value))?;
    tell_value(alloc, spot, sort, value, &mut told)?;
    Ok(told)
}
