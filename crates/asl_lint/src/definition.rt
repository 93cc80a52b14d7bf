// What is found in a definition.
ghost use Rattle.std.specs.Prelude.{◌≡◌, ◌++◌, IfOk, OnOk, map, reverse};
ghost use Rattle.asl_json.specs.View.{data_of};
ghost use Rattle.asl_lint_warnings.specs.Warnings.{warnings_of};
ghost use Rattle.asl_lint.specs.Findings.{numbers, of_fault, of_warning, is_of_ways, is_kept, is_faulty, told_of, warnings_told, AreFound};
ghost use Rattle.asl_lint.specs.private.Founds.{noted};

use crate::finding::Found;
use crate::noting::told_at;
use crate::rule::Rule;
use asl_def_schema::{Fault, FaultKind, Step};
use asl_json::Json;
use asl_lint_faults::every_fault;
use asl_lint_messages::{EFFORT, Places, States, put_fault, put_warning};
use asl_lint_warnings::{Warning, WarningKind, every_warning};
use std::alloc::{AllocError, Global};

/// The numbers of these steps, from the last to the first.
fn place_of(alloc: Global, steps: &[Step]) -> Result<Vec<usize>, AllocError>
    ensures { IfOk result (λ place. place.items ≡ numbers (reverse steps.now)) }
{
    let mut place = Vec::with_capacity(alloc, steps.len())?;
    for step in steps {
        place.push(step.at)?;
    }
    place.reverse();
    Ok(place)
}

/// Whether two faults are of one kind at one place.
fn are_alike(a: &Fault, b: &Fault) -> bool {
    let (left, right) = (a.steps_back(), b.steps_back());
    a.kind() == b.kind()
        && left.len() == right.len()
        && left
            .iter()
            .zip(right.iter())
            .all(|(step, other)| step.at == other.at)
}

/// How many of the last of these are like a fault.
fn number_of(before: &[Fault], fault: &Fault) -> usize {
    let mut number: usize = 0;
    for other in before.iter().rev() {
        if !are_alike(other, fault) {
            return number;
        }
        number = number.saturating_add(1);
    }
    number
}

fn found_of<'a>(
    alloc: Global,
    places: &mut Places<'a>,
    states: &States<'_>,
    fault: &'a Fault,
    number: usize,
    effort: &mut usize,
) -> Result<Found, AllocError>
    ensures { IfOk result (λ f. noted f ≡ of_fault fault.now) }
{
    let steps = fault.steps_back();
    places.go(alloc, steps)?;
    let standing = places.standing();
    let mut message = String::new(alloc);
    put_fault(
        alloc,
        &mut message,
        fault.kind(),
        &standing,
        number,
        states,
        effort,
    )?;
    let rule = Rule::Fault(fault.kind());
    let place = place_of(alloc, steps)?;
    told_at(rule, place, message)
}

/// Whether a warning is of the way through the states, which the faults of a definition may break.
fn is_of_ways(kind: WarningKind) -> bool
    ensures { result ≡ is_of_ways kind }
{
    matches!(kind, WarningKind::UnreachableState | WarningKind::NoEnd)
}

/// Whether a warning is told of a definition with faults or without.
fn is_kept(is_faulty: bool, warning: &Warning) -> bool
    ensures { result ≡ is_kept is_faulty warning.now }
{
    !(is_faulty && is_of_ways(warning.kind()))
}

fn found_of_warning<'a>(
    alloc: Global,
    places: &mut Places<'a>,
    warning: &'a Warning,
    effort: &mut usize,
) -> Result<Found, AllocError>
    ensures { IfOk result (λ f. noted f ≡ of_warning warning.now) }
{
    let steps = warning.steps_back();
    places.go(alloc, steps)?;
    let standing = places.standing();
    let mut message = String::new(alloc);
    put_warning(alloc, &mut message, warning.kind(), &standing, effort)?;
    let rule = Rule::Warning(warning.kind());
    let place = place_of(alloc, steps)?;
    told_at(rule, place, message)
}

/// Adds a warning, where it is told.
fn add_warning<'a>(
    alloc: Global,
    places: &mut Places<'a>,
    is_faulty: bool,
    warning: &'a Warning,
    found: &mut Vec<Found>,
    effort: &mut usize,
) -> Result<(), AllocError>
    ensures { OnOk result (map noted found.new.items
        ≡ map noted found.old.items ++ told_of (is_kept is_faulty warning.now) warning.now) }
{
    if is_kept(is_faulty, warning) {
        found.push(found_of_warning(alloc, places, warning, effort)?)?;
    }
    Ok(())
}

/// Adds each of these warnings that is told.
fn add_each(
    alloc: Global,
    definition: &Json,
    is_faulty: bool,
    warnings: &[Warning],
    found: &mut Vec<Found>,
    effort: &mut usize,
) -> Result<(), AllocError>
    ensures { OnOk result (map noted found.new.items
        ≡ map noted found.old.items ++ warnings_told is_faulty warnings.now) }
{
    let mut places = Places::of(alloc, definition)?;
    for warning in warnings {
        add_warning(alloc, &mut places, is_faulty, warning, found, effort)?;
    }
    Ok(())
}

/// Adds the warnings. Of a definition with faults none of the way through its states: the faults may be why.
fn add_warnings(
    alloc: Global,
    definition: &Json,
    is_faulty: bool,
    found: &mut Vec<Found>,
    effort: &mut usize,
) -> Result<(), AllocError>
    ensures { OnOk result (map noted found.new.items ≡ map noted found.old.items
        ++ warnings_told is_faulty (warnings_of (data_of definition.now))) }
{
    let warnings = every_warning(alloc, definition)?;
    add_each(alloc, definition, is_faulty, &warnings, found, effort)?;
    Ok(())
}

/// What is found of these faults.
fn found_faults(
    alloc: Global,
    definition: &Json,
    states: &States<'_>,
    faults: &[Fault],
    effort: &mut usize,
) -> Result<Vec<Found>, AllocError>
    ensures { IfOk result (λ found. map noted found.items ≡ map of_fault faults.now) }
{
    let mut found = Vec::with_capacity(alloc, faults.len())?;
    let mut places = Places::of(alloc, definition)?;
    for (i, fault) in faults.iter().enumerate() {
        let number = number_of(&faults[..i], fault);
        found.push(found_of(alloc, &mut places, states, fault, number, effort)?)?;
    }
    Ok(found)
}

fn is_faulty(faults: &[Fault]) -> bool
    ensures { result ≡ is_faulty faults.now }
{
    match faults {
        [] => false,
        _ => true,
    }
}

/// What is found in a definition with these states: each of its faults, and its warnings. The error is that memory ran out.
pub(crate) fn found_in(
    alloc: Global,
    definition: &Json,
    states: &States<'_>,
) -> Result<Vec<Found>, AllocError>
    ensures { IfOk result (λ found. AreFound (data_of definition.now) (map noted found.items)) }
{
    let faults = every_fault(alloc, definition)?;
    let mut effort = EFFORT;
    let mut found = found_faults(alloc, definition, states, &faults, &mut effort)?;
    add_warnings(
        alloc,
        definition,
        is_faulty(&faults),
        &mut found,
        &mut effort,
    )?;
    Ok(found)
}
