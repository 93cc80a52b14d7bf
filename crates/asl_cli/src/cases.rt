// The test cases of a mock file.
ghost use Rattle.std.specs.Prelude.{◌≡◌, ◌++◌, IfOk, OnOk, option_map};
ghost use Rattle.asl_json.specs.View.{data_of};
ghost use Rattle.asl_cli.specs.Cases.{alone, cases_in, cases_or_alone, chosen_case, of_machine, of_machines, is_wanted, machine_cases, IsChoice};

use asl_json::{Json, Txt};
use asl_json_read::{JsonFault, read};
use std::alloc::{AllocError, Global};

/// A machine and a case, as they are chosen. The error is that memory ran out.
fn chosen_case(alloc: Global, machine: &str, case: &str) -> Result<Txt, AllocError>
    ensures { IfOk result (λ t. t ≡ chosen_case machine.now case.now) }
{
    let mut chosen = String::from_str(alloc, machine)?;
    chosen.push('#')?;
    chosen.push_str(case)?;
    Ok(Txt::new(chosen))
}

/// Adds each case of a machine. The error is that memory ran out.
fn add_cases(
    alloc: Global,
    out: &mut Vec<Txt>,
    machine: &str,
    cases: &Json,
) -> Result<(), AllocError>
    ensures { OnOk result (out.new.items ≡ out.old.items ++ machine_cases machine.now (data_of cases.now)) }
{
    for case in cases.members() {
        out.push(chosen_case(alloc, machine, case.key.as_str())?)?;
    }
    Ok(())
}

/// Whether a machine is the one that is wanted, or any is.
fn is_wanted(wanted: Option<&str>, machine: &str) -> bool
    ensures { result ≡ is_wanted (option_map (λ w. w.now) wanted.entry) machine.now }
{
    match wanted {
        Some(name) => name == machine,
        None => true,
    }
}

/// Adds each case of a machine, if it is wanted. The error is that memory ran out.
fn add_machine(
    alloc: Global,
    out: &mut Vec<Txt>,
    wanted: Option<&str>,
    machine: &str,
    value: &Json,
) -> Result<(), AllocError>
    ensures { OnOk result (out.new.items ≡ out.old.items
        ++ of_machine (option_map (λ w. w.now) wanted.entry) machine.now (data_of value.now)) }
{
    if !is_wanted(wanted, machine) {
        return Ok(());
    }
    match value.get("TestCases") {
        Some(cases) => add_cases(alloc, out, machine, cases),
        None => Ok(()),
    }
}

/// Adds each case of each machine that is wanted. The error is that memory ran out.
fn add_machines(
    alloc: Global,
    out: &mut Vec<Txt>,
    wanted: Option<&str>,
    machines: &Json,
) -> Result<(), AllocError>
    ensures { OnOk result (out.new.items ≡ out.old.items
        ++ of_machines (option_map (λ w. w.now) wanted.entry) (data_of machines.now)) }
{
    for machine in machines.members() {
        add_machine(alloc, out, wanted, machine.key.as_str(), &machine.value)?;
    }
    Ok(())
}

/// Each case of each machine of a mock file that is wanted. The error is that memory ran out.
fn cases_in(alloc: Global, wanted: Option<&str>, mocks: &Json) -> Result<Vec<Txt>, AllocError>
    ensures { IfOk result (λ v. v.items ≡ cases_in (option_map (λ w. w.now) wanted.entry) (data_of mocks.now)) }
{
    let mut cases = Vec::new(alloc);
    if let Some(machines) = mocks.get("StateMachines") {
        add_machines(alloc, &mut cases, wanted, machines)?;
    }
    Ok(cases)
}

/// The machine that is wanted, and none of its cases. The error is that memory ran out.
pub(crate) fn alone(alloc: Global, wanted: Option<&str>) -> Result<Vec<Txt>, AllocError>
    ensures { IfOk result (λ v. v.items ≡ alone (option_map (λ w. w.now) wanted.entry)) }
{
    let mut one = Vec::new(alloc);
    match wanted {
        Some(name) => one.push(Txt::of(alloc, name)?)?,
        None => one.push(Txt::of(alloc, "")?)?,
    }
    Ok(one)
}

/// The same; the machine alone where there is no case.
fn cases_or_alone(alloc: Global, wanted: Option<&str>, mocks: &Json) -> Result<Vec<Txt>, AllocError>
    ensures { IfOk result (λ v. v.items
        ≡ cases_or_alone (option_map (λ w. w.now) wanted.entry) (cases_in (option_map (λ w. w.now) wanted.entry) (data_of mocks.now))) }
{
    let cases = cases_in(alloc, wanted, mocks)?;
    if cases.is_empty() {
        return alone(alloc, wanted);
    }
    Ok(cases)
}

/// What is chosen of the text of a mock file, one after another: each case of the machine that is wanted, or of each one; the machine alone where there is no
/// case, or the text is no JSON. The error is that memory ran out.
pub(crate) fn choices_in(
    alloc: Global,
    wanted: Option<&str>,
    mocks: &[u8],
) -> Result<Vec<Txt>, AllocError>
    ensures { IfOk result (λ v. IsChoice (option_map (λ w. w.now) wanted.entry) mocks.now v.items) }
{
    match read(alloc, mocks) {
        Ok(value) => cases_or_alone(alloc, wanted, &value),
        Err(JsonFault::OutOfMemory) => Err(AllocError),
        Err(_) => alone(alloc, wanted),
    }
}
