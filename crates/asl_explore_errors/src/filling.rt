// An answer to each Task.
ghost use Rattle.std.specs.Prelude.{◌≡◌, true, is_none, IfOk, IfSome};
ghost use Rattle.asl_mock.specs.Told.{IsMockFile};
ghost use Rattle.asl_explore_errors.specs.Filling.{IsCompleted, IsFilled, IsNoMockFile, IsSampled};

use crate::under::with_case;
use asl_mock::{Case, MockFault, Mocks};
use asl_mock_sample::sample;
use asl_run_input::Setup;
use std::alloc::{AllocError, Global};

/// The mock file of a text; none where it isn't the text of one. The error is that memory ran out.
fn read(alloc: Global, text: &[u8]) -> Result<Option<Mocks>, AllocError>
    ensures read { IfOk result (λ o. IfSome o (IsMockFile text.now)) }
    ensures none { IfOk result (λ o. is_none o ≡ true → IsNoMockFile text.now) }
{
    match Mocks::read(alloc, text) {
        Ok(mocks) => Ok(Some(mocks)),
        Err(MockFault::OutOfMemory) => Err(AllocError),
        Err(_) => Ok(None),
    }
}

/// The execution's case; a Task that it doesn't name is answered by the first case of the machine in this mock file that names it. The error is that
/// memory ran out.
fn completed(alloc: Global, setup: &Setup, mocks: &[u8]) -> Result<Case, AllocError>
    ensures { IfOk result (IsCompleted mocks.now setup.now) }
{
    match read(alloc, mocks)? {
        Some(mocks) => { mocks.completed_case(alloc, setup.name_of_machine.as_str(), &setup.case) }
        None => setup.case.try_clone(),
    }
}

/// A case of the execution's machine; each Task that it doesn't name is answered as in a mock file to begin with, in which all goes well. The error is
/// that memory ran out.
fn sampled(alloc: Global, setup: &Setup, own: &Case) -> Result<Case, AllocError>
    ensures { IfOk result (IsSampled setup.now own.now) }
{
    let definition = setup.machine.json(alloc)?;
    let machine = setup.name_of_machine.as_str();
    let text = sample(alloc, machine, &definition)?;
    match read(alloc, text.as_bytes())? {
        None => own.try_clone(),
        Some(mocks) => match mocks.case(machine, "good") {
            Ok(good) => own.merged_with(alloc, good),
            Err(_) => own.try_clone(),
        },
    }
}

/// The execution with an answer to each Task: one that its case doesn't name is answered by the first case of the machine in this mock file that names
/// it, or else as in a mock file to begin with, in which all goes well. The error is that memory ran out.
pub fn filled_setup(alloc: Global, setup: &Setup, mocks: &[u8]) -> Result<Setup, AllocError>
    ensures { IfOk result (IsFilled mocks.now setup.now) }
{
    let own = completed(alloc, setup, mocks)?;
    let case = sampled(alloc, setup, &own)?;
    with_case(alloc, setup, case)
}
