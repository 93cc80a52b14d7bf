// Tasks that are settled: each invocation does the same once they were invoked so often.
ghost use Rattle.std.specs.Prelude.{◌≡◌, ℕ, List, Some, true, IfOk, IfSome};
ghost use Rattle.asl_def.specs.Machines.{state_number};
ghost use Rattle.asl_run_input.specs.declared.setup.Setup.{Setup};
ghost use Rattle.asl_exec.specs.Probes.{setup_of};
ghost use Rattle.asl_explore.specs.Settled.{AreSettledFrom, IsSettled, IsSettledAt};

use crate::answers::settled_from;
use crate::states::{Stated, states_in};
use asl_def_states::State;
use asl_exec::Probe;
use asl_run_input::Setup;
use asl_step_reads::may_read;
use std::alloc::{AllocError, Global};

/// So many invocations leave room, below the last answer that an execution can ask for, for all that it can have.
const MOST_BEFORE: u32 = 1_665;

/// By the numbers of their states: Tasks that are settled once they were invoked so often; of others none.
#[derive(Drop)]
pub(crate) struct Settling {
    pub(crate) from: Vec<Option<u32>>,
}

impl Settling {
    /// No Task is known to be settled. It takes no memory.
    pub(crate) fn none(alloc: Global) -> Settling
        ensures { (s : Setup) → AreSettledFrom s result.from.items }
    {
        Settling {
            from: Vec::new(alloc),
        }
    }

    /// The Tasks of an execution that are settled some time. The error is that memory ran out.
    pub(crate) fn of(alloc: Global, setup: &Setup) -> Result<Settling, AllocError>
        ensures { IfOk result (λ x. AreSettledFrom setup.now x.from.items) }
    {
        let mut from = vec![in alloc; None; setup.machine.len()]?;
        let states = states_in(alloc, &setup.machine)?;
        for state in &states {
            put_settled(alloc, &mut from, setup, state)?;
        }
        Ok(Settling { from })
    }

    /// Whether the Task of this number is settled once it was invoked so often, and few enough times.
    pub(crate) fn is_settled(&self, number: usize, count: u32) -> bool
        ensures { result ≡ true → (s : Setup) (name : List ℕ) → AreSettledFrom s self.now.from.items
            → state_number name s.machine ≡ Some number → IsSettledAt s name count }
    {
        match self.from.get(number) {
            Some(Some(from)) => *from <= count && count <= MOST_BEFORE,
            _ => false,
        }
    }
}

/// The number of a Task's state, and after how many invocations the Task is settled; none where a text of it may read its token. The error
/// is that memory ran out.
fn settled(alloc: Global, setup: &Setup, name: &str) -> Result<Option<(usize, u32)>, AllocError>
    ensures { IfOk result (λ o. IfSome o (λ x.
        (state_number name.now setup.now.machine ≡ Some x.0) × IsSettled setup.now name.now x.1)) }
{
    let Some((number, State::Task(task))) = setup.machine.find(name) else {
        return Ok(None);
    };
    if may_read(&["Task", "Token"], &task.json(alloc)?) {
        return Ok(None);
    }
    Ok(Some((number, settled_from(&setup.case, name))))
}

/// Notes after how many invocations this state is settled, if it is a Task. The error is that memory ran out.
fn put_settled(
    alloc: Global,
    from: &mut Vec<Option<u32>>,
    setup: &Setup,
    state: &Stated,
) -> Result<(), AllocError>
    ensures { AreSettledFrom setup.now from.old.items → AreSettledFrom setup.now from.new.items }
{
    if let Some((number, count)) = settled(alloc, setup, state.name.as_str())? {
        if number < from.len() {
            from[number] = Some(count);
        }
    }
    Ok(())
}

/// The Tasks of an execution that are settled some time, if quiet steps are to be taken alone. The error is that memory ran out.
pub(crate) fn settling_in(
    alloc: Global,
    probe: &Probe,
    wanted: bool,
) -> Result<Settling, AllocError>
    ensures { IfOk result (λ x. AreSettledFrom (setup_of probe.now) x.from.items) }
{
    if !wanted {
        return Ok(Settling::none(alloc));
    }
    Settling::of(alloc, probe.setup())
}
