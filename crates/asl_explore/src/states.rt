// The states of a definition, in document order.
ghost use Rattle.std.specs.Prelude.{◌≡◌, ◌++◌, ◌∷◌, [], true, is_some, IfOk, OnOk};
ghost use Rattle.std.specs.List.{All};
ghost use Rattle.asl_def.specs.Machines.{state_number};
ghost use Rattle.asl_explore.specs.States.{AreAllStated, IsStated, names_told};

use asl_def::Machine;
use asl_exec::invokes_in;
use asl_json_shared::Name;
use std::alloc::{AllocError, Global};

/// A state of a definition.
pub struct Stated {
    pub name: Name,
    /// Its number among all states of the definition, counted from 0.
    pub number: usize,
    /// Whether it is a Task.
    pub is_task: bool,
}

// Written out, so that a caller's proof sees one call and not the drop of each part.
impl Drop for Stated {
    fn drop(self) {
        let Stated {
            name: _name,
            number: _number,
            is_task: _is_task,
        } = self;
    }
}

/// Appends the state of a name. The error is that memory ran out.
fn put_state(
    alloc: Global,
    out: &mut Vec<Stated>,
    machine: &Machine,
    name: &str,
) -> Result<(), AllocError>
    requires { is_some (state_number name.now machine.now) ≡ true }
    ensures each { OnOk result (All (IsStated machine.now) out.old.items
        → All (IsStated machine.now) out.new.items) }
    ensures named { OnOk result
        (names_told out.new.items ≡ names_told out.old.items ++ name.now ∷ []) }
{
    let Some((number, state)) = machine.find(name) else {
        unreachable!();
    };
    out.push(Stated {
        name: Name::new(alloc, name)?,
        number,
        is_task: invokes_in(Some(state)),
    })?;
    Ok(())
}

/// The states of a definition, in document order, those of inner machines behind the state that holds them. The error is that memory ran
/// out.
pub(crate) fn states_in(alloc: Global, machine: &Machine) -> Result<Vec<Stated>, AllocError>
    ensures each { IfOk result (λ v. All (IsStated machine.now) v.items) }
    ensures all { IfOk result (λ v. AreAllStated machine.now v.items) }
{
    machine.is_accepted();
    let definition = machine.json(alloc)?;
    let members = asl_def_walk::states_in(alloc, &definition)?;
    let mut states = Vec::new(alloc);
    for member in &members {
        put_state(alloc, &mut states, machine, member.key.as_str())?;
    }
    Ok(states)
}
