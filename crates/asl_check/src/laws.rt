// Laws of what is accepted and of what is printed for it.
ghost use Rattle.asl_check.specs.Laws.{PrintedIsAccepted, PrintedIsNoLonger, FittingIsAccepted, MachineIsAccepted, OneMachine};
ghost use Rattle.asl_json.specs.View.{data_of};
ghost use Rattle.asl_json_data.specs.Compact.{compact};
ghost use Rattle.std.specs.Prelude.{◌≡◌, IfOk, string_bytes};

use asl_def::Machine;
use asl_json::{Json, every_value_is_sound};
use asl_json_write::write;
use std::alloc::{AllocError, Global};

/// What is printed for a machine is accepted as that machine, over all texts. The laws have no code.
pub fn what_is_printed_is_accepted()
    // Where a text is accepted as a machine, what is printed for that machine is accepted as the same machine,
    ensures printed { PrintedIsAccepted }
    // and isn't longer than the text.
    ensures no_longer { PrintedIsNoLonger }
    // A text is accepted as one machine.
    ensures one { OneMachine }
{}

/// What is printed for a definition without faults is accepted, also if the value wasn't read from a text, as long as
/// the printed text is no longer and no deeper than a text may be. The law computes nothing.
pub fn what_is_printed_of_a_value_is_accepted(value: &Json)
    ensures { FittingIsAccepted (data_of value.now) }
{
    every_value_is_sound(value);
}

/// The text of a machine, which is accepted as that machine wherever the machine came from, as long as it is no longer and no deeper
/// than a text may be. The error is that memory ran out.
pub fn print_of(alloc: Global, machine: &Machine) -> Result<String, AllocError>
    ensures text { IfOk result (λ t. string_bytes t ≡ compact machine.now) }
    ensures accepted { IfOk result (λ _. MachineIsAccepted machine.now) }
{
    let value = machine.json(alloc)?;
    every_value_is_sound(&value);
    machine.is_accepted();
    write(alloc, &value)
}
