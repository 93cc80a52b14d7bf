// Two workflows of one machine.
ghost use Rattle.std.specs.Prelude.{◌≡◌};
ghost use Rattle.std.specs.Option.{option_copied};
ghost use Rattle.toml.specs.View.{view, items_view};
ghost use Rattle.asl_project.specs.Form.{is_of, is_of_machine, is_named_among, has_same_machine};

use crate::members::machine_of;
use toml::Value;

/// Whether a workflow is said to be of this machine.
fn is_of(machine: &str, workflow: &Value) -> bool
    ensures { result ≡ is_of machine.now (view workflow.now) }
{
    match machine_of(workflow) {
        Some(name) => name == machine,
        None => false,
    }
}

/// Whether one of these is.
fn is_named_among(machine: &str, workflows: &[Value]) -> bool
    ensures { result ≡ is_named_among machine.now (items_view workflows.now) }
{
    for workflow in workflows {
        if is_of(machine, workflow) {
            return true;
        }
    }
    false
}

/// Whether one of these is of the machine of a workflow, where that is said.
fn is_of_machine(workflow: &Value, workflows: &[Value]) -> bool
    ensures { result ≡ is_of_machine (view workflow.now) (items_view workflows.now) }
{
    match machine_of(workflow) {
        Some(machine) => is_named_among(machine, workflows),
        None => false,
    }
}

/// Whether two are of one machine.
pub(crate) fn has_same_machine(workflows: &[Value]) -> bool
    ensures { result ≡ has_same_machine (items_view workflows.now) }
{
    for (i, workflow) in workflows.iter().enumerate() {
        if is_of_machine(workflow, &workflows[i + 1..]) {
            return true;
        }
    }
    false
}
