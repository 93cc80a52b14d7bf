// The states that a run entered.
ghost use Rattle.std.specs.Prelude.{◌≡◌, [], map, IfOk, OnOk, string_bytes};
ghost use Rattle.asl_run_formats.specs.Entered.{is_entry, with_name, entered_by, entered, entered_in};

use asl_history::{Event, EventKind};
use indexmap::IndexSet;
use std::alloc::{AllocError, Global};

/// Whether an event of this kind tells that a state was entered.
fn is_entry(kind: EventKind) -> bool
    ensures { result ≡ is_entry kind }
{
    match kind {
        EventKind::PassStateEntered
        | EventKind::TaskStateEntered
        | EventKind::ChoiceStateEntered
        | EventKind::WaitStateEntered
        | EventKind::SucceedStateEntered
        | EventKind::FailStateEntered
        | EventKind::ParallelStateEntered
        | EventKind::MapStateEntered => true,
        _ => false,
    }
}

/// Adds a name behind others, unless it is among them. The error is that memory ran out.
fn add(alloc: Global, names: &mut IndexSet<String>, name: &str) -> Result<(), AllocError>
    ensures { OnOk result (map string_bytes names.new.keys
        ≡ with_name name.now (map string_bytes names.old.keys)) }
{
    if names.contains(name) {
        return Ok(());
    }
    let name = String::from_str(alloc, name)?;
    names.insert(name)?;
    Ok(())
}

/// Adds the name of the state that an event enters. The error is that memory ran out.
fn enter(alloc: Global, names: &mut IndexSet<String>, event: &Event) -> Result<(), AllocError>
    ensures { OnOk result (map string_bytes names.new.keys
        ≡ entered_by (map string_bytes names.old.keys) event.now) }
{
    if is_entry(event.kind) {
        add(alloc, names, event.name.as_str())
    } else {
        Ok(())
    }
}

/// The names of the states that events enter, each once, in the order in which they are entered first. The error is that memory ran out.
pub(crate) fn entered_in(alloc: Global, events: &[Event]) -> Result<IndexSet<String>, AllocError>
    ensures { IfOk result (λ s. map string_bytes s.keys ≡ entered_in events.now) }
{
    let mut names = IndexSet::new(alloc);
    for event in events {
        enter(alloc, &mut names, event)?;
    }
    Ok(names)
}
