// States that are left in the step that enters them.
ghost use Rattle.std.specs.Prelude.{◌≡◌, IfOk, option_map};
ghost use Rattle.asl_def_shared.specs.Parts.{next_shown};
ghost use Rattle.asl_def_shared.specs.Texts.{text_in};
ghost use Rattle.asl_step.specs.Seen.{seen};
ghost use Rattle.asl_step_io.specs.Paths.{Given};
ghost use Rattle.asl_step_io.specs.Gives.{Gives};
ghost use Rattle.asl_kinds.specs.Table.{passed};

use asl_def_shared::Transition;
use asl_history::EventKind;
use asl_json_shared::Shared;
use asl_step::{Effect, Progress, Visit, failing, leaving};
use asl_step_io::Fault;
use std::alloc::{AllocError, Global};

/// The name of the state that comes next; none where the state ends its branch.
pub(crate) fn target(next: &Transition) -> Option<&str>
    ensures { option_map (λ n. n.now) result ≡ text_in (next_shown next.now) }
{
    match next {
        Transition::End => None,
        Transition::To(target) => Some(target.name.as_str()),
    }
}

/// A state that was entered is left with what it gives, or fails with the error that it raises.
pub(crate) fn passed(
    alloc: Global,
    visit: &Visit,
    done: Progress,
    exited: EventKind,
    next: Option<&str>,
    given: Result<Shared, Fault>,
) -> Result<Effect, AllocError>
    ensures { (g : Given) → Gives g given
        → IfOk result
        (λ e. e ≡ passed (seen visit.now) done exited (option_map (λ n. n.now) next.entry) g) }
{
    match given {
        Ok(output) => leaving(alloc, visit, done, exited, next, output),
        Err(Fault::Raised(error)) => failing(alloc, visit, done, error),
        Err(Fault::Memory) => Err(AllocError),
    }
}
