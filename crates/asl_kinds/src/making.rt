// What several kinds of states make of their raw input, and where a result is placed.
ghost use Rattle.std.specs.Prelude.{◌≡◌, codes, option_map};
ghost use Rattle.asl_json.specs.Meaning.{value_in};
ghost use Rattle.asl_def_fields.specs.Shown.{path_shown};
ghost use Rattle.asl_def_shared.specs.Member.{completion_object};
ghost use Rattle.asl_step.specs.Context.{context_of};
ghost use Rattle.asl_step.specs.Seen.{seen};
ghost use Rattle.asl_step_io.specs.Gives.{Gives};
ghost use Rattle.asl_kinds.specs.Members.{effective_by, placed_by, selected_by};

use asl_def_fields::PathField;
use asl_def_shared::Completion;
use asl_json_shared::Shared;
use asl_step::{Context, Visit};
use asl_step_io::{Fault, filled, put_into, taken};
use asl_template::Template;
use std::alloc::Global;

/// The effective input: what `InputPath` takes, then what `Parameters` makes of it.
pub(crate) fn effective(
    alloc: Global,
    input_path: &PathField,
    parameters: Option<&Template>,
    input: &Shared,
    visit: &Visit,
    context: &mut Context,
) -> Result<Shared, Fault>
    ensures given { Gives (effective_by (path_shown input_path.now)
        (option_map (λ t. t.now) parameters.entry) input.now
        (context_of context.old.facts (seen visit.now))) result }
    ensures facts { context.new.facts ≡ context.old.facts }
{
    let value = taken(alloc, "InputPath", input_path, input, visit, context)?;
    filled(alloc, parameters, value, visit, context)
}

/// A result put into the raw input by `ResultPath`, and what `OutputPath` takes of that.
pub(crate) fn placed(
    alloc: Global,
    result_path: &PathField,
    output_path: &PathField,
    input: &Shared,
    given: Shared,
    visit: &Visit,
    context: &mut Context,
) -> Result<Shared, Fault>
    ensures given { Gives (placed_by (path_shown result_path.now) (path_shown output_path.now)
        input.now (context_of context.old.facts (seen visit.now)) given) result }
    ensures facts { context.new.facts ≡ context.old.facts }
{
    let placed = put_into(alloc, result_path, input, given)?;
    taken(alloc, "OutputPath", output_path, &placed, visit, context)
}

/// What `ResultSelector` makes of a result, and where it is placed.
pub(crate) fn selected(
    alloc: Global,
    completion: &Completion,
    input: &Shared,
    answered: Shared,
    visit: &Visit,
    context: &mut Context,
) -> Result<Shared, Fault>
    ensures given { Gives (selected_by
        (value_in (codes "ResultSelector") (completion_object completion.now))
        (value_in (codes "ResultPath") (completion_object completion.now))
        (value_in (codes "OutputPath") (completion_object completion.now)) input.now
        (context_of context.old.facts (seen visit.now)) answered) result }
    ensures facts { context.new.facts ≡ context.old.facts }
{
    let selected = filled(
        alloc,
        completion.result_selector(),
        answered,
        visit,
        context,
    )?;
    placed(
        alloc,
        completion.result_path(),
        completion.output_path(),
        input,
        selected,
        visit,
        context,
    )
}
