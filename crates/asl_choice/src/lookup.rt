// The parts that the paths of rules name.
ghost use Rattle.std.specs.Prelude.{◌≡◌, option_map, if◌then◌else◌};
ghost use Rattle.asl_json.specs.View.{data_of};
ghost use Rattle.asl_intrinsic.specs.Calls.{is_context};
ghost use Rattle.asl_choice.specs.Truth.{part, found};
ghost use Rattle.asl_choice.specs.Seen.{seen};

use crate::fault::RuleFault;
use asl_json::Json;
use asl_path::{RefPath, Root};

/// What a path starts from.
fn root<'v>(path: &RefPath, input: &'v Json, context: &'v Json) -> &'v Json
    ensures { data_of result.now
        ≡ (if is_context path.now then data_of context.now else data_of input.now) }
{
    match path.root() {
        Root::Input => input,
        Root::Context => context,
    }
}

/// The part that a path names, where there is one.
pub(crate) fn part<'v>(path: &RefPath, input: &'v Json, context: &'v Json) -> Option<&'v Json>
    ensures { option_map (λ v. data_of v.now) result
        ≡ part path.now (data_of input.now) (data_of context.now) }
{
    path.get(root(path, input, context))
}

/// The part that a path names.
pub(crate) fn found<'p, 'v>(
    path: &'p RefPath,
    input: &'v Json,
    context: &'v Json,
) -> Result<&'v Json, RuleFault<'p>>
    ensures { seen (λ v. data_of v.now) result
        ≡ found path.now (data_of input.now) (data_of context.now) }
{
    match part(path, input, context) {
        Some(part) => Ok(part),
        None => Err(RuleFault::Missing(path.text())),
    }
}
