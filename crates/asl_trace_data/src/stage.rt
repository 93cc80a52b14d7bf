// A stage.
ghost use Rattle.std.specs.Prelude.{◌≡◌, ◌++◌, IfOk, OnOk, option_map, Some};
ghost use Rattle.std.specs.Option.{option_copied};
ghost use Rattle.std.specs.Result.{result_ok, result_err};
ghost use Rattle.asl_step_io.specs.Paths.{Given};
ghost use Rattle.asl_step_io.specs.Gives.{Gives};
ghost use Rattle.asl_trace_data.specs.Stages.{one, failing_stage, raised_in};

use crate::part::Part;
use asl_json_shared::Shared;
use asl_step::ErrorOut;
use asl_step_io::Fault;
use std::alloc::AllocError;

/// What a part of a state gives: a value, or the error that the state raises.
#[derive(Drop)]
pub struct Stage {
    pub part: Part,
    pub given: Result<Shared, ErrorOut>,
}

/// Adds a stage, and answers its value; none where it is an error. The error is that memory ran out.
pub(crate) fn add(
    out: &mut Vec<Stage>,
    part: Part,
    given: Result<Shared, Fault>,
) -> Result<Option<Shared>, AllocError>
    ensures stages { (g : Given) → Gives g given
        → OnOk result (out.new.items ≡ out.old.items ++ one part g) }
    ensures value { (g : Given) → Gives g given → IfOk result (λ o. o ≡ result_ok g) }
{
    match given {
        Ok(value) => add_given(out, part, Ok(value)),
        Err(Fault::Raised(error)) => add_given(out, part, Err(error)),
        Err(Fault::Memory) => Err(AllocError),
    }
}

/// The same of what is no want of memory.
pub(crate) fn add_given(
    out: &mut Vec<Stage>,
    part: Part,
    given: Result<Shared, ErrorOut>,
) -> Result<Option<Shared>, AllocError>
    ensures stages { OnOk result (out.new.items ≡ out.old.items ++ one part given) }
    ensures value { IfOk result (λ o. o ≡ result_ok given) }
{
    match given {
        Ok(value) => {
            let next = value.try_clone()?;
            out.push(Stage {
                part,
                given: Ok(value),
            })?;
            Ok(Some(next))
        }
        Err(error) => {
            out.push(Stage {
                part,
                given: Err(error),
            })?;
            Ok(None)
        }
    }
}

/// Adds a stage that raises an error, where there is one. The error is that memory ran out.
pub(crate) fn add_error(
    out: &mut Vec<Stage>,
    part: Part,
    error: Option<ErrorOut>,
) -> Result<(), AllocError>
    ensures { OnOk result (out.new.items ≡ out.old.items ++ failing_stage part error) }
{
    match error {
        Some(error) => {
            out.push(Stage {
                part,
                given: Err(error),
            })?;
            Ok(())
        }
        None => Ok(()),
    }
}

/// Adds a stage that gives a value. The error is that memory ran out.
pub(crate) fn add_value(out: &mut Vec<Stage>, part: Part, value: Shared) -> Result<(), AllocError>
    ensures { OnOk result (out.new.items ≡ out.old.items ++ one part (Ok value)) }
{
    out.push(Stage {
        part,
        given: Ok(value),
    })?;
    Ok(())
}

/// The error that a stage raises, where it does.
fn raised_by(stage: &Stage) -> Option<&ErrorOut>
    ensures { option_map (λ e. e.now) result ≡ result_err stage.now.given }
{
    match &stage.given {
        Ok(_) => None,
        Err(error) => Some(error),
    }
}

/// The error of the first stage that raises one.
pub fn raised_in(stages: &[Stage]) -> Option<&ErrorOut>
    ensures { option_map (λ e. e.now) result ≡ raised_in stages.now }
{
    for stage in stages {
        if let Some(error) = raised_by(stage) {
            return Some(error);
        }
    }
    None
}
