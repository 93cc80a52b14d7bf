// The value of a call.
ghost use Rattle.std.specs.Prelude.{◌≡◌, Ok, option_map, if◌then◌else◌};
ghost use Rattle.asl_json_data.specs.Data.{text};
ghost use Rattle.asl_json.specs.View.{data_of};
ghost use Rattle.asl_path.specs.Paths.{part_at};
ghost use Rattle.asl_intrinsic_functions.specs.Names.{name_of, function_named};
ghost use Rattle.asl_intrinsic_functions.specs.Letters.{meant};
ghost use Rattle.asl_intrinsic_functions.specs.Gives.{Gives};
ghost use Rattle.asl_intrinsic_functions.specs.Seen.{seen, all_seen};
ghost use Rattle.asl_intrinsic.specs.Tree.{arguments};
ghost use Rattle.asl_intrinsic.specs.private.View.{tree_of};
ghost use Rattle.asl_intrinsic.specs.Calls.{apply_named, first_written, is_context, found, value_of, values_of};

use crate::call::{Argument, Arguments};
use asl_intrinsic_functions::{EvalFault, Function, Value, apply, meaning};
use asl_json::{Json, Txt};
use asl_path::{RefPath, Root};
use std::alloc::Global;

/// The function of values, by its name, with the first argument as it is written where it stands between apostrophes.
fn apply_named(
    alloc: Global,
    function: Function,
    written: Option<&str>,
    values: &[Value<'_>],
) -> Result<Json, EvalFault>
    ensures { Gives data_of
        (apply_named (function_named (name_of function)) (option_map (λ t. t.now) written.entry)
        (all_seen values.now)) result }
{
    apply(alloc, function, written, values)
}

/// What a path starts from.
fn root<'a>(path: &RefPath, input: &'a Json, context: &'a Json) -> &'a Json
    ensures { data_of result.now
        ≡ (if is_context path.now then data_of context.now else data_of input.now) }
{
    match path.root() {
        Root::Input => input,
        Root::Context => context,
    }
}

/// The part that a path names.
fn part<'a>(path: &RefPath, input: &'a Json, context: &'a Json) -> Result<Value<'a>, EvalFault>
    ensures { Gives seen (found
        (part_at path.now (if is_context path.now then data_of context.now else data_of input.now)))
        result }
{
    match path.get(root(path, input, context)) {
        Some(part) => Ok(Value::Lent(part)),
        None => Err(EvalFault::PathMissing),
    }
}

/// What a text between apostrophes means.
fn quoted<'a>(alloc: Global, written: &Txt) -> Result<Value<'a>, EvalFault>
    ensures { Gives seen (Ok (text (meant written.now))) result }
{
    Ok(Value::Made(Json::Text(Txt::new(meaning(alloc, written.as_str())?))))
}

impl Arguments {
    /// The first argument as it is written between its apostrophes, where it is such a text.
    fn first_written(&self) -> Option<&str>
        ensures { option_map (λ t. t.now) result ≡ first_written (arguments self.now) }
    {
        match self.list.first() {
            Some(Argument::Quoted(written)) => Some(written.as_str()),
            _ => None,
        }
    }

    /// The values on an input and a context, from the left.
    #[cycle(eval)]
    fn eval<'a>(
        &'a self,
        alloc: Global,
        input: &'a Json,
        context: &'a Json,
    ) -> Result<Vec<Value<'a>>, EvalFault>
        ensures { Gives (λ v. all_seen v.items)
            (values_of (arguments self.now) (data_of input.now) (data_of context.now)) result }
    {
        let mut values = Vec::new(alloc);
        for argument in &self.list {
            values.push(argument.eval(alloc, input, context)?)?;
        }
        Ok(values)
    }
}

impl Argument {
    /// The value on an input and a context.
    #[cycle(eval)]
    pub(crate) fn eval<'a>(
        &'a self,
        alloc: Global,
        input: &'a Json,
        context: &'a Json,
    ) -> Result<Value<'a>, EvalFault>
        ensures { Gives seen (value_of (tree_of self.now) (data_of input.now) (data_of context.now))
            result }
    {
        match self {
            Argument::Constant(value) => Ok(Value::Lent(value)),
            Argument::Quoted(written) => quoted(alloc, written),
            Argument::Path(path) => part(path, input, context),
            Argument::Call(function, arguments) => {
                let values = arguments.eval(alloc, input, context)?;
                let value = apply_named(alloc, *function, arguments.first_written(), &values)?;
                Ok(Value::Made(value))
            }
        }
    }
}
