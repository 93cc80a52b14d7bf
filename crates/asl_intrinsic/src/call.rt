// Calls as they were read.

use asl_intrinsic_functions::Function;
use asl_json::{Json, Txt};
use asl_path::RefPath;
use std::marker::Model;

/// An argument of a call.
#[cycle(call)]
#[derive(Drop)]
pub(crate) enum Argument {
    /// A number, null, true or false.
    Constant(Json),
    /// A text between apostrophes, as it is written there.
    Quoted(Txt),
    /// A path into the input or the context.
    Path(RefPath),
    /// Another call, which can also be the whole.
    Call(Function, Arguments),
}

/// The arguments of a call. Contracts see them as the list of their trees.
#[cycle(call)]
#[derive(Drop)]
pub(crate) struct Arguments {
    pub(crate) list: Vec<Argument>,
}

impl Model for Arguments {
    ghost use Rattle.std.specs.Prelude.{List};
    ghost use Rattle.asl_intrinsic.specs.Tree.{Argument, list_size};
    ghost use Rattle.asl_intrinsic.specs.private.Code.{coded_arguments};

    ghost Value = { List Argument };

    ghost coded = { coded_arguments };

    ghost use Rattle.asl_intrinsic.specs.private.View.{trees_of};

    ghost view = { λ a. trees_of a.list.items };

    ghost size = { list_size };

    ghost use Rattle.asl_intrinsic.specs.private.Falls.{arguments_fall};

    ghost size_decreases = { λ a h. arguments_fall a.list.items };
}
