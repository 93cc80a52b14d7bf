// Open calls, and what is kept of their arguments.
ghost use Rattle.std.specs.Prelude.{◌≡◌, ◌+◌, min, suc, ◌++◌, ◌∷◌, [], IfOk, IfErr};
ghost use Rattle.asl_intrinsic.specs.Tree.{Argument as Tree, call, arguments, Frame};
ghost use Rattle.asl_intrinsic.specs.private.Keeps.{Keeps, KeepsOne};
ghost use Rattle.std.specs.Prelude.{ℕ, List};
ghost use Rattle.asl_intrinsic.specs.declared.front.Halt.{Halt};

use crate::call::{Argument, Arguments};
use crate::front::Halt;
use asl_intrinsic_functions::Function;
use std::alloc::Global;

/// How many calls may stand in one another.
const MAX_CALLS: usize = 10;

/// How far arguments are counted: no function takes as many, unless it takes more too.
const MANY: usize = 4;

/// What is wrong with a call.
#[derive(Clone, Copy)]
pub(crate) enum Wrong<'a> {
    Unknown(&'a str),
    Depth,
    Arity,
}

/// A call whose closing bracket isn't read yet. Its arguments are kept as long as nothing is wrong with them.
#[derive(Drop)]
pub(crate) struct Open<'a> {
    name: &'a str,
    count: usize,
    arguments: Vec<Argument>,
    /// What is wrong first with the calls among the arguments.
    wrong: Option<Wrong<'a>>,
}

/// One more, counted as far as `MANY`.
fn more(count: usize) -> usize
    ensures { result ≡ min (count + 1) 4 }
{
    if count < MANY { count + 1 } else { MANY }
}

impl<'a> Open<'a> {
    /// A call without arguments yet.
    pub(crate) fn new(alloc: Global, name: &'a str) -> Open<'a>
        ensures { (level : ℕ) → Keeps level result (name.now, []) }
    {
        Open {
            name,
            count: 0,
            arguments: Vec::new(alloc),
            wrong: None,
        }
    }

    /// The call with one argument more.
    pub(crate) fn with(self, argument: Result<Argument, Wrong<'a>>) -> Result<Open<'a>, Halt>
        ensures keeps { (level : ℕ) (f : Frame) (a : Tree) → Keeps level self.entry f
            → KeepsOne (suc level) argument.entry a
            → IfOk result (λ o. Keeps level o (f.0, f.1 ++ a ∷ [])) }
        ensures memory { IfErr result (λ e. e ≡ Halt.Memory) }
    {
        let Open {
            name,
            count,
            mut arguments,
            wrong,
        } = self;
        let count = more(count);
        if let Some(first) = wrong {
            return Ok(Open {
                name,
                count,
                arguments,
                wrong: Some(first),
            });
        }
        match argument {
            Ok(argument) => {
                arguments.push(argument)?;
                Ok(Open {
                    name,
                    count,
                    arguments,
                    wrong: None,
                })
            }
            Err(wrong) => Ok(Open {
                name,
                count,
                arguments,
                wrong: Some(wrong),
            }),
        }
    }

    /// The call as an argument, which stands in so many calls with itself.
    pub(crate) fn closed(self, level: usize) -> Result<Argument, Wrong<'a>>
        ensures { (f : Frame) → Keeps level self.entry f
            → KeepsOne level result (call f.0 (arguments f.1)) }
    {
        let Open {
            name,
            count,
            arguments,
            wrong,
        } = self;
        if level > MAX_CALLS {
            return Err(Wrong::Depth);
        }
        let Some(function) = Function::named(name) else {
            return Err(Wrong::Unknown(name));
        };
        if !function.takes(count) {
            return Err(Wrong::Arity);
        }
        if let Some(wrong) = wrong {
            return Err(wrong);
        }
        Ok(Argument::Call(function, Arguments { list: arguments }))
    }
}
