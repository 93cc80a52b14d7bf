// Calls that were read.
ghost use Rattle.std.specs.Prelude.{◌≡◌, IfOk, IfErr};
ghost use Rattle.asl_intrinsic.specs.private.Steps.{heard};
ghost use Rattle.asl_json.specs.View.{data_of};
ghost use Rattle.asl_intrinsic_functions.specs.Gives.{Gives};
ghost use Rattle.asl_intrinsic.specs.Tree.{Argument as Tree};
ghost use Rattle.asl_intrinsic.specs.Grammar.{SpellsCall, Fits};
ghost use Rattle.asl_intrinsic.specs.Calls.{value_of};
ghost use Rattle.asl_intrinsic.specs.Values.{ev};
ghost use Rattle.asl_intrinsic.specs.private.Leads.{Fails};
ghost use Rattle.asl_intrinsic.specs.private.Keeps.{Tells};
ghost use Rattle.asl_intrinsic.specs.Faults.{IsCall, IsFaultOf};

use crate::call::Argument;
use crate::frame::Wrong;
use crate::front::Halt;
use crate::reading::spelled;
use asl_intrinsic_functions::EvalFault;
use asl_json::{Json, Txt};
use std::alloc::{AllocError, Global};
use std::marker::Model;
use thiserror::Error;

/// Why a text is no call.
#[derive(Debug, PartialEq, Eq, Drop, Error)]
pub enum CallFault {
    /// I1: the number of the first wrong byte, counted from 0. It is the first byte at which the text is no longer the
    /// beginning of a call, or the first byte of a number past the limits, whichever is less; the length of the text if
    /// it ends too early.
    #[error("I1 Syntax {0}")]
    Syntax(usize),
    /// I2: there is no function of this name behind `States.`.
    #[error("I2 Unknown {0}")]
    Unknown(Txt),
    /// I3: a call is inside ten others.
    #[error("I3 Depth")]
    Depth,
    /// I4: a function takes more or fewer arguments.
    #[error("I4 Arity")]
    Arity,
    /// I5: a growth was refused.
    #[error("I5 OutOfMemory")]
    OutOfMemory,
}

/// A call of an intrinsic function that was read. Contracts see it as its text.
///
/// (Amazon States Language, <https://states-language.net/spec.html>, "Intrinsic Functions".)
pub struct Expr {
    spelled: Txt,
    call: Argument,
}

// Written out, so that a caller's proof sees one call and not the drop of each part.
impl Drop for Expr {
    fn drop(self) {
        let Expr {
            spelled: _spelled,
            call: _call,
        } = self;
    }
}

impl Model for Expr {
    ghost use Rattle.std.specs.Prelude.{List, ℕ, ◌≡◌, Ok, None};
    ghost use Rattle.asl_intrinsic.specs.private.View.{tree_of};
    ghost use Rattle.asl_intrinsic.specs.private.Steps.{heard as heard_as};
    ghost use Rattle.asl_intrinsic.specs.Faults.{first_fault};

    ghost Value = { List ℕ };

    ghost view = { λ a. a.spelled };

    ghost invariant = { λ a. (heard_as a.spelled ≡ Ok (tree_of a.call)) × (first_fault 1 (tree_of a.call) ≡ None) };
}

/// Two calls are equal where their texts are.
impl PartialEq for Expr {
    ghost use Rattle.std.specs.Prelude.{nat_eq};
    ghost use Rattle.std.specs.Cmp.Lexicographic.{pointwise};
    ghost use Rattle.std.specs.Cmp.{partial_equiv_from_equiv};
    ghost use Rattle.std.proofs.lemmas.Cmp.{nat_list_eq_equiv};

    ghost eq = { pointwise nat_eq };

    ghost laws = { partial_equiv_from_equiv nat_list_eq_equiv };

    fn eq(&self, other: &Expr) -> bool {
        self.spelled == other.spelled
    }
}

impl Eq for Expr {
    ghost use Rattle.std.proofs.lemmas.Cmp.{nat_list_eq_equiv};

    ghost laws = { nat_list_eq_equiv };
}

/// The fault at its place from the start.
fn at_place(text: &str, halt: Halt) -> CallFault
    requires { Fails halt (heard text.now) }
    ensures { IsFaultOf text.now result }
{
    match halt {
        Halt::At(left) => CallFault::Syntax(text.len() - left),
        Halt::Memory => CallFault::OutOfMemory,
    }
}

/// What is wrong with a call, with a name of its own.
fn told(alloc: Global, wrong: Wrong) -> CallFault
    ensures { Tells wrong.entry result }
{
    match wrong {
        Wrong::Unknown(name) => match String::from_str(alloc, name) {
            Ok(string) => CallFault::Unknown(Txt::new(string)),
            Err(_) => CallFault::OutOfMemory,
        },
        Wrong::Depth => CallFault::Depth,
        Wrong::Arity => CallFault::Arity,
    }
}

impl Expr {
    /// Reads a text as a call: `States.Name(arg, ..)`. An argument is a text in apostrophes, a number, `null`, `true`,
    /// `false`, a path or another call. Its cost is the length of the text, however deeply calls nest.
    ///
    /// I1 is judged on the whole text; then each call, in the order of the calls' names, is judged for I3, I2 and I4.
    pub fn read(alloc: Global, text: &str) -> Result<Expr, CallFault>
        ensures text { IfOk result (λ e. e ≡ text.now) }
        // What is read is a call, as the grammar spells it, without a fault.
        ensures found { IfOk result (λ _. IsCall text.now) }
        // Each such call is read, unless memory runs out.
        ensures only { IsCall text.now → IfErr result (λ fault. fault ≡ CallFault.OutOfMemory) }
        // The fault is the first one.
        ensures fault { IfErr result (IsFaultOf text.now) }
    {
        let call = match spelled(alloc, text) {
            Ok(Ok(call)) => call,
            Ok(Err(wrong)) => return Err(told(alloc, wrong)),
            Err(halt) => return Err(at_place(text, halt)),
        };
        match String::from_str(alloc, text) {
            Ok(string) => Ok(Expr {
                spelled: Txt::new(string),
                call,
            }),
            Err(_) => Err(CallFault::OutOfMemory),
        }
    }

    /// The text that it was read from.
    pub fn text(&self) -> &str
        ensures text { result.now ≡ self.now }
        ensures call { IsCall self.now }
    {
        self.spelled.as_str()
    }

    /// Evaluates the call on an input and a context: the arguments from the left, then the function. A path that begins
    /// with `$$` leads into the context. The first fault counts.
    pub fn eval(&self, alloc: Global, input: &Json, context: &Json) -> Result<Json, EvalFault>
        // By the tree that the call spells.
        ensures tree { (a : Tree) → SpellsCall a self.now → Fits a
            → Gives data_of (value_of a (data_of input.now) (data_of context.now)) result }
        // The same by a function of the text.
        ensures value { Gives data_of (ev self.now (data_of input.now) (data_of context.now))
            result }
    {
        self.evaluated(alloc, input, context)
    }

    fn evaluated(&self, alloc: Global, input: &Json, context: &Json) -> Result<Json, EvalFault>
        ensures { Gives data_of (ev self.now (data_of input.now) (data_of context.now)) result }
    {
        self.call.eval(alloc, input, context)?.into_json(alloc)
    }

    /// A call of its own, equal to this one. It is read again: its cost is the length of the text.
    pub fn try_clone(&self, alloc: Global) -> Result<Expr, AllocError>
        ensures { IfOk result (λ e. e ≡ self.now) }
    {
        match Expr::read(alloc, self.text()) {
            Ok(copy) => Ok(copy),
            Err(_) => Err(AllocError),
        }
    }
}
