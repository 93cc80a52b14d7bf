//! Calls of intrinsic functions, as the Amazon States Language has them ("Intrinsic Functions",
//! <https://states-language.net/spec.html>): reading them, and their values on an input and a context.
//!
//! `specs/Tree.antt` is a call as a tree, `specs/Grammar.antt` says which texts spell which calls, `specs/Fronts.antt` what stands
//! open behind the front of one, `specs/Faults.antt` what is wrong with a text, `specs/Calls.antt` what a call's value is; the
//! functions are those of `asl_intrinsic_functions`. `specs/Laws.antt` says how texts, calls and values go together.
//! Modules in reading order: `expr` and `call` are the types; `front`, `leaf`, `frame` and `reading` the reader; `eval` goes
//! through a call.
#![tactic(auto)]

mod call;
mod eval;
mod expr;
mod frame;
mod front;
mod laws;
mod leaf;
mod reading;

pub use expr::{CallFault, Expr};
pub use laws::a_call_has_one_meaning;
