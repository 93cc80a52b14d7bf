//! Payload templates of the Amazon States Language (<https://states-language.net/spec.html>, "Payload Template"): JSON values
//! in which a member `name.$` stands for `name` with the value of a path or of a call of an intrinsic function.
//!
//! `specs/Names.antt` says what a key stands for, `specs/Filling.antt` what a template gives on an input and a Context
//! Object, and `specs/Faults.antt` which values are templates and which fault is answered for any other.
#![tactic(auto)]

mod equal;
mod fault;
mod fill;
mod name;
mod part;
mod read;
mod rebuild;
mod template;

pub use fault::TemplateFault;
pub use fill::{FillFault, Word, is_on_context};
pub use name::name_before;
pub use read::{is_double, is_path};
pub use template::Template;
