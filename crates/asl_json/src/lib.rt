//! JSON values: their types and what is read off them.
//!
//! Modules in reading order: `value` has the types, `access` reaches into a value, `whole` has the whole numbers, `equal`
//! compares, spelling included, `keys` knows which keys there are, and `sound` says what every value has.
#![tactic(auto)]

mod access;
mod equal;
mod keys;
mod sound;
mod value;
mod whole;

pub use keys::Keys;
pub use sound::every_value_is_sound;
pub use value::{Dec, Items, Json, Member, Members, Txt, clone_text};
