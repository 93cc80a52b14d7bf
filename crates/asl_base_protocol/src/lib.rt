//! The base protocol of the Language Server Protocol 3.17 ("Base Protocol"), which the Debug Adapter Protocol shares: a stream of messages, each with a header
//! part that says how long its content part is.
//!
//! Modules in reading order: `item` is what stands in a stream, `field` reads a number in a header field, `said` is what a header part says, `part` is what has come of an item that isn't
//! whole yet, `header` and `content` go on with it, `reader` takes a stream in chunks, `message` writes a message, and `laws` holds what is true of every input.
//!
//! `specs/Fields.antt` says what header fields mean, `specs/Grammar.antt` what stands in an input, `specs/Standing.antt` what a reader has made of it, and
//! `specs/Message.antt` how a message is written.
#![tactic(auto)]

mod content;
mod field;
mod header;
mod item;
mod laws;
mod message;
mod part;
mod reader;
mod said;

pub use item::{Bytes, Item};
pub use laws::{
    a_message_is_read_back, an_input_has_one_reading, chunks_make_no_difference,
    every_input_has_a_reading,
};
pub use message::put_message;
pub use reader::Reader;
