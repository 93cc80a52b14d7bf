//! JSON-RPC 2.0 as the Language Server Protocol uses it: messages are read as calls, and answers are printed.
//!
//! Modules in reading order: `id` is the id of a request, `incoming` what a message asks for, `calling` finds it in a JSON value, and `reading` in a text; `code` has the codes of errors, and
//! `printing` writes what is sent. `laws` holds that a response has the id of its request, and that what is sent is JSON.
//!
//! `specs/Calls.antt` says what a message is, and `specs/Printing.antt` what is sent.
#![tactic(auto)]

mod calling;
mod code;
mod id;
mod incoming;
mod laws;
mod printing;
mod reading;

pub use code::ErrorCode;
pub use id::Id;
pub use incoming::{CallFault, Incoming};
pub use laws::{a_response_has_the_id_of_its_request, what_is_sent_is_json};
pub use printing::{put_error, put_notification, put_result};
pub use reading::read_call;
