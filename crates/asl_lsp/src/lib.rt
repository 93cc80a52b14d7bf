//! The Language Server Protocol 3.17 for definitions: what is wrong or suspicious in a document is told whenever it is opened, changed or saved,
//! and what an editor asks about it is answered.
//!
//! A server is a machine: it takes a message, and gives the one that it sends for it, if any. Whoever runs it frames the messages, and reads and writes them.
//!
//! Modules in reading order: `members` reads parts of parameters; `document` is an open document and `documents` all of them,
//! `method` has the methods, `refusal` says why a request is refused, and `params` reads the parameters of messages; `diagnostics` tells what `asl_lint`
//! finds in a document, `capabilities` what the server can do, and `reply` writes the messages that are sent; `session` is what happens to documents,
//! `asking` what is answered about them, `phase` where the server is in its life, and `server` the machine. `laws` holds what is true of all runs.
//!
//! `specs/Server.antt` says what the machine does at a message, `specs/Sessions.antt` what happens to documents, `specs/Requests.antt` what is answered
//! about them, `specs/Replies.antt` and `specs/Diagnostics.antt` what is sent, and `specs/Runs.antt` what is sent for many messages.
#![tactic(auto)]

mod asking;
mod capabilities;
mod diagnostics;
mod document;
mod documents;
mod laws;
mod members;
mod method;
mod params;
mod phase;
mod refusal;
mod reply;
mod server;
mod session;

pub use laws::{
    an_open_document_has_its_last_text, each_request_is_answered_once,
    other_documents_make_no_difference,
};
pub use server::Server;
