//! A language server behind a stream of bytes: a client's bytes come in pieces, and what is to be sent to it is bytes.
//!
//! Modules in reading order: `answering` answers what stands in the stream, and `service` is the server with what has come of the stream.
//!
//! `specs/Streams.antt` says what is sent for a stream.
#![tactic(auto)]

mod answering;
mod service;

pub use service::Service;
