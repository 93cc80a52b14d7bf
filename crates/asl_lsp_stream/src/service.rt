// A server with what has come of a stream.
ghost use Rattle.std.specs.Prelude.{◌≡◌, ◌++◌, [], List, ℕ, IfOk, string_bytes};
ghost use Rattle.asl_lsp.specs.Server.{has_ended};
ghost use Rattle.asl_lsp_stream.specs.Streams.{IsServing};

use crate::answering::put_item;
use asl_base_protocol::Reader;
use asl_lsp::Server;
use std::alloc::{AllocError, Global};

/// A language server, and what has come of a message that isn't whole yet.
#[derive(Drop)]
pub struct Service {
    pub(crate) reader: Reader,
    pub(crate) server: Server,
}

impl Service {
    /// A server that has received nothing.
    pub fn new(alloc: Global) -> Service
        ensures { IsServing [] [] result }
    {
        Service {
            reader: Reader::new(alloc),
            server: Server::new(),
        }
    }

    /// Takes the next bytes of the client, however they are cut, and gives those that are sent for them. The error is that memory ran out; then what it has received
    /// isn't known any more.
    pub fn take(&mut self, alloc: Global, bytes: &[u8]) -> Result<String, AllocError>
        ensures { (input sent : List ℕ) → IsServing input sent self.old
            → IfOk result (λ t. IsServing (input ++ bytes.now) (sent ++ string_bytes t) self.new) }
    {
        let mut items = Vec::new(alloc);
        self.reader.feed(alloc, bytes, &mut items)?;
        let mut out = String::new(alloc);
        for item in &items {
            put_item(alloc, &mut self.server, item, &mut out)?;
        }
        Ok(out)
    }

    /// Whether it has received `exit`.
    pub fn has_ended(&self) -> bool
        ensures { result ≡ has_ended self.now.server }
    {
        self.server.has_ended()
    }
}
