// Sinks that bytes are written to.
ghost use Rattle.std.specs.Prelude.{◌≡◌, ◌<◌, ◌≤◌, ◌++◌, [], List, ℕ, length, take, IfOk, OnOk, OnErr};
ghost use Rattle.asl_history.specs.Sinks.{counted};

use std::alloc::Global;
use std::marker::Model;
use thiserror::Error;

/// That a sink took nothing.
#[derive(Clone, Copy, Debug, PartialEq, Eq, Error)]
#[error("the sink failed")]
pub struct SinkFault;

/// What bytes are written to, as memory, a file or a socket. It counts its failures, modulo 2^64.
pub trait Sink {
    ghost use Rattle.std.specs.Prelude.{List, ℕ};

    // The bytes that it has taken.
    ghost taken: { Self → List ℕ };

    // How often it has failed, modulo 2^64.
    ghost failures: { Self → ℕ };

    /// Takes bytes from the front of a piece, of one that isn't empty at least one, and tells how many; else it fails and
    /// takes none.
    fn write(&mut self, bytes: &[u8]) -> Result<usize, SinkFault>
        ensures bound { IfOk result (λ n. n ≤ length bytes.now) }
        ensures some { 0 < length bytes.now → IfOk result (λ n. 0 < n) }
        ensures taken { IfOk result (λ n. taken self.new ≡ taken self.old ++ take n bytes.now) }
        ensures ok { OnOk result (failures self.new ≡ failures self.old) }
        ensures kept { OnErr result (taken self.new ≡ taken self.old) }
        ensures counted { OnErr result (failures self.new ≡ counted (failures self.old)) };
}

/// A sink in memory. It fails where memory runs out.
#[derive(Drop)]
pub struct Memory {
    bytes: Vec<u8>,
    failures: u64,
}

impl Memory {
    /// A sink that has taken nothing.
    pub fn new(alloc: Global) -> Memory
        ensures bytes { result.bytes.items ≡ [] }
        ensures failures { result.failures ≡ 0 }
    {
        Memory {
            bytes: Vec::new(alloc),
            failures: 0,
        }
    }

    /// How often it has failed, modulo 2^64.
    pub fn failures(&self) -> u64
        ensures { result ≡ self.now.failures }
    {
        let Memory { failures, .. } = self;
        *failures
    }

    /// The bytes that it has taken.
    pub fn bytes(&self) -> &[u8]
        ensures { result.now ≡ self.now.bytes.items }
    {
        self.bytes.as_slice()
    }
}

impl Sink for Memory {
    ghost taken = { λ m. m.bytes.items };

    ghost failures = { λ m. m.failures };

    fn write(&mut self, bytes: &[u8]) -> Result<usize, SinkFault> {
        if self.bytes.extend_from_slice(bytes).is_err() {
            self.failures = self.failures.wrapping_add(1);
            return Err(SinkFault);
        }
        Ok(bytes.len())
    }
}
