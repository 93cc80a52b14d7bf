// The streams that are written.
ghost use Rattle.std.specs.Prelude.{◌≡◌, ◌==◌, ◌<◌, ◌≤◌, ◌++◌, [], not, length, take, IfOk, OnErr};
ghost use Rattle.std.specs.Io.KnownBytes.{Appends};

use crate::taken::Taken;
use asl_history::{Sink, SinkFault};
use std::io::Write;

/// A stream, as standard output, as a sink. It fails where the stream does. What it has taken is kept by proofs alone.
#[derive(Drop)]
pub struct Stream<W> {
    stream: W,
    taken: Taken,
    failures: u64,
}

impl<W: Write> Stream<W> {
    /// A stream that has taken nothing so far.
    pub fn new(stream: W) -> Stream<W>
        ensures taken { result.taken.bytes ≡ [] }
        ensures failures { result.failures ≡ 0 }
    {
        Stream {
            stream,
            taken: Taken::new(),
            failures: 0,
        }
    }

    /// Whether a write has failed.
    pub fn has_failed(&self) -> bool
        ensures { result ≡ not (self.now.failures == 0) }
    {
        self.failures != 0
    }

    /// Passes bytes on to the stream, which has to take one at least, and tells how many it took.
    fn pass(&mut self, bytes: &[u8]) -> Result<usize, SinkFault>
        ensures bound { IfOk result (λ n. n ≤ length bytes.now) }
        ensures some { 0 < length bytes.now → IfOk result (λ n. 0 < n) }
        ensures taken { IfOk result (λ n. self.new.taken.bytes
            ≡ self.old.taken.bytes ++ take n bytes.now) }
        // What the stream itself holds, where that is known.
        ensures passed { IfOk result (λ n. Appends (W.contents self.old.stream)
            (W.contents self.new.stream) (take n bytes.now)) }
        ensures kept { OnErr result (self.new.taken ≡ self.old.taken) }
        ensures failures { self.new.failures ≡ self.old.failures }
    {
        let Ok(count) = self.stream.write(bytes) else {
            return Err(SinkFault);
        };
        if count == 0 && !bytes.is_empty() {
            return Err(SinkFault);
        }
        self.taken = self.taken.with(&bytes[..count]);
        Ok(count)
    }
}

impl<W: Write> Sink for Stream<W> {
    ghost taken = { λ s. s.taken.bytes };

    ghost failures = { λ s. s.failures };

    fn write(&mut self, bytes: &[u8]) -> Result<usize, SinkFault> {
        let result = self.pass(bytes);
        if result.is_err() {
            self.failures = self.failures.wrapping_add(1);
        }
        result
    }
}
