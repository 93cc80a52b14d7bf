// Writing a history to a sink.
ghost use Rattle.std.specs.Prelude.{◌≡◌, ◌+◌, ◌*◌, ◌^◌, ◌<◌, ◌≤◌, ◌++◌, ℕ, length, take, IfOk, IfErr, OnOk, OnErr};
ghost use Rattle.asl_history.specs.Lines.{line_of, history_text};
ghost use Rattle.asl_history.specs.Sinks.{counted};
ghost use Rattle.asl_history.specs.Sending.{sent_of, failures_after};

use crate::event::Event;
use crate::fault::WriteFault;
use crate::history::History;
use crate::printing::put_line;
use crate::sink::Sink;

impl History {
    /// Writes the lines of the events to a sink, one after another, each made in the same memory. A fault is that the sink
    /// failed (Y1) or that memory ran out (Y2); the sink then has the beginning of the text, of the length that the fault
    /// tells.
    pub fn write_all_lines<W: Sink>(&self, sink: &mut W) -> Result<(), WriteFault>
        ensures ok { OnOk result (W.taken sink.new
            ≡ W.taken sink.old ++ history_text self.now.events) }
        ensures quiet { OnOk result (W.failures sink.new ≡ W.failures sink.old) }
        // What went out is a beginning of the text, and not the whole of it.
        ensures part { IfErr result (λ fault. W.taken sink.new
            ≡ W.taken sink.old ++ take (sent_of fault) (history_text self.now.events)) }
        ensures short { IfErr result
            (λ fault. sent_of fault < length (history_text self.now.events)) }
        // The sink failed, once, at Y1 and not at Y2.
        ensures failed { IfErr result
            (λ fault. W.failures sink.new ≡ failures_after fault (W.failures sink.old)) }
    {
        let mut buffer = String::new(self.allocator());
        let mut sent = 0u128;
        for event in self.events() {
            match write_line(&mut buffer, event, sink) {
                Ok(length) => sent += length as u128,
                Err(fault) => return Err(fault.after(sent)),
            }
        }
        Ok(())
    }
}

/// Writes the line of an event, made in a buffer, and tells its length.
fn write_line<W: Sink>(
    buffer: &mut String,
    event: &Event,
    sink: &mut W,
) -> Result<usize, WriteFault>
    ensures len { IfOk result (λ n. n ≡ length (line_of event.now)) }
    ensures ok { OnOk result (W.taken sink.new ≡ W.taken sink.old ++ line_of event.now) }
    ensures quiet { OnOk result (W.failures sink.new ≡ W.failures sink.old) }
    ensures part { IfErr result
        (λ fault. W.taken sink.new ≡ W.taken sink.old ++ take (sent_of fault) (line_of event.now)) }
    ensures short { IfErr result (λ fault. sent_of fault < length (line_of event.now)) }
    ensures bound { IfErr result (λ fault. sent_of fault < 2 ^ 64) }
    ensures failed { IfErr result
        (λ fault. W.failures sink.new ≡ failures_after fault (W.failures sink.old)) }
{
    buffer.clear();
    if put_line(buffer, event).is_err() {
        return Err(WriteFault::OutOfMemory { sent: 0 });
    }
    match write_all(sink, buffer.as_bytes()) {
        Ok(()) => Ok(buffer.len()),
        Err(sent) => Err(WriteFault::Write { sent: sent as u128 }),
    }
}

/// Writes the whole of a piece. The error is that the sink failed, and tells how many bytes of the piece went out before.
pub fn write_all<W: Sink>(sink: &mut W, bytes: &[u8]) -> Result<(), usize>
    ensures ok { OnOk result (W.taken sink.new ≡ W.taken sink.old ++ bytes.now) }
    ensures quiet { OnOk result (W.failures sink.new ≡ W.failures sink.old) }
    ensures part { IfErr result (λ n. W.taken sink.new ≡ W.taken sink.old ++ take n bytes.now) }
    ensures short { IfErr result (λ n. n < length bytes.now) }
    ensures failed { OnErr result (W.failures sink.new ≡ counted (W.failures sink.old)) }
{
    let mut sent = 0;
    while sent < bytes.len() {
        match sink.write(&bytes[sent..]) {
            Ok(count) => sent += count,
            Err(_) => return Err(sent),
        }
    }
    Ok(())
}
