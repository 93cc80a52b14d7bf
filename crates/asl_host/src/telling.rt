// What is written to a sink, and the line that tells a fault.
ghost use Rattle.std.specs.Prelude.{OnOk, OnErr};
ghost use Rattle.asl_host.specs.Outcomes.{sink_use, fault_line, IsTold, IsBroken, IsWhole};

use asl_history::{Sink, SinkFault, write_all};

/// Writes the line of a fault, as far as the sink takes it: `fault: `, its text and a line feed.
pub fn tell_fault<E: Sink>(err: &mut E, text: &str)
    ensures { IsTold (sink_use E.taken E.failures err.old err.new) (fault_line text.now) }
{
    // A sink that fails has no other way to tell it: the status is the same.
    let _ = write_fault(err, text);
}

/// The same. The error is that the sink failed.
pub fn write_fault<E: Sink>(err: &mut E, text: &str) -> Result<(), SinkFault>
    ensures ok { OnOk result (IsWhole (sink_use E.taken E.failures err.old err.new) (fault_line text.now)) }
    ensures err { OnErr result (IsBroken (sink_use E.taken E.failures err.old err.new) (fault_line text.now)) }
{
    write_piece(err, "fault: ")?;
    write_piece(err, text)?;
    write_piece(err, "\n")
}

/// Writes a text.
pub fn write_piece<W: Sink>(sink: &mut W, text: &str) -> Result<(), SinkFault>
    ensures ok { OnOk result (IsWhole (sink_use W.taken W.failures sink.old sink.new) text.now) }
    ensures err { OnErr result (IsBroken (sink_use W.taken W.failures sink.old sink.new) text.now) }
{
    match write_all(sink, text.as_bytes()) {
        Ok(()) => Ok(()),
        Err(_) => Err(SinkFault),
    }
}
