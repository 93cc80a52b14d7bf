// The command `lsp`: the messages of an editor, each answered as soon as it is whole.
ghost use Rattle.std.specs.Prelude.{◌≡◌, ◌++◌, List, ℕ, OnOk, IfErr};
ghost use Rattle.asl_host.specs.Outcomes.{fault_line, sink_use, IsTold, IsWhole};
ghost use Rattle.asl_lsp_stream.specs.Streams.{IsServing};
ghost use Rattle.asl_cli.specs.Serving.{IsServed, IsServedTo, IsServedUntil, IsUnwritten};
ghost use Rattle.asl_cli.specs.Streams.{input_use, io};

use crate::command::REFUSED;
use asl_history::{Sink, SinkFault};
use asl_host::{Input, ReadFault, Unreadable, tell_fault, write_piece};
use asl_lsp_stream::Service;
use std::alloc::Global;

/// The status of a server that has ended, whoever ended it.
const ENDED: u8 = 0;

/// Why an editor isn't served any more.
#[derive(Clone, Copy)]
enum ServiceFault {
    /// The sink failed: it doesn't listen.
    Sink,
    /// No further bytes can be read, for this reason.
    Input(ReadFault),
    /// There was no memory for what is sent.
    OutOfMemory,
}

/// Takes bytes, and writes what is sent for them.
fn answer<O: Sink>(
    alloc: Global,
    service: &mut Service,
    bytes: &[u8],
    out: &mut O,
) -> Result<(), ServiceFault>
    ensures ok { (input sent : List ℕ) → IsServing input sent service.old → OnOk result ((t : List ℕ)
        × IsServing (input ++ bytes.now) (sent ++ t) service.new
        × IsWhole (sink_use O.taken O.failures out.old out.new) t) }
    ensures err { (input sent : List ℕ) → IsServing input sent service.old
        → IfErr result (IsUnwritten (sink_use O.taken O.failures out.old out.new)
        (λ t. IsServing (input ++ bytes.now) (sent ++ t) service.new)) }
{
    let Ok(sent) = service.take(alloc, bytes) else {
        return Err(ServiceFault::OutOfMemory);
    };
    match write_piece(out, sent.as_str()) {
        Ok(()) => Ok(()),
        Err(SinkFault) => Err(ServiceFault::Sink),
    }
}

/// Serves an editor until it ends the server, its input ends, or a fault ends it.
fn serve_on<I: Input, O: Sink>(
    alloc: Global,
    input: &mut I,
    out: &mut O,
) -> Result<(), ServiceFault>
    ensures ok { OnOk result (IsServed (input_use I.given I.ended input.old input.new)
        (sink_use O.taken O.failures out.old out.new)) }
    ensures err { IfErr result (IsServedUntil (input_use I.given I.ended input.old input.new)
        (sink_use O.taken O.failures out.old out.new)) }
{
    let mut service = Service::new(alloc);
    for _ in 0..u64::MAX {
        let bytes = match input.bytes(alloc) {
            Ok(Some(bytes)) => bytes,
            Ok(None) => return Ok(()),
            Err(fault) => return Err(ServiceFault::Input(fault)),
        };
        answer(alloc, &mut service, bytes.as_slice(), out)?;
        if service.has_ended() {
            return Ok(());
        }
    }
    Err(ServiceFault::Input(ReadFault::Unreadable(Unreadable::TooLong)))
}

/// Tells why no editor is served any more.
fn refuse<E: Sink>(err: &mut E, text: &str) -> u8
    ensures status { result ≡ 2 }
    ensures told { IsTold (sink_use E.taken E.failures err.old err.new) (fault_line text.now) }
{
    tell_fault(err, text);
    REFUSED
}

/// The command `lsp`: answers the messages of an editor. It ends where the editor says so, its messages end, or it doesn't listen.
pub fn serve<I: Input, O: Sink, E: Sink>(
    alloc: Global,
    input: &mut I,
    out: &mut O,
    err: &mut E,
) -> u8
    ensures { IsServedTo (input_use I.given I.ended input.old input.new)
        (io (sink_use O.taken O.failures out.old out.new)
        (sink_use E.taken E.failures err.old err.new) result) }
{
    match serve_on(alloc, input, out) {
        Ok(()) | Err(ServiceFault::Sink) => ENDED,
        Err(ServiceFault::Input(ReadFault::Unreadable(_))) => refuse(err, "file standard input"),
        Err(ServiceFault::Input(ReadFault::OutOfMemory)) => refuse(err, "OutOfMemory"),
        Err(ServiceFault::OutOfMemory) => refuse(err, "OutOfMemory"),
    }
}
