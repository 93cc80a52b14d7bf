// Reading a message.
ghost use Rattle.asl_json_rpc.specs.Calls.{IsCallOf};

use crate::calling::call_of;
use crate::incoming::{CallFault, Incoming};
use asl_json_read::read_any_size;
use std::alloc::Global;

/// Reads a message, whose value has to be in the limits of `asl_json_read`. However long its text is, is whoever frames it to say.
pub fn read_call(alloc: Global, text: &[u8]) -> Result<Incoming, CallFault>
    ensures { IsCallOf text.now result }
{
    match read_any_size(alloc, text)? {
        Some(message) => call_of(alloc, &message),
        None => Err(CallFault::ParseError),
    }
}
