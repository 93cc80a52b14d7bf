// What a message asks for.
use crate::id::Id;
use asl_json::{Json, Txt};
use std::alloc::AllocError;

/// What a message is (JSON-RPC 2.0, "Request object", "Notification", "Response object").
#[derive(Drop)]
pub enum Incoming {
    /// A call that wants an answer with its id.
    Request {
        id: Id,
        method: Txt,
        params: Option<Json>,
    },
    /// A call that wants none.
    Notification {
        method: Txt,
        params: Option<Json>,
    },
    /// An answer to a call of the other side.
    Response,
}

/// Why a message asks for nothing.
#[derive(Drop)]
pub enum CallFault {
    /// It is no JSON text in the limits of the reader.
    ParseError,
    /// Its value is none of the above. The id is null where the message has none that could be one.
    InvalidRequest(Id),
    /// Memory ran out.
    OutOfMemory,
}

impl From<AllocError> for CallFault {
    ghost use Rattle.std.specs.Prelude.{◌≡◌};
    ghost use Rattle.asl_json_rpc.specs.declared.incoming.CallFault.TheVariants.{OutOfMemory};

    ghost from_gives = { λ _ e. e ≡ OutOfMemory };

    fn from(_: AllocError) -> CallFault {
        CallFault::OutOfMemory
    }
}
