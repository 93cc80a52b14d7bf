// Why a history isn't written whole.
ghost use Rattle.std.specs.Prelude.{◌≡◌, ◌+◌, ◌^◌, ◌<◌, ℕ};
ghost use Rattle.asl_history.specs.Sending.{sent_of, failures_after};

use thiserror::Error;

/// Why a history wasn't written whole, and how many bytes of its text went out before.
#[derive(Clone, Copy, Debug, PartialEq, Eq, Error)]
pub enum WriteFault {
    /// Y1: the sink failed.
    #[error("Y1 Write {sent}")]
    Write { sent: u128 },
    /// Y2: memory ran out.
    #[error("Y2 OutOfMemory {sent}")]
    OutOfMemory { sent: u128 },
}

impl WriteFault {
    /// The same fault, where so many more bytes went out before.
    pub(crate) fn after(self, before: u128) -> WriteFault
        requires { before + sent_of self < 2 ^ 128 }
        ensures sent { sent_of result ≡ before + sent_of self }
        ensures kind { (n : ℕ) → failures_after result n ≡ failures_after self n }
    {
        match self {
            WriteFault::Write { sent } => WriteFault::Write {
                sent: before + sent,
            },
            WriteFault::OutOfMemory { sent } => WriteFault::OutOfMemory {
                sent: before + sent,
            },
        }
    }
}
