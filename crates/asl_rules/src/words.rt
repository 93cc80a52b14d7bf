// The words that begin with a letter of their own.
ghost use Rattle.std.specs.Prelude.{◌≡◌};
ghost use Rattle.asl_rules.specs.private.Words.{head_at, head_letters, status_at, status_letters};

use crate::atom::Status;

/// With which word an atom begins.
#[derive(Clone, Copy, Debug, PartialEq, Eq)]
pub(crate) enum Head {
    Done,
    Returned,
    Failed,
    Invoked,
    Status,
    Error,
}

impl Head {
    /// The one whose word begins with this byte.
    pub(crate) fn begun_by(byte: u8) -> Option<Head>
        ensures { result ≡ head_at byte }
    {
        match byte {
            b'd' => Some(Head::Done),
            b'r' => Some(Head::Returned),
            b'f' => Some(Head::Failed),
            b'i' => Some(Head::Invoked),
            b's' => Some(Head::Status),
            b'e' => Some(Head::Error),
            _ => None,
        }
    }

    /// The other letters of its word.
    pub(crate) fn letters(self) -> &'static [u8]
        ensures { result.now ≡ head_letters self }
    {
        match self {
            Head::Done => b"one",
            Head::Returned => b"eturned",
            Head::Failed => b"ailed",
            Head::Invoked => b"nvoked",
            Head::Status => b"tatus",
            Head::Error => b"rror",
        }
    }
}

impl Status {
    /// The status whose word begins with this byte.
    pub(crate) fn begun_by(byte: u8) -> Option<Status>
        ensures { result ≡ status_at byte }
    {
        match byte {
            b'S' => Some(Status::Succeeded),
            b'F' => Some(Status::Failed),
            b'T' => Some(Status::TimedOut),
            _ => None,
        }
    }

    /// The other letters of its word.
    pub(crate) fn letters(self) -> &'static [u8]
        ensures { result.now ≡ status_letters self }
    {
        match self {
            Status::Succeeded => b"UCCEEDED",
            Status::Failed => b"AILED",
            Status::TimedOut => b"IMED_OUT",
        }
    }
}
