// The words that the program was started with.
use std::rt::Env;
use std::{env, io};

/// Why the program's words can't be had.
#[derive(Clone, Copy, Debug, thiserror::Error)]
pub enum GivenFault {
    /// A word isn't UTF-8, or the system doesn't give it.
    #[error("a word isn't UTF-8")]
    Malformed,
    #[error("OutOfMemory")]
    OutOfMemory,
}

/// The words that the program was started with, the first its own name.
pub fn given<R: Env + AllocGlobal>(rt: &R) -> Result<Vec<String>, GivenFault> {
    let words = match env::args(rt) {
        Ok(words) => words,
        Err(error) if error.kind() == io::ErrorKind::OutOfMemory => {
            return Err(GivenFault::OutOfMemory);
        }
        Err(_) => return Err(GivenFault::Malformed),
    };
    words
        .collect(rt.alloc())
        .map_err(|_| GivenFault::OutOfMemory)
}
