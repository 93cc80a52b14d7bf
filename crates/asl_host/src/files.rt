// What files give.
ghost use Rattle.std.specs.Prelude.{◌≡◌, ◌≤◌, ◌++◌, length, IfOk, IfErr, OnOk, IfSome};
ghost use Rattle.asl_host.specs.declared.files.Unreadable.TheVariants.{TooLong};
ghost use Rattle.asl_host.specs.Limits.{most_bytes};
ghost use Rattle.asl_host.specs.Reading.{MayGive, MayLack, is_text, unreadable_words};

use std::alloc::Global;
use std::io::{ErrorKind, Read};
use std::{fs, io, rt};
use thiserror::Error;

/// How many bytes a file may have, and in how many reads it is read at most.
pub const MOST_BYTES: usize = 16_777_216;

/// The name of standard input.
const INPUT: &str = "-";

/// Why a file can't be read.
#[derive(Clone, Copy, Debug, PartialEq, Eq)]
pub enum Unreadable {
    /// There is none of this name.
    Missing,
    /// It is a folder.
    Folder,
    /// Leave to read it is lacking.
    Forbidden,
    /// It has more than 16,777,216 bytes.
    TooLong,
    /// It is standard input, which was read before.
    Spent,
    /// A read failed for another reason.
    Failed,
}

impl Unreadable {
    /// What is told of it behind the file's name: nothing where there is no such file.
    pub fn words(self) -> &'static str
        ensures { result.now ≡ unreadable_words self }
    {
        match self {
            Unreadable::Missing => "",
            Unreadable::Folder => ": it is a folder",
            Unreadable::Forbidden => ": permission denied",
            Unreadable::TooLong => ": it has more than 16777216 bytes",
            Unreadable::Spent => ": standard input was read before",
            Unreadable::Failed => ": a read failed",
        }
    }
}

/// Why a file wasn't read.
#[derive(Clone, Copy, Debug, PartialEq, Eq, Error)]
pub enum ReadFault {
    #[error("the file can't be read")]
    Unreadable(Unreadable),
    #[error("OutOfMemory")]
    OutOfMemory,
}

/// Files that are read by their names, as the machine's, or some in memory.
pub trait Files {
    ghost use Rattle.std.specs.Prelude.{List, ℕ};
    ghost use Rattle.asl_host.specs.declared.files.Unreadable.{Unreadable};

    // Whether the file of a name may give these bytes.
    ghost gives: { Self → List ℕ → List ℕ → Type 0 };

    // Whether the file of a name may be one that can't be read, for this reason.
    ghost lacks: { Self → List ℕ → Unreadable → Type 0 };

    /// Reads the whole of a file, of at most 16,777,216 bytes. The name `-` is that of standard input, which is read once; a JSON text in place of a
    /// name, which begins with a brace, a bracket or a quotation mark, is read itself.
    fn read(&mut self, alloc: Global, name: &str) -> Result<Vec<u8>, ReadFault>
        ensures given { IfOk result (λ r. gives self.old name.now r.items) }
        ensures bound { IfOk result (λ r. length r.items ≤ most_bytes) }
        ensures unreadable { IfErr result
            (λ e. (u : Unreadable) → e ≡ ReadFault.Unreadable u → lacks self.old name.now u) }
        ensures kept { (n b : List ℕ) → gives self.new n b → gives self.old n b }
        ensures lacking { (n : List ℕ) (u : Unreadable) → lacks self.new n u
            → lacks self.old n u };
}

/// The machine's files, and its standard input.
#[derive(Drop)]
pub struct HostFiles<'a, R, I> {
    rt: &'a R,
    /// None where it was read.
    input: Option<I>,
}

impl<'a, R: rt::Files, I: Read + Drop> HostFiles<'a, R, I> {
    /// The files that a runtime opens, and standard input.
    pub fn new(rt: &'a R, input: I) -> HostFiles<'a, R, I> {
        HostFiles {
            rt,
            input: Some(input),
        }
    }

    /// Reads the whole of standard input.
    fn read_input(&mut self, alloc: Global) -> Result<Vec<u8>, ReadFault>
        ensures bound { IfOk result (λ r. length r.items ≤ most_bytes) }
    {
        match self.input.take() {
            Some(mut input) => read_whole(alloc, &mut input),
            None => Err(ReadFault::Unreadable(Unreadable::Spent)),
        }
    }
}

impl<'a, R: rt::Files, I: Read + Drop> Files for HostFiles<'a, R, I> {
    ghost use Rattle.asl_host.specs.Reading.{MayGive, MayLack};

    // Nothing is known of what the machine's files give, and any may be lacking; a text is given as it is.
    ghost gives = { λ _ name bytes. MayGive name bytes };

    ghost lacks = { λ _ name why. MayLack name why };

    fn read(&mut self, alloc: Global, name: &str) -> Result<Vec<u8>, ReadFault> {
        if is_text(name) {
            return text_itself(alloc, name);
        }
        if name == INPUT {
            return self.read_input(alloc);
        }
        match fs::open(self.rt, name) {
            Ok(mut file) => read_whole(alloc, &mut file),
            Err(error) => Err(fault_of(&error)),
        }
    }
}

/// Whether a JSON text stands in place of a file's name.
pub(crate) fn is_text(name: &str) -> bool
    ensures { result ≡ is_text name.now }
{
    matches!(name.as_bytes().first(), Some(b'{' | b'[' | b'"'))
}

/// The bytes of a text.
fn text_itself(alloc: Global, text: &str) -> Result<Vec<u8>, ReadFault>
    ensures bytes { IfOk result (λ r. r.items ≡ text.now) }
    ensures bound { IfOk result (λ r. length r.items ≤ most_bytes) }
    ensures fault { IfErr result (λ e. (u : Unreadable) → e ≡ ReadFault.Unreadable u
        → u ≡ TooLong) }
{
    let mut bytes = Vec::new(alloc);
    add(&mut bytes, text.as_bytes())?;
    Ok(bytes)
}

/// Reads to the end. The fault is that a read failed, that more than 16,777,216 bytes came, or that so many reads didn't
/// reach the end.
pub fn read_whole<R: Read>(alloc: Global, reader: &mut R) -> Result<Vec<u8>, ReadFault>
    ensures bound { IfOk result (λ r. length r.items ≤ most_bytes) }
    ensures bytes { IfOk result (λ r. IfSome (R.remaining reader.old) (λ all. r.items ≡ all)) }
{
    let mut bytes = Vec::new(alloc);
    let mut buffer = [0u8; 8192];
    for _ in 0..MOST_BYTES {
        match reader.read(&mut buffer) {
            Ok(0) => return Ok(bytes),
            Ok(count) => add(&mut bytes, &buffer[..count])?,
            Err(error) if error.kind() == ErrorKind::Interrupted => {}
            Err(error) => return Err(fault_of(&error)),
        }
    }
    Err(ReadFault::Unreadable(Unreadable::TooLong))
}

/// Adds a piece to what was read. The fault is that it grows too long, or that memory ran out.
pub(crate) fn add(bytes: &mut Vec<u8>, piece: &[u8]) -> Result<(), ReadFault>
    requires { length bytes.old.items ≤ most_bytes }
    ensures items { OnOk result (bytes.new.items ≡ bytes.old.items ++ piece.now) }
    ensures bound { OnOk result (length bytes.new.items ≤ most_bytes) }
    ensures fault { IfErr result (λ e. (u : Unreadable) → e ≡ ReadFault.Unreadable u
        → u ≡ TooLong) }
{
    if MOST_BYTES - bytes.len() < piece.len() {
        return Err(ReadFault::Unreadable(Unreadable::TooLong));
    }
    match bytes.extend_from_slice(piece) {
        Ok(()) => Ok(()),
        Err(_) => Err(ReadFault::OutOfMemory),
    }
}

pub(crate) fn fault_of(error: &io::Error) -> ReadFault {
    match error.kind() {
        ErrorKind::OutOfMemory => ReadFault::OutOfMemory,
        ErrorKind::NotFound => ReadFault::Unreadable(Unreadable::Missing),
        ErrorKind::IsADirectory => ReadFault::Unreadable(Unreadable::Folder),
        ErrorKind::PermissionDenied => ReadFault::Unreadable(Unreadable::Forbidden),
        _ => ReadFault::Unreadable(Unreadable::Failed),
    }
}
