// What is typed, or sent.
ghost use Rattle.std.specs.Prelude.{◌≡◌, ◌<◌, ◌≤◌, ◌++◌, [], length, is_none, option_map, IfOk, IfSome, OnErr};
ghost use Rattle.asl_host.specs.Limits.{most_bytes};
ghost use Rattle.asl_host.specs.Typing.{bytes_given, line_given};

use crate::files::{MOST_BYTES, ReadFault, Unreadable, add, fault_of};
use crate::taken::Taken;
use std::alloc::Global;
use std::io::{BufRead, ErrorKind, Write};

/// What comes piece by piece: lines that are typed at a terminal, or bytes that another program sends.
pub trait Input {
    ghost use Rattle.std.specs.Prelude.{Bool, List, ℕ};

    // What it has given so far; behind each line stands a line feed.
    ghost given: { Self → List ℕ };

    // Whether it gave nothing when it was last asked, since it is at its end.
    ghost ended: { Self → Bool };

    /// The next line without its line feed, which has at most 16,777,216 bytes; none at the end.
    fn line(&mut self, alloc: Global) -> Result<Option<Vec<u8>>, ReadFault>
        ensures line { IfOk result (λ o. given self.new
            ≡ given self.old ++ line_given (option_map (λ l. l.items) o)) }
        ensures ended { IfOk result (λ o. ended self.new ≡ is_none o) }
        ensures err { OnErr result (given self.new ≡ given self.old) };

    /// The next bytes, as many as are there; none at the end. It waits for the first of them alone.
    fn bytes(&mut self, alloc: Global) -> Result<Option<Vec<u8>>, ReadFault>
        ensures bytes { IfOk result (λ o. given self.new
            ≡ given self.old ++ bytes_given (option_map (λ b. b.items) o)) }
        ensures ended { IfOk result (λ o. ended self.new ≡ is_none o) }
        ensures err { OnErr result (given self.new ≡ given self.old) };

    /// Shows a text to whoever types, where there is somebody. That it fails keeps no line from being read.
    fn greet(&mut self, text: &str)
        ensures given { given self.new ≡ given self.old };
}

/// The lines of a reader, as standard input. Before each a prompt is written, and before the first a greeting, where there is somebody to
/// see them.
#[derive(Drop)]
pub struct Typed<R, W> {
    reader: R,
    prompt: Option<W>,
    given: Taken,
    ended: bool,
}

/// What stands before the line that is to be typed.
const PROMPT: &str = "asl> ";

impl<R: BufRead, W: Write> Typed<R, W> {
    /// The lines of a reader; where the prompt is written, if it is.
    pub fn new(reader: R, prompt: Option<W>) -> Typed<R, W>
        ensures given { result.given.bytes ≡ [] }
    {
        Typed {
            reader,
            prompt,
            given: Taken::new(),
            ended: false,
        }
    }

    /// Writes a text where the prompt is written. That it fails keeps no line from being read.
    fn show(&mut self, text: &str)
        ensures given { self.new.given ≡ self.old.given }
    {
        if let Some(prompt) = &mut self.prompt {
            let _ = prompt.write_all(text.as_bytes());
        }
    }
}

impl<R: BufRead, W: Write> Input for Typed<R, W> {
    ghost given = { λ t. t.given.bytes };

    ghost ended = { λ t. t.ended };

    fn line(&mut self, alloc: Global) -> Result<Option<Vec<u8>>, ReadFault> {
        self.show(PROMPT);
        let line = read_line(alloc, &mut self.reader)?;
        self.ended = line.is_none();
        if let Some(line) = &line {
            self.given = self.given.with(line.as_slice()).with(b"\n");
        }
        Ok(line)
    }

    fn bytes(&mut self, alloc: Global) -> Result<Option<Vec<u8>>, ReadFault> {
        let bytes = read_bytes(alloc, &mut self.reader)?;
        self.ended = bytes.is_none();
        if let Some(bytes) = &bytes {
            self.given = self.given.with(bytes.as_slice());
        }
        Ok(bytes)
    }

    fn greet(&mut self, text: &str) {
        self.show(text);
    }
}

/// The bytes that the next read gives; none at the end. The fault is that a read failed, or that each of so many was interrupted.
fn read_bytes<R: BufRead>(alloc: Global, reader: &mut R) -> Result<Option<Vec<u8>>, ReadFault> {
    for _ in 0..MOST_BYTES {
        if let Some(bytes) = read_once(alloc, reader)? {
            return Ok(some_of(bytes));
        }
    }
    Err(ReadFault::Unreadable(Unreadable::TooLong))
}

/// The same, where there are some.
fn some_of(bytes: Vec<u8>) -> Option<Vec<u8>> {
    if bytes.is_empty() {
        return None;
    }
    Some(bytes)
}

/// A copy.
fn copied(alloc: Global, bytes: &[u8]) -> Result<Vec<u8>, ReadFault>
    ensures { IfOk result (λ v. v.items ≡ bytes.now) }
{
    match Vec::from_slice(alloc, bytes) {
        Ok(copy) => Ok(copy),
        Err(_) => Err(ReadFault::OutOfMemory),
    }
}

/// The bytes that one read gives, which are none at the end; `None` is that it was interrupted.
fn read_once<R: BufRead>(alloc: Global, reader: &mut R) -> Result<Option<Vec<u8>>, ReadFault> {
    let bytes = match reader.fill_buf() {
        Ok(bytes) => copied(alloc, bytes)?,
        Err(error) if error.kind() == ErrorKind::Interrupted => return Ok(None),
        Err(error) => return Err(fault_of(&error)),
    };
    reader.consume(bytes.len());
    Ok(Some(bytes))
}

/// Reads up to a line feed, or to the end. The fault is that a read failed, that the line has more than 16,777,216 bytes, or that so
/// many reads didn't reach its end.
fn read_line<R: BufRead>(alloc: Global, reader: &mut R) -> Result<Option<Vec<u8>>, ReadFault>
    ensures bound { IfOk result (λ o. IfSome o (λ l. length l.items ≤ most_bytes)) }
{
    let mut line = Vec::new(alloc);
    for _ in 0..MOST_BYTES {
        match read_piece(reader, &mut line)? {
            Piece::More => {}
            Piece::Line => return Ok(Some(line)),
            Piece::End if line.is_empty() => return Ok(None),
            Piece::End => return Ok(Some(line)),
        }
    }
    Err(ReadFault::Unreadable(Unreadable::TooLong))
}

/// What a read came to.
#[derive(Clone, Copy)]
enum Piece {
    /// The line goes on.
    More,
    /// Its line feed came.
    Line,
    /// The input ended.
    End,
}

/// Adds what the next read gives of a line.
fn read_piece<R: BufRead>(reader: &mut R, line: &mut Vec<u8>) -> Result<Piece, ReadFault>
    requires { length line.old.items ≤ most_bytes }
    ensures bound { IfOk result (λ _. length line.new.items ≤ most_bytes) }
{
    let (count, piece) = match reader.fill_buf() {
        Ok(bytes) => add_piece(line, bytes)?,
        Err(error) if error.kind() == ErrorKind::Interrupted => (0, Piece::More),
        Err(error) => return Err(fault_of(&error)),
    };
    reader.consume(count);
    Ok(piece)
}

/// Adds bytes up to the first line feed among them: how many are used up, and what they came to.
fn add_piece(line: &mut Vec<u8>, bytes: &[u8]) -> Result<(usize, Piece), ReadFault>
    requires { length line.old.items ≤ most_bytes }
    ensures bound { IfOk result (λ _. length line.new.items ≤ most_bytes) }
{
    if bytes.is_empty() {
        return Ok((0, Piece::End));
    }
    match line_feed_in(bytes) {
        Some(end) => {
            add(line, &bytes[..end])?;
            Ok((end + 1, Piece::Line))
        }
        None => {
            add(line, bytes)?;
            Ok((bytes.len(), Piece::More))
        }
    }
}

/// Where the first line feed stands.
fn line_feed_in(bytes: &[u8]) -> Option<usize>
    ensures { IfSome result (λ i. i < length bytes.now) }
{
    for (i, byte) in bytes.iter().enumerate() {
        if *byte == b'\n' {
            return Some(i);
        }
    }
    None
}
