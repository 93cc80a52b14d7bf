// Places in a value, as text.
ghost use Rattle.std.specs.Prelude.{◌≡◌, ◌++◌, [], IfOk, OnOk, string_bytes};
ghost use Rattle.std.specs.Fmt.{WritesOnOk};
ghost use Rattle.asl_json_write.specs.Pointers.{escaped_char, escaped, name_part, index_part, with_pointer};

use std::alloc::{AllocError, Global};
use std::fmt;
use std::marker::Model;

/// A place in a value as a JSON Pointer (RFC 6901), as `/a/0`. Contracts see it as its text.
pub struct Pointer {
    text: String,
}

// Written out, so that a caller's proof sees one call and not the drop of each part.
impl Drop for Pointer {
    fn drop(self) {
        let Pointer { text: _text } = self;
    }
}

impl Model for Pointer {
    ghost use Rattle.std.specs.Prelude.{List, ℕ, string_bytes};

    ghost Value = { List ℕ };

    ghost view = { λ a. string_bytes a.text };
}

fn put_char(out: &mut String, c: char) -> Result<(), AllocError>
    ensures { OnOk result (string_bytes out.new ≡ string_bytes out.old ++ escaped_char c) }
{
    match c {
        '~' => out.push_str("~0"),
        '/' => out.push_str("~1"),
        c => out.push(c),
    }
}

fn put_name(out: &mut String, name: &str) -> Result<(), AllocError>
    ensures { OnOk result (string_bytes out.new ≡ string_bytes out.old ++ escaped name.now) }
{
    for c in name.chars() {
        put_char(out, c)?;
    }
    Ok(())
}

impl Pointer {
    /// The place of the whole value.
    pub fn whole(alloc: Global) -> Pointer
        ensures { result ≡ [] }
    {
        Pointer {
            text: String::new(alloc),
        }
    }

    /// The place of the member of this name. The error is that memory ran out.
    pub fn at_name(self, name: &str) -> Result<Pointer, AllocError>
        ensures { IfOk result (λ p. p ≡ self ++ name_part name.now) }
    {
        let Pointer { mut text } = self;
        text.push('/')?;
        put_name(&mut text, name)?;
        Ok(Pointer { text })
    }

    /// The place of the item of this number, counted from 0. The error is that memory ran out.
    pub fn at_index(self, index: usize) -> Result<Pointer, AllocError>
        ensures { IfOk result (λ p. p ≡ self ++ index_part index) }
    {
        let Pointer { mut text } = self;
        write!(text, "/{index}")?;
        Ok(Pointer { text })
    }

    /// The text of the pointer.
    pub fn as_str(&self) -> &str
        ensures { result.now ≡ self.now }
    {
        self.text.as_str()
    }

    /// Writes words and behind them this place, as `M2 Shape /a/0`. The place of the whole value isn't written.
    pub fn write_behind<W: fmt::Write>(&self, words: &str, f: &mut fmt::Formatter<W>) -> fmt::Result
        ensures { WritesOnOk W.write_str_gives f.old result (with_pointer words.now self.now) f.new }
    {
        let place = self.as_str();
        if place.is_empty() {
            return f.write_str(words);
        }
        write!(f, "{words} {place}")
    }
}

impl fmt::Display for Pointer {
    ghost use Rattle.std.specs.Prelude.{Some};

    ghost output = { λ p. Some p };

    fn fmt<W: fmt::Write>(&self, f: &mut fmt::Formatter<W>) -> fmt::Result {
        f.write_str(self.as_str())
    }
}

impl fmt::Debug for Pointer {
    fn fmt<W: fmt::Write>(&self, f: &mut fmt::Formatter<W>) -> fmt::Result {
        fmt::Debug::fmt(self.as_str(), f)
    }
}
