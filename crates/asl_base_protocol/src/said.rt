// What a header part says of the length of the content part.
ghost use Rattle.std.specs.Prelude.{◌≡◌, ◌<◌, length, IfSome};
ghost use Rattle.std.specs.List.{position};
ghost use Rattle.asl_base_protocol.specs.Fields.{said_with, said_by, is_colon, is_content_length};

use crate::field::{behind_blanks, length_in};

/// What the lines of a header part say of the length of the content part.
#[derive(Clone, Copy)]
pub(crate) enum Said {
    Nothing,
    /// It has so many bytes.
    Length(usize),
    /// A line is no field, or the length isn't said once and as a number.
    Fault,
}

/// Whether this is the name of the field that says the length.
fn is_content_length(name: &[u8]) -> bool
    ensures { result ≡ is_content_length name.now }
{
    name.eq_ignore_ascii_case(b"Content-Length")
}

/// Where the first colon stands.
fn colon_in(line: &[u8]) -> Option<usize>
    ensures colon { result ≡ position is_colon line.now }
    ensures bound { IfSome result (λ i. i < length line.now) }
{
    line.iter().position(|byte| *byte == b':')
}

impl Said {
    /// With one more field that says the length.
    fn with_length(self, length: Option<usize>) -> Said
        ensures { result ≡ said_with self length }
    {
        match (self, length) {
            (Said::Nothing, Some(length)) => Said::Length(length),
            _ => Said::Fault,
        }
    }

    /// With one more line.
    pub(crate) fn with(self, line: &[u8]) -> Said
        ensures { result ≡ said_by self line.now }
    {
        let Some(colon) = colon_in(line) else {
            return Said::Fault;
        };
        if !is_content_length(&line[..colon]) {
            return self;
        }
        self.with_length(length_in(behind_blanks(&line[colon + 1..])))
    }
}
