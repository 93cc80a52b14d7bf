// Numbers in header fields.
ghost use Rattle.std.specs.Prelude.{◌≡◌};
ghost use Rattle.asl_base_protocol.specs.Fields.{is_blank, behind_blanks, length_in};

/// The most digits of a length.
const MOST_DIGITS: usize = 9;

/// Whether a byte is a space or a tab.
fn is_blank(byte: u8) -> bool
    ensures { result ≡ is_blank byte }
{
    byte == b' ' || byte == b'\t'
}

/// What follows the spaces and tabs in front.
pub(crate) fn behind_blanks(bytes: &[u8]) -> &[u8]
    ensures { result.now ≡ behind_blanks bytes.now }
{
    let mut rest = bytes;
    while let [byte, behind @ ..] = rest {
        if !is_blank(*byte) {
            return rest;
        }
        rest = behind;
    }
    rest
}

/// The number that these bytes spell in one to nine decimal digits.
pub(crate) fn length_in(bytes: &[u8]) -> Option<usize>
    ensures { result ≡ length_in bytes.now }
{
    if bytes.is_empty() || bytes.len() > MOST_DIGITS {
        return None;
    }
    let mut number: usize = 0;
    for byte in bytes {
        if !byte.is_ascii_digit() {
            return None;
        }
        number = 10 * number + usize::from(*byte - b'0');
    }
    Some(number)
}
