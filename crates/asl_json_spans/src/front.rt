// What stands in front of bytes that are known to be a JSON text.
ghost use Rattle.std.specs.Prelude.{◌≡◌, false, drop};
ghost use Rattle.asl_json_data.specs.Grammar.{is_space};
ghost use Rattle.asl_json_spans.specs.private.Marks.{behind_spaces, behind_quote, behind_text, behind_mark};

/// Whether a byte is a space, a tab, a line feed or a carriage return.
#[tactic(auto, unfolding(asl_json_data::specs::Grammar::is_space))]
fn is_space(byte: u8) -> bool
    ensures { result ≡ is_space byte }
{
    byte == b' ' || byte == b'\t' || byte == b'\n' || byte == b'\r'
}

/// What follows so many bytes; nothing where there are fewer.
pub(crate) fn skip(bytes: &[u8], count: usize) -> &[u8]
    ensures { result.now ≡ drop count bytes.now }
{
    let end = count.min(bytes.len());
    &bytes[end..]
}

/// What follows the spaces in front.
pub(crate) fn behind_spaces(bytes: &[u8]) -> &[u8]
    ensures { result.now ≡ behind_spaces bytes.now }
{
    let mut end = 0;
    while end < bytes.len() {
        if !is_space(bytes[end]) {
            return &bytes[end..];
        }
        end += 1;
    }
    &bytes[end..]
}

/// What follows the quote that closes a text, from behind the one that opens it.
fn behind_quote(bytes: &[u8]) -> &[u8]
    ensures { result.now ≡ behind_quote false bytes.now }
{
    let mut escaped = false;
    let mut end = 0;
    while end < bytes.len() {
        let byte = bytes[end];
        end += 1;
        if escaped {
            escaped = false;
        } else {
            if byte == b'"' {
                return &bytes[end..];
            }
            escaped = byte == b'\\';
        }
    }
    &bytes[end..]
}

/// What follows the text in quotes that stands in front.
pub(crate) fn behind_text(bytes: &[u8]) -> &[u8]
    ensures { result.now ≡ behind_text bytes.now }
{
    behind_quote(skip(bytes, 1))
}

/// What follows the comma, the colon, the bracket or the brace behind the spaces in front.
pub(crate) fn behind_mark(bytes: &[u8]) -> &[u8]
    ensures { result.now ≡ behind_mark bytes.now }
{
    skip(behind_spaces(bytes), 1)
}
