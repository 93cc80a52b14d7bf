// Examples of the protocol.
use asl_lsp_positions::{Encoding, Positions};
use std::test::Fail;

/// The example of "Text Documents": the offsets of `a`, `𐐀` and `b` are 0, 1 and 3, since `𐐀` has two code units in UTF-16; in UTF-8 it has four bytes, so
/// that `b` is at 5.
#[test]
fn a_character_above_the_first_plane_counts_twice(rt: HostRuntime) -> Result<(), Fail> {
    let alloc = rt.alloc();
    let text = "a\u{10400}b";
    let units = Positions::of(alloc, Encoding::Utf16, text)?;
    assert_eq!(rt; units.at(0).character, 0, "a");
    assert_eq!(rt; units.at(1).character, 1, "the character");
    assert_eq!(rt; units.at(5).character, 3, "b");
    let bytes = Positions::of(alloc, Encoding::Utf8, text)?;
    assert_eq!(rt; bytes.at(1).character, 1, "the character, in bytes");
    assert_eq!(rt; bytes.at(5).character, 5, "b, in bytes");
    Ok(())
}

/// `export const EOL: string[] = ['\n', '\r\n', '\r'];`
#[test]
fn lines_end_in_three_ways(rt: HostRuntime) -> Result<(), Fail> {
    let alloc = rt.alloc();
    let positions = Positions::of(alloc, Encoding::Utf16, "a\nb\r\nc\rde\r\r\n\n")?;
    for (offset, line, character) in [
        (0, 0, 0),
        (1, 0, 1),
        (2, 1, 0),
        (5, 2, 0),
        (7, 3, 0),
        (9, 3, 2),
        (10, 4, 0),
        (12, 5, 0),
        (13, 6, 0),
        (99, 6, 0),
    ] {
        let position = positions.at(offset);
        assert_eq!(rt; position.line, line, "the line of {offset}");
        assert_eq!(rt;
            position.character,
            character,
            "the offset of {offset} in its line"
        );
    }
    Ok(())
}

/// Every offset of a text of one long line, whose places are kept by strides.
#[test]
fn a_long_line_is_counted_through(rt: HostRuntime) -> Result<(), Fail> {
    let alloc = rt.alloc();
    let mut text = String::new(alloc);
    for _ in 0..400 {
        text.push('\u{e9}')?;
    }
    let positions = Positions::of(alloc, Encoding::Utf16, text.as_str())?;
    for offset in [0, 254, 256, 258, 512, 770, 800] {
        assert_eq!(rt; positions.at(offset).line, 0, "the line of {offset}");
        assert_eq!(rt;
            positions.at(offset).character,
            offset / 2,
            "the offset {offset}"
        );
    }
    Ok(())
}
