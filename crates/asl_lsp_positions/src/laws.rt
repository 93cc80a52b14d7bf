// What holds of every text. There is no code here.
ghost use Rattle.std.specs.Prelude.{◌≡◌, ℕ, List, length};
ghost use Rattle.std.specs.Char.Escape.{encode_utf16};
ghost use Rattle.std.specs.List.{flat_map};
ghost use Rattle.std.specs.Str.{encode_utf8_all};
ghost use Rattle.asl_lsp_positions.specs.declared.position.Encoding.TheVariants.{Utf16};
ghost use Rattle.asl_lsp_positions.specs.declared.position.Encoding.{Encoding};
ghost use Rattle.asl_lsp_positions.specs.Lines.{Line, joined, AreLines};
ghost use Rattle.asl_lsp_positions.specs.Positions.{position, width};

/// The width of a text in UTF-8 is how many code units its characters have in UTF-16.
pub fn utf16_widths_count_code_units()
    ensures { (cs : List ℕ) → width Utf16 (encode_utf8_all cs) ≡ length (flat_map encode_utf16 cs) }
{}

/// Behind some lines and what stands in the next one, the position is the number of the lines and the width of what stands in the next one.
pub fn positions_count_lines()
    ensures { (e : Encoding) (ls : List Line) (rest : List ℕ) → AreLines ls rest
        → position e (joined ls rest) ≡ record { line = length ls; character = width e rest } }
{}
