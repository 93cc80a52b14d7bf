// All codes, and finding the one that a word means.
ghost use Rattle.std.specs.Prelude.{◌≡◌, ◌++◌, IfOk, OnOk, find, map, option_map, string_bytes};
ghost use Rattle.std.specs.List.{flat_map};
ghost use Rattle.asl_explain.specs.Codes.{asl_codes, code_of, codes_of, family_lines, first_meant, is_meant, IsListed, meant, whole_line};

use crate::saying::Explanation;
use crate::{
    closings, definitions, errors, expectations, json, lines, mocks, projects, refusals, rules,
    verdicts, warnings,
};
use std::alloc::{AllocError, Global};

/// All codes, a family each, in order.
pub fn families() -> [&'static [Explanation]; 12]
    ensures { codes_of result ≡ asl_codes }
{
    [
        definitions::all(),
        mocks::all(),
        json::all(),
        expectations::all(),
        projects::all(),
        lines::all(),
        refusals::all(),
        rules::all(),
        closings::all(),
        warnings::all(),
        verdicts::all(),
        errors::all(),
    ]
}

/// The explanation of the code that a word means: the first whose code or name it is; where none is just that, the first that is but for
/// the case of ASCII letters.
pub fn find(word: &str) -> Option<&'static Explanation>
    ensures { option_map (λ e. code_of e.now) result ≡ meant word.now }
{
    let families = families();
    match find_among(&families, true, word) {
        Some(one) => Some(one),
        None => find_among(&families, false, word),
    }
}

/// The first of these families that a word means, exactly or but for the case of ASCII letters.
fn find_among(
    families: &[&'static [Explanation]],
    exactly: bool,
    word: &str,
) -> Option<&'static Explanation>
    ensures { option_map (λ e. code_of e.now) result ≡ first_meant exactly word.now (codes_of families.now) }
{
    for family in families {
        if let Some(one) = find_in(family, exactly, word) {
            return Some(one);
        }
    }
    None
}

/// The same in one family.
fn find_in(
    family: &'static [Explanation],
    exactly: bool,
    word: &str,
) -> Option<&'static Explanation>
    ensures { option_map (λ e. code_of e.now) result ≡ find (is_meant exactly word.now) (map code_of family.entry.now) }
{
    for one in family {
        if one.is_meant(exactly, word) {
            return Some(one);
        }
    }
    None
}

/// The line of each code, in order. The error is that memory ran out.
pub fn list(alloc: Global) -> Result<String, AllocError>
    ensures { IfOk result (λ t. IsListed (string_bytes t)) }
{
    list_of(alloc, &families())
}

/// The line of each code of these families.
fn list_of(alloc: Global, families: &[&'static [Explanation]]) -> Result<String, AllocError>
    ensures { IfOk result (λ t. string_bytes t ≡ flat_map (λ f. family_lines f.now) families.now) }
{
    let mut out = String::new(alloc);
    for family in families {
        put_lines(&mut out, family)?;
    }
    Ok(out)
}

/// Appends the line of each code of a family.
fn put_lines(out: &mut String, family: &[Explanation]) -> Result<(), AllocError>
    ensures { OnOk result (string_bytes out.new ≡ string_bytes out.old ++ family_lines family.now) }
{
    for one in family {
        one.put_line(out)?;
        out.push('\n')?;
    }
    Ok(())
}
