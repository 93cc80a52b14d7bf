// What is said of a code.
ghost use Rattle.std.specs.Prelude.{◌≡◌, ◌++◌, IfOk, OnOk, option_map, string_bytes};
ghost use Rattle.asl_explain.specs.Codes.{behind, code_of, is_meant, is_name, is_same, line_of, told_of};

use std::alloc::{AllocError, Global};

/// What is said of a code.
#[derive(Clone, Copy)]
pub struct Explanation {
    /// The code as it is printed: `F10`, `no-default`, `States.Timeout`.
    pub(crate) code: &'static str,
    /// The name that stands behind a number, as `NoTarget` of `F10`.
    pub(crate) name: Option<&'static str>,
    /// What it means.
    pub(crate) sentence: &'static str,
    /// Paragraphs with an example, each line with its line feed.
    pub(crate) text: &'static str,
}

impl Explanation {
    /// The code as it is printed.
    pub fn code(&self) -> &'static str
        ensures { result.now ≡ (code_of self.now).code }
    {
        self.code
    }

    /// The name that stands behind a number.
    pub fn name(&self) -> Option<&'static str>
        ensures { option_map (λ n. n.now) result ≡ (code_of self.now).name }
    {
        self.name
    }

    /// Whether a word is its code or its name, exactly or but for the case of ASCII letters.
    pub(crate) fn is_meant(&self, exactly: bool, word: &str) -> bool
        ensures { result ≡ is_meant exactly word.now (code_of self.now) }
    {
        is_same(exactly, self.code, word) || is_name(exactly, self.name, word)
    }

    /// Appends its code, its name and its sentence, as a line without its line feed.
    pub(crate) fn put_line(&self, out: &mut String) -> Result<(), AllocError>
        ensures { OnOk result (string_bytes out.new ≡ string_bytes out.old ++ line_of self.now) }
    {
        out.push_str(self.code)?;
        put_behind(out, self.name)?;
        out.push_str(": ")?;
        out.push_str(self.sentence)
    }

    /// All that is told of it: its line, an empty line, and its text. The error is that memory ran out.
    pub fn told(&self, alloc: Global) -> Result<String, AllocError>
        ensures { IfOk result (λ t. string_bytes t ≡ told_of self.now) }
    {
        let mut out = String::new(alloc);
        self.put_line(&mut out)?;
        out.push_str("\n\n")?;
        out.push_str(self.text)?;
        Ok(out)
    }
}

/// Whether two texts are the same, exactly or but for the case of ASCII letters.
fn is_same(exactly: bool, text: &str, word: &str) -> bool
    ensures { result ≡ is_same exactly text.now word.now }
{
    if exactly {
        text == word
    } else {
        text.eq_ignore_ascii_case(word)
    }
}

/// Whether a word is this name, where there is one.
fn is_name(exactly: bool, name: Option<&str>, word: &str) -> bool
    ensures { result ≡ is_name exactly word.now (option_map (λ n. n.now) name.entry) }
{
    match name {
        Some(name) => is_same(exactly, name, word),
        None => false,
    }
}

/// Appends a space and this name, where there is one.
fn put_behind(out: &mut String, name: Option<&str>) -> Result<(), AllocError>
    ensures { OnOk result (string_bytes out.new ≡ string_bytes out.old ++ behind (option_map (λ n. n.now) name.entry)) }
{
    match name {
        Some(name) => {
            out.push(' ')?;
            out.push_str(name)
        }
        None => Ok(()),
    }
}
