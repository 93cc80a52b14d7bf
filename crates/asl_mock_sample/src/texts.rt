// Texts by their beginnings and ends.
ghost use Rattle.std.specs.Prelude.{◌≡◌, ◌<◌, nat_eq, option_map};
ghost use Rattle.std.specs.List.{starts_with, ends_with};
ghost use Rattle.asl_mock_sample.specs.Texts.{cut};

/// Whether a text begins with a word.
pub(crate) fn begins(text: &str, word: &str) -> bool
    ensures { result ≡ starts_with nat_eq text.now word.now }
{
    text.starts_with(word)
}

/// Whether a text ends in a word.
pub(crate) fn ends(text: &str, word: &str) -> bool
    ensures { result ≡ ends_with nat_eq text.now word.now }
{
    text.ends_with(word)
}

/// What stands before the first of these characters, and behind it.
pub(crate) fn cut(text: &str, at: char) -> Option<(&str, &str)>
    requires { at < 128 }
    ensures { option_map (λ x. (x.0.now, x.1.now)) result ≡ cut at text.now }
{
    text.split_once(at)
}
