// The words that a line may begin with.
ghost use Rattle.std.specs.Prelude.{◌≡◌, ◌≤◌, ◌++◌, length, IfSome, OnOk, string_bytes};
ghost use Rattle.asl_session_repl.specs.Words.{name_of, usage_of, about_of, first_begun, word_begun, words, help_line, help_lines};

use std::alloc::AllocError;

/// The first word of a line.
#[derive(Clone, Copy, PartialEq, Eq)]
pub enum Word {
    Step,
    Break,
    Clear,
    Resume,
    Show,
    Back,
    Next,
    Continue,
    Until,
    Places,
    Data,
    Events,
    Steps,
    Swap,
    Help,
    Quit,
}

/// Of two words of which one begins the other, the longer one comes first.
const ALL: [Word; 16] = [
    Word::Next,
    Word::Continue,
    Word::Until,
    Word::Steps,
    Word::Step,
    Word::Break,
    Word::Clear,
    Word::Resume,
    Word::Back,
    Word::Places,
    Word::Show,
    Word::Data,
    Word::Events,
    Word::Swap,
    Word::Help,
    Word::Quit,
];

/// The first of these words with which a line begins.
fn first_begun(line: &[u8], words: &[Word]) -> Option<Word>
    ensures word { result ≡ first_begun line.now words.now }
    ensures room { IfSome result (λ w. length (name_of w) ≤ length line.now) }
{
    for word in words {
        if line.starts_with(word.name().as_bytes()) {
            return Some(*word);
        }
    }
    None
}

impl Word {
    /// How it is spelled.
    #[tactic(auto, unfolding(crate::specs::Words::name_of))]
    pub fn name(self) -> &'static str
        ensures { result.now ≡ name_of self }
    {
        match self {
            Word::Step => "step",
            Word::Break => "break",
            Word::Clear => "clear",
            Word::Resume => "resume",
            Word::Show => "show",
            Word::Back => "back",
            Word::Next => "next",
            Word::Continue => "continue",
            Word::Until => "until",
            Word::Places => "places",
            Word::Data => "data",
            Word::Events => "events",
            Word::Steps => "steps",
            Word::Swap => "swap",
            Word::Help => "help",
            Word::Quit => "quit",
        }
    }

    /// A line with it, in capitals what stands for something else, in brackets what may be left out.
    #[tactic(auto, unfolding(crate::specs::Words::usage_of))]
    pub fn usage(self) -> &'static str
        ensures { result.now ≡ usage_of self }
    {
        match self {
            Word::Step => "step PLACE [MOMENT]",
            Word::Break => "break NAME, or break on error",
            Word::Clear => "clear NAME, or clear on error",
            Word::Resume => "resume PLACE",
            Word::Show => "show PLACE",
            Word::Back => "back N",
            Word::Next => "next [N]",
            Word::Continue => "continue",
            Word::Until => "until MOMENT",
            Word::Places => "places",
            Word::Data => "data PLACE",
            Word::Events => "events [N]",
            Word::Steps => "steps",
            Word::Swap => "swap PLACE MOMENT PLACE MOMENT",
            Word::Help => "help",
            Word::Quit => "quit",
        }
    }

    /// What the line does.
    #[tactic(auto, unfolding(crate::specs::Words::about_of))]
    pub fn about(self) -> &'static str
        ensures { result.now ≡ about_of self }
    {
        match self {
            Word::Step =>
                "takes a step of the branch at a place, as early as it may without a moment",
            Word::Break =>
                "lets branches pause before they enter a state, or next, continue and until stop where something failed",
            Word::Clear => "takes that back",
            Word::Resume => "lets the branch at a place go on, which pauses",
            Word::Show => "shows what the branch at a place is doing",
            Word::Back => "takes the last N steps back",
            Word::Next => "takes the step that comes next, or N of them",
            Word::Continue => "takes steps until a branch pauses, or none comes next",
            Word::Until =>
                "takes the steps that come next, none later than a moment, as 1970-01-01T00:00:05Z or +5s",
            Word::Places => "shows the running branches, and what a step now would be replied",
            Word::Data => "shows the data of the branch at a place",
            Word::Events => "shows the last 10 events, or the last N",
            Word::Steps => "shows the steps so far, as a steps file",
            Word::Swap => "tells whether two steps may change places",
            Word::Help => "shows these lines",
            Word::Quit => "ends; so does the end of the input",
        }
    }

    /// The word with which a line begins.
    pub fn beginning(line: &[u8]) -> Option<Word>
        ensures word { result ≡ word_begun line.now }
        ensures room { IfSome result (λ w. length (name_of w) ≤ length line.now) }
    {
        first_begun(line, &ALL)
    }
}

/// Appends the line that tells of a word. The error is that memory ran out.
fn put_help_line(out: &mut String, word: Word) -> Result<(), AllocError>
    ensures { OnOk result (string_bytes out.new ≡ string_bytes out.old ++ help_line word) }
{
    out.push_str(word.usage())?;
    out.push_str(": ")?;
    out.push_str(word.about())?;
    out.push('\n')
}

/// Appends the lines that tell of these words. The error is that memory ran out.
fn put_help_lines(out: &mut String, words: &[Word]) -> Result<(), AllocError>
    ensures { OnOk result (string_bytes out.new ≡ string_bytes out.old ++ help_lines words.now) }
{
    for word in words {
        put_help_line(out, *word)?;
    }
    Ok(())
}

/// Appends a line for each word. The error is that memory ran out.
pub(crate) fn put_help(out: &mut String) -> Result<(), AllocError>
    ensures { OnOk result (string_bytes out.new ≡ string_bytes out.old ++ help_lines words) }
{
    put_help_lines(out, &ALL)
}
