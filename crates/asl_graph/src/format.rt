// How graphs are printed.
ghost use Rattle.std.specs.Prelude.{◌≡◌};
ghost use Rattle.asl_graph.specs.Formats.{language_of, opening, closing};

use crate::language::Language;

/// How a graph is printed.
#[derive(Clone, Copy, Debug, PartialEq, Eq)]
pub enum Format {
    /// A flowchart of Mermaid.
    Mermaid,
    /// A flowchart of Mermaid in a fenced block of Markdown, as a README has it.
    Markdown,
    /// A directed graph of DOT.
    Dot,
}

impl Format {
    pub(crate) fn language(self) -> Language
        ensures { result ≡ language_of self }
    {
        match self {
            Format::Mermaid | Format::Markdown => Language::Mermaid,
            Format::Dot => Language::Dot,
        }
    }

    #[tactic(auto, unfolding(crate::specs::Formats::opening))]
    pub(crate) fn opening(self) -> &'static str
        ensures { result.now ≡ opening self }
    {
        match self {
            Format::Markdown => "```mermaid\n",
            Format::Mermaid | Format::Dot => "",
        }
    }

    #[tactic(auto, unfolding(crate::specs::Formats::closing))]
    pub(crate) fn closing(self) -> &'static str
        ensures { result.now ≡ closing self }
    {
        match self {
            Format::Markdown => "```\n",
            Format::Mermaid | Format::Dot => "",
        }
    }
}
