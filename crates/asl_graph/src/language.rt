// The languages of graphs.

/// A language in which a graph is written.
#[derive(Clone, Copy, Debug, PartialEq, Eq)]
pub enum Language {
    /// A flowchart of Mermaid, as GitHub and GitLab draw it in Markdown.
    Mermaid,
    /// A directed graph of DOT, as Graphviz draws it.
    Dot,
}
