// A document.
use asl_json::{Dec, Txt};

/// A document that is open in the editor (Language Server Protocol 3.17, "TextDocumentItem").
#[derive(Drop)]
pub(crate) struct Document {
    pub(crate) uri: Txt,
    /// An integer, as it is spelled; it grows with each change.
    pub(crate) version: Dec,
    pub(crate) text: Txt,
}
