// The open documents.
ghost use Rattle.std.specs.Prelude.{◌≡◌, [], OnOk, OnErr, option_map};
ghost use Rattle.asl_lsp.specs.Documents.{document_index, found, is_open, put, without};

use crate::document::Document;
use std::alloc::{AllocError, Global};
use std::marker::Model;

/// The documents that are open, each URI at most once. Contracts see them as a list.
#[derive(Drop)]
pub(crate) struct Documents {
    list: Vec<Document>,
}

impl Model for Documents {
    ghost use Rattle.std.specs.Prelude.{List};
    ghost use Rattle.asl_lsp.specs.declared.document.Document.{Document};

    ghost Value = { List Document };

    ghost view = { λ d. d.list.items };
}

impl Documents {
    /// None.
    pub(crate) fn new(alloc: Global) -> Documents
        ensures { result ≡ [] }
    {
        Documents {
            list: Vec::new(alloc),
        }
    }

    /// The number of the document with this URI.
    fn index(&self, uri: &str) -> Option<usize>
        ensures { result ≡ document_index uri.now self.now }
    {
        for (i, document) in self.list.iter().enumerate() {
            if uri == document.uri.as_str() {
                return Some(i);
            }
        }
        None
    }

    /// The document with this URI.
    pub(crate) fn find(&self, uri: &str) -> Option<&Document>
        ensures { option_map (λ d. d.now) result ≡ found uri.now self.now }
    {
        for document in &self.list {
            if uri == document.uri.as_str() {
                return Some(document);
            }
        }
        None
    }

    /// Whether there is one.
    pub(crate) fn is_open(&self, uri: &str) -> bool
        ensures { result ≡ is_open uri.now self.now }
    {
        self.find(uri).is_some()
    }

    /// Puts a document in place of the one with its URI, else behind the others. The error is that memory ran out, and nothing changed.
    pub(crate) fn put(&mut self, document: Document) -> Result<(), AllocError>
        ensures ok { OnOk result (self.new ≡ put document self.old) }
        ensures err { OnErr result (self.new ≡ self.old) }
    {
        match self.index(document.uri.as_str()) {
            Some(i) => {
                self.list[i] = document;
                Ok(())
            }
            None => {
                self.list.push(document)?;
                Ok(())
            }
        }
    }

    /// The document with this URI isn't open any more.
    pub(crate) fn remove(&mut self, uri: &str)
        ensures { self.new ≡ without uri.now self.old }
    {
        self.list.retain(|document| document.uri.as_str() != uri);
    }
}
