// What happens to documents.
ghost use Rattle.std.specs.Prelude.{◌≡◌, IfOk, OnOk, OnErr, option_map, string_bytes};
ghost use Rattle.asl_json_rpc.specs.Calls.{seen};
ghost use Rattle.asl_lsp.specs.Replies.{IsSent};
ghost use Rattle.asl_lsp.specs.Sessions.{begun, accepted, changed, saved, closed, opened_by, changed_by, noted};

use crate::diagnostics::{clear, diagnose};
use crate::document::Document;
use crate::documents::Documents;
use crate::method::Notification;
use crate::params::{changed_document, opened_document, uri_of};
use asl_json::Json;
use asl_lsp_positions::Encoding;
use std::alloc::{AllocError, Global};

/// What lasts from `initialize` to `shutdown`.
#[derive(Drop)]
pub(crate) struct Session {
    /// What positions count.
    pub(crate) encoding: Encoding,
    pub(crate) documents: Documents,
}

impl Session {
    /// No document is open.
    pub(crate) fn begin(alloc: Global, encoding: Encoding) -> Session
        ensures { result ≡ begun encoding }
    {
        Session {
            encoding,
            documents: Documents::new(alloc),
        }
    }

    /// A document stands so from now on, and what is found in it is told.
    fn accept(&mut self, alloc: Global, document: Document) -> Result<Option<String>, AllocError>
        ensures sent { IfOk result (λ o. IsSent (accepted self.old document).1 (option_map (λ t. string_bytes t) o)) }
        ensures next { OnOk result (self.new ≡ (accepted self.old document).0) }
        ensures err { OnErr result (self.new ≡ self.old) }
    {
        let told = diagnose(alloc, self.encoding, &document)?;
        self.documents.put(document)?;
        Ok(Some(told))
    }

    /// The same of a document that is opened.
    fn open(&mut self, alloc: Global, params: Option<&Json>) -> Result<Option<String>, AllocError>
        ensures sent { IfOk result (λ o. IsSent (opened_by self.old (seen params.entry)).1 (option_map (λ t. string_bytes t) o)) }
        ensures next { OnOk result (self.new ≡ (opened_by self.old (seen params.entry)).0) }
        ensures err { OnErr result (self.new ≡ self.old) }
    {
        match opened_document(alloc, params)? {
            Some(document) => self.accept(alloc, document),
            None => Ok(None),
        }
    }

    /// The same of a document that is changed, where it is open.
    fn change(&mut self, alloc: Global, document: Document) -> Result<Option<String>, AllocError>
        ensures sent { IfOk result (λ o. IsSent (changed self.old document).1 (option_map (λ t. string_bytes t) o)) }
        ensures next { OnOk result (self.new ≡ (changed self.old document).0) }
        ensures err { OnErr result (self.new ≡ self.old) }
    {
        if !self.documents.is_open(document.uri.as_str()) {
            return Ok(None);
        }
        self.accept(alloc, document)
    }

    fn change_by(
        &mut self,
        alloc: Global,
        params: Option<&Json>,
    ) -> Result<Option<String>, AllocError>
        ensures sent { IfOk result (λ o. IsSent (changed_by self.old (seen params.entry)).1 (option_map (λ t. string_bytes t) o)) }
        ensures next { OnOk result (self.new ≡ (changed_by self.old (seen params.entry)).0) }
        ensures err { OnErr result (self.new ≡ self.old) }
    {
        match changed_document(alloc, params)? {
            Some(document) => self.change(alloc, document),
            None => Ok(None),
        }
    }

    /// What is found in a document is told again, where it is open.
    fn save(&self, alloc: Global, params: Option<&Json>) -> Result<Option<String>, AllocError>
        ensures { IfOk result (λ o. IsSent (saved self.now (seen params.entry)) (option_map (λ t. string_bytes t) o)) }
    {
        let Some(uri) = uri_of(params) else {
            return Ok(None);
        };
        let Some(document) = self.documents.find(uri) else {
            return Ok(None);
        };
        let told = diagnose(alloc, self.encoding, document)?;
        Ok(Some(told))
    }

    /// A document isn't open any more, and nothing is told of it.
    fn close(&mut self, alloc: Global, params: Option<&Json>) -> Result<Option<String>, AllocError>
        ensures sent { IfOk result (λ o. IsSent (closed self.old (seen params.entry)).1 (option_map (λ t. string_bytes t) o)) }
        ensures next { OnOk result (self.new ≡ (closed self.old (seen params.entry)).0) }
        ensures err { OnErr result (self.new ≡ self.old) }
    {
        let Some(uri) = uri_of(params) else {
            return Ok(None);
        };
        if !self.documents.is_open(uri) {
            return Ok(None);
        }
        let told = clear(alloc, uri)?;
        self.documents.remove(uri);
        Ok(Some(told))
    }

    /// What a notification does to documents, and what is sent then. The error is that memory ran out, and nothing changed.
    pub(crate) fn note(
        &mut self,
        alloc: Global,
        notification: Notification,
        params: Option<&Json>,
    ) -> Result<Option<String>, AllocError>
        ensures sent { IfOk result (λ o. IsSent (noted self.old notification (seen params.entry)).1 (option_map (λ t. string_bytes t) o)) }
        ensures next { OnOk result (self.new ≡ (noted self.old notification (seen params.entry)).0) }
        ensures err { OnErr result (self.new ≡ self.old) }
    {
        match notification {
            Notification::DidOpen => self.open(alloc, params),
            Notification::DidChange => self.change_by(alloc, params),
            Notification::DidSave => self.save(alloc, params),
            Notification::DidClose => self.close(alloc, params),
            Notification::Exit | Notification::Unknown => Ok(None),
        }
    }
}
