// What holds of all runs. There is no code here.
ghost use Rattle.std.specs.Prelude.{◌≡◌, ℕ, List, Option, Some, None, true, map};
ghost use Rattle.std.specs.List.{filter};
ghost use Rattle.asl_json_data.specs.Data.{Data};
ghost use Rattle.asl_lsp.specs.declared.document.Document.{Document};
ghost use Rattle.asl_lsp.specs.declared.phase.Phase.{Phase};
ghost use Rattle.asl_lsp.specs.declared.session.Session.{Session};
ghost use Rattle.asl_lsp.specs.Documents.{found, is_open};
ghost use Rattle.asl_lsp.specs.Params.{uri_of, opened_document, changed_document};
ghost use Rattle.asl_lsp.specs.Sessions.{opened_by, changed_by, closed};
ghost use Rattle.asl_lsp.specs.Runs.{Call, sent_for, answered_id, asked_id, concerns, sent_about};

/// Wherever a server is in its life, each request is answered once, at once and with its id; a notification and a response never are.
pub fn each_request_is_answered_once()
    ensures { (p : Phase) (cs : List Call) → map answered_id (sent_for p cs) ≡ map asked_id cs }
{}

/// What is sent of a document depends on the messages about it alone, and on those about none: whatever is said of other documents makes no difference.
pub fn other_documents_make_no_difference()
    ensures { (u : List ℕ) (p : Phase) (cs : List Call) → sent_about u p cs
        ≡ sent_for p (filter (concerns u) cs) }
{}

/// A document that is open has the text that it was opened with, or that of its last change.
pub fn an_open_document_has_its_last_text()
    ensures opened { (s : Session) (ps : Option Data) (d : Document) → opened_document ps ≡ Some d
        → found d.uri (opened_by s ps).0.documents ≡ Some d }
    ensures changed { (s : Session) (ps : Option Data) (d : Document) → changed_document ps ≡ Some d
        → is_open d.uri s.documents ≡ true → found d.uri (changed_by s ps).0.documents ≡ Some d }
    ensures closed { (s : Session) (ps : Option Data) (u : List ℕ) → uri_of ps ≡ Some u
        → found u (closed s ps).0.documents ≡ None }
{}
