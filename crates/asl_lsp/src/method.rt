// The methods that the server has.
ghost use Rattle.std.specs.Prelude.{◌≡◌};
ghost use Rattle.asl_lsp.specs.Methods.{request_of, notification_of};

/// The methods that ask for something about a document (Language Server Protocol 3.17, "Language Features").
#[derive(Clone, Copy, Debug, PartialEq, Eq)]
pub(crate) enum Query {
    /// `textDocument/formatting`.
    Formatting,
    /// `textDocument/definition`.
    Definition,
    /// `textDocument/references`.
    References,
    /// `textDocument/prepareRename`.
    PrepareRename,
    /// `textDocument/rename`.
    Rename,
}

/// The methods of requests (Language Server Protocol 3.17, "Lifecycle Messages" and "Language Features").
#[derive(Clone, Copy, Debug, PartialEq, Eq)]
pub(crate) enum Request {
    /// `initialize`: the client begins.
    Initialize,
    /// `shutdown`: it is about to end.
    Shutdown,
    /// What asks for something about a document.
    About(Query),
    /// A method that the server doesn't have.
    Unknown,
}

/// The methods of notifications (Language Server Protocol 3.17, "Lifecycle Messages" and "Text Document Synchronization").
#[derive(Clone, Copy, Debug, PartialEq, Eq)]
pub(crate) enum Notification {
    /// `exit`: the server ends.
    Exit,
    /// `textDocument/didOpen`.
    DidOpen,
    /// `textDocument/didChange`.
    DidChange,
    /// `textDocument/didSave`.
    DidSave,
    /// `textDocument/didClose`.
    DidClose,
    /// A method of which the server makes nothing.
    Unknown,
}

pub(crate) fn request_of(method: &str) -> Request
    ensures { result ≡ request_of method.now }
{
    match method {
        "initialize" => Request::Initialize,
        "shutdown" => Request::Shutdown,
        "textDocument/formatting" => Request::About(Query::Formatting),
        "textDocument/definition" => Request::About(Query::Definition),
        "textDocument/references" => Request::About(Query::References),
        "textDocument/prepareRename" => Request::About(Query::PrepareRename),
        "textDocument/rename" => Request::About(Query::Rename),
        _ => Request::Unknown,
    }
}

pub(crate) fn notification_of(method: &str) -> Notification
    ensures { result ≡ notification_of method.now }
{
    match method {
        "exit" => Notification::Exit,
        "textDocument/didOpen" => Notification::DidOpen,
        "textDocument/didChange" => Notification::DidChange,
        "textDocument/didSave" => Notification::DidSave,
        "textDocument/didClose" => Notification::DidClose,
        _ => Notification::Unknown,
    }
}
