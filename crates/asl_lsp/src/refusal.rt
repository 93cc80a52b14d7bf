// Why a request is refused.
ghost use Rattle.std.specs.Prelude.{◌≡◌};
ghost use Rattle.asl_lsp.specs.Refusals.{code_of, words_of, refusal_of};

use asl_json_rpc::ErrorCode;
use asl_lsp_features::RenameFault;

/// Why a message has an error for its answer.
#[derive(Clone, Copy, Debug, PartialEq, Eq)]
pub(crate) enum Refusal {
    /// It is no JSON text.
    NoJson,
    /// Its value is no request, notification or response.
    NoCall,
    /// The client hasn't initialized the server.
    NotInitialized,
    /// It has done so before.
    InitializedBefore,
    /// It has shut the server down.
    ShutDown,
    /// The server has no such method.
    UnknownMethod,
    /// The method takes no such parameters.
    BadParams,
    /// No name of a state stands where one is to be changed.
    NoState,
    /// The new name of a state can't be one.
    NoName,
    /// Another state has it.
    TakenName,
}

/// Why a state isn't renamed, as it is answered.
pub(crate) fn refusal_of(fault: RenameFault) -> Refusal
    ensures { result ≡ refusal_of fault }
{
    match fault {
        RenameFault::NoState => Refusal::NoState,
        RenameFault::NoName => Refusal::NoName,
        RenameFault::TakenName => Refusal::TakenName,
    }
}

impl Refusal {
    /// Its code.
    pub(crate) fn code(self) -> ErrorCode
        ensures { result ≡ code_of self }
    {
        match self {
            Refusal::NoJson => ErrorCode::ParseError,
            Refusal::NoCall | Refusal::InitializedBefore | Refusal::ShutDown => {
                ErrorCode::InvalidRequest
            }
            Refusal::NotInitialized => ErrorCode::ServerNotInitialized,
            Refusal::UnknownMethod => ErrorCode::MethodNotFound,
            Refusal::BadParams => ErrorCode::InvalidParams,
            Refusal::NoState | Refusal::NoName | Refusal::TakenName => ErrorCode::RequestFailed,
        }
    }

    /// One sentence.
    #[tactic(auto, unfolding(crate::specs::Refusals::words_of))]
    pub(crate) fn words(self) -> &'static str
        ensures { result.now ≡ words_of self }
    {
        match self {
            Refusal::NoJson => "The message is no JSON text.",
            Refusal::NoCall => "The message is no request, notification or response.",
            Refusal::NotInitialized => "The server isn't initialized.",
            Refusal::InitializedBefore => "The server is initialized already.",
            Refusal::ShutDown => "The server is shut down.",
            Refusal::UnknownMethod => "The server has no such method.",
            Refusal::BadParams => "The method takes no such parameters.",
            Refusal::NoState => "No name of a state stands there.",
            Refusal::NoName => "The name of a state has from 1 to 80 characters.",
            Refusal::TakenName => "A state of the definition has this name already.",
        }
    }
}
