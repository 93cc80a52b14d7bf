// Codes of errors.
ghost use Rattle.std.specs.Prelude.{◌≡◌};
ghost use Rattle.asl_json_rpc.specs.Printing.{code_text};

/// Why a request has no result (JSON-RPC 2.0, "Error object"; Language Server Protocol 3.17, "Response Message").
#[derive(Clone, Copy, Debug, PartialEq, Eq)]
pub enum ErrorCode {
    /// The message is no JSON text.
    ParseError,
    /// Its value is no request.
    InvalidRequest,
    /// There is no such method.
    MethodNotFound,
    /// The method takes no such parameters.
    InvalidParams,
    /// The server has received no `initialize` so far.
    ServerNotInitialized,
    /// The request fits, and can't be met.
    RequestFailed,
}

impl ErrorCode {
    /// The number, as JSON.
    pub fn text(self) -> &'static str
        ensures { result.now ≡ code_text self }
    {
        match self {
            ErrorCode::ParseError => "-32700",
            ErrorCode::InvalidRequest => "-32600",
            ErrorCode::MethodNotFound => "-32601",
            ErrorCode::InvalidParams => "-32602",
            ErrorCode::ServerNotInitialized => "-32002",
            ErrorCode::RequestFailed => "-32803",
        }
    }
}
