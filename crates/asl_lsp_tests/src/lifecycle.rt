// Messages that come at a wrong time, or that are none.
use crate::session::sent;
use asl_lsp::Server;
use std::test::Fail;

/// Each message, and what is sent for it.
const MESSAGES: &[(&str, &str)] = &[
    (
        r#"{"jsonrpc":"2.0","id":1,"method":"shutdown"}"#,
        r#"{"jsonrpc":"2.0","id":1,"error":{"code":-32002,"message":"The server isn't initialized."}}"#,
    ),
    (
        r#"{"jsonrpc":"2.0","method":"textDocument/didSave","params":{"textDocument":{"uri":"a"}}}"#,
        "-",
    ),
    (
        r#"{"jsonrpc":"2.0","id":2,"method":"initialize"}"#,
        r#"{"jsonrpc":"2.0","id":2,"error":{"code":-32602,"message":"The method takes no such parameters."}}"#,
    ),
    (
        r#"{"jsonrpc":"2.0","id":3,"method":"initialize","params":{"capabilities":{}}}"#,
        "{\"jsonrpc\":\"2.0\",\"id\":3,\"result\":{\"capabilities\":{\"positionEncoding\":\"utf-16\",\"textDocumentSync\":{\"openClose\":tr\
         ue,\"change\":1,\"save\":true},\"definitionProvider\":true,\"referencesProvider\":true,\"documentFormattingProvider\":true,\"re\
         nameProvider\":{\"prepareProvider\":true}},\"serverInfo\":{\"name\":\"asl\",\"version\":\"0.1.0\"}}}",
    ),
    (
        r#"{"jsonrpc":"2.0","id":4,"method":"initialize","params":{"capabilities":{}}}"#,
        r#"{"jsonrpc":"2.0","id":4,"error":{"code":-32600,"message":"The server is initialized already."}}"#,
    ),
    (
        r#"{"jsonrpc":"2.0","id":5,"method":"textDocument/hover","params":{}}"#,
        r#"{"jsonrpc":"2.0","id":5,"error":{"code":-32601,"message":"The server has no such method."}}"#,
    ),
    (
        r#"{"jsonrpc":"2.0","method":"$/cancelRequest","params":{"id":5}}"#,
        "-",
    ),
    (
        r#"{"jsonrpc":"2.0","method":"textDocument/didOpen","params":{"textDocument":{"uri":"a"}}}"#,
        "-",
    ),
    (
        r#"{"jsonrpc":"2.0","method":"textDocument/didChange","params":{"textDocument":{"uri":"a","version":1},"contentChanges":[{"text":"{}"}]}}"#,
        "-",
    ),
    (r#"{"jsonrpc":"2.0","id":6,"result":null}"#, "-"),
    (
        "{",
        r#"{"jsonrpc":"2.0","id":null,"error":{"code":-32700,"message":"The message is no JSON text."}}"#,
    ),
    (
        "[]",
        r#"{"jsonrpc":"2.0","id":null,"error":{"code":-32600,"message":"The message is no request, notification or response."}}"#,
    ),
    (
        r#"{"jsonrpc":"2.0","id":7,"method":"shutdown"}"#,
        r#"{"jsonrpc":"2.0","id":7,"result":null}"#,
    ),
    (
        r#"{"jsonrpc":"2.0","id":8,"method":"shutdown"}"#,
        r#"{"jsonrpc":"2.0","id":8,"error":{"code":-32600,"message":"The server is shut down."}}"#,
    ),
];

#[test]
fn messages_at_a_wrong_time_are_refused(rt: HostRuntime) -> Result<(), Fail> {
    let alloc = rt.alloc();
    let mut server = Server::new();
    for (message, answer) in MESSAGES {
        assert_eq!(rt;
            sent(alloc, &mut server, *message)?.as_str(),
            *answer,
            "{message}"
        );
    }
    assert!(rt; !server.has_ended(), "before exit");
    Ok(())
}
