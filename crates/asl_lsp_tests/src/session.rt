// A session from its beginning to its end.
use asl_lsp::Server;
use std::alloc::{AllocError, Global};
use std::test::Fail;

/// What is sent for a message; a dash where nothing is.
pub(crate) fn sent(
    alloc: Global,
    server: &mut Server,
    message: &str,
) -> Result<String, AllocError> {
    match server.receive(alloc, message.as_bytes())? {
        Some(text) => Ok(text),
        None => String::from_str(alloc, "-"),
    }
}

/// Each message, and what is sent for it. (The fault stands in the README, with these words.)
const SESSION: &[(&str, &str)] = &[
    (
        r#"{"jsonrpc":"2.0","id":1,"method":"initialize","params":{"processId":null,"rootUri":null,"capabilities":{}}}"#,
        "{\"jsonrpc\":\"2.0\",\"id\":1,\"result\":{\"capabilities\":{\"positionEncoding\":\"utf-16\",\"textDocumentSync\":{\"openClose\":tr\
         ue,\"change\":1,\"save\":true},\"definitionProvider\":true,\"referencesProvider\":true,\"documentFormattingProvider\":true,\"re\
         nameProvider\":{\"prepareProvider\":true}},\"serverInfo\":{\"name\":\"asl\",\"version\":\"0.1.0\"}}}",
    ),
    (
        r#"{"jsonrpc":"2.0","method":"initialized","params":{}}"#,
        "-",
    ),
    (
        "{\"jsonrpc\":\"2.0\",\"method\":\"textDocument/didOpen\",\"params\":{\"textDocument\":{\"uri\":\"file:///a.asl.json\",\"languageId\
         \":\"json\",\"version\":1,\"text\":\"{\\\"StartAt\\\":\\\"𐐀\\\",\\\"States\\\":{\\\"𐐀\\\":{\\\"Type\\\":\\\"Pass\\\",\\\"Next\\\":\
         \\\"B\\\"}}}\"}}}",
        "{\"jsonrpc\":\"2.0\",\"method\":\"textDocument/publishDiagnostics\",\"params\":{\"uri\":\"file:///a.asl.json\",\"version\":1,\"dia\
         gnostics\":[{\"range\":{\"start\":{\"line\":0,\"character\":53},\"end\":{\"line\":0,\"character\":56}},\"severity\":1,\"code\":\"F\
         10\",\"source\":\"asl\",\"message\":\"Next names \\\"B\\\", and no state of this machine has that name\"}]}}",
    ),
    (
        "{\"jsonrpc\":\"2.0\",\"method\":\"textDocument/didChange\",\"params\":{\"textDocument\":{\"uri\":\"file:///a.asl.json\",\"version\
         \":2},\"contentChanges\":[{\"text\":\"{}\"},{\"text\":\"{\\r\\n\\\"StartAt\\\":\\\"A\\\",\\r\\\"States\\\":{\\\"A\\\":{\\\"Type\\\
         \":\\\"Pass\\\",\\n\\\"Next\\\":\\\"B\\\"}}}\"}]}}",
        "{\"jsonrpc\":\"2.0\",\"method\":\"textDocument/publishDiagnostics\",\"params\":{\"uri\":\"file:///a.asl.json\",\"version\":2,\"dia\
         gnostics\":[{\"range\":{\"start\":{\"line\":3,\"character\":7},\"end\":{\"line\":3,\"character\":10}},\"severity\":1,\"code\":\"F1\
         0\",\"source\":\"asl\",\"message\":\"Next names \\\"B\\\", and no state of this machine has that name\"}]}}",
    ),
    (
        "{\"jsonrpc\":\"2.0\",\"method\":\"textDocument/didOpen\",\"params\":{\"textDocument\":{\"uri\":\"file:///b.asl.json\",\"languageId\
         \":\"json\",\"version\":7,\"text\":\"{\\\"StartAt\\\":\\\"A\\\",\\\"States\\\":{\\\"A\\\":{\\\"Type\\\":\\\"Pass\\\",\\\"End\\\":t\
         rue}}}\"}}}",
        r#"{"jsonrpc":"2.0","method":"textDocument/publishDiagnostics","params":{"uri":"file:///b.asl.json","version":7,"diagnostics":[]}}"#,
    ),
    (
        r#"{"jsonrpc":"2.0","method":"textDocument/didSave","params":{"textDocument":{"uri":"file:///a.asl.json"}}}"#,
        "{\"jsonrpc\":\"2.0\",\"method\":\"textDocument/publishDiagnostics\",\"params\":{\"uri\":\"file:///a.asl.json\",\"version\":2,\"dia\
         gnostics\":[{\"range\":{\"start\":{\"line\":3,\"character\":7},\"end\":{\"line\":3,\"character\":10}},\"severity\":1,\"code\":\"F1\
         0\",\"source\":\"asl\",\"message\":\"Next names \\\"B\\\", and no state of this machine has that name\"}]}}",
    ),
    (
        r#"{"jsonrpc":"2.0","method":"textDocument/didClose","params":{"textDocument":{"uri":"file:///a.asl.json"}}}"#,
        r#"{"jsonrpc":"2.0","method":"textDocument/publishDiagnostics","params":{"uri":"file:///a.asl.json","diagnostics":[]}}"#,
    ),
    (
        r#"{"jsonrpc":"2.0","method":"textDocument/didSave","params":{"textDocument":{"uri":"file:///a.asl.json"}}}"#,
        "-",
    ),
    (
        r#"{"jsonrpc":"2.0","id":"two","method":"shutdown"}"#,
        r#"{"jsonrpc":"2.0","id":"two","result":null}"#,
    ),
    (r#"{"jsonrpc":"2.0","method":"exit"}"#, "-"),
];

#[test]
fn a_session_is_served(rt: HostRuntime) -> Result<(), Fail> {
    let alloc = rt.alloc();
    let mut server = Server::new();
    for (message, answer) in SESSION {
        assert!(rt; !server.has_ended(), "before {message}");
        assert_eq!(rt;
            sent(alloc, &mut server, *message)?.as_str(),
            *answer,
            "{message}"
        );
    }
    assert!(rt; server.has_ended(), "after exit");
    Ok(())
}

/// A client that offers UTF-8 is told positions in it.
#[test]
fn positions_count_bytes_where_the_client_offers_them(rt: HostRuntime) -> Result<(), Fail> {
    let alloc = rt.alloc();
    let mut server = Server::new();
    let begun = sent(
        alloc,
        &mut server,
        r#"{"jsonrpc":"2.0","id":0,"method":"initialize","params":{"capabilities":{"general":{"positionEncodings":["utf-16","utf-8"]}}}}"#,
    )?;
    assert!(rt;
        begun.as_str().contains("\"positionEncoding\":\"utf-8\""),
        "{begun}"
    );
    let told = sent(alloc, &mut server, SESSION[2].0)?;
    assert!(rt;
        told.as_str().contains(
            "{\"start\":{\"line\":0,\"character\":57},\"end\":{\"line\":0,\"character\":60}}"
        ),
        "{told}"
    );
    Ok(())
}
