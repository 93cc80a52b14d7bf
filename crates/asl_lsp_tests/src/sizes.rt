// Large documents.
use crate::session::sent;
use asl_lsp::Server;
use std::alloc::{AllocError, Global};
use std::test::Fail;

/// A message that opens a definition without faults, of 57 bytes, and with so many line feeds behind it. In the message each of these takes two bytes.
fn opening(alloc: Global, feeds: usize) -> Result<String, AllocError> {
    let mut message = String::from_str(
        alloc,
        r#"{"jsonrpc":"2.0","method":"textDocument/didOpen","params":{"textDocument":{"uri":"a","languageId":"json","version":1,"text":""#,
    )?;
    message.push_str(r#"{\"StartAt\":\"A\",\"States\":{\"A\":{\"Type\":\"Pass\",\"End\":true}}}"#)?;
    for _ in 0..feeds {
        message.push_str("\\n")?;
    }
    message.push_str("\"}}}")?;
    Ok(message)
}

/// A definition may have 1,048,576 bytes, however many the message has. A larger one is told to be none.
#[test]
fn a_document_of_the_largest_size_is_judged(rt: HostRuntime) -> Result<(), Fail> {
    let alloc = rt.alloc();
    let mut server = Server::new();
    sent(
        alloc,
        &mut server,
        r#"{"jsonrpc":"2.0","id":0,"method":"initialize","params":{"capabilities":{}}}"#,
    )?;
    let largest = opening(alloc, 1048519)?;
    let told = sent(alloc, &mut server, largest.as_str())?;
    assert!(rt; told.as_str().ends_with("\"diagnostics\":[]}}"), "{told}");
    let larger = opening(alloc, 1048520)?;
    let told = sent(alloc, &mut server, larger.as_str())?;
    assert!(rt;
        told.as_str().contains("\"severity\":1,\"code\":\"F1\""),
        "{told}"
    );
    Ok(())
}
