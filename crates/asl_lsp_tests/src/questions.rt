// What is answered about a document.
use crate::session::sent;
use asl_lsp::Server;
use std::alloc::{AllocError, Global};
use std::test::Fail;

/// A definition with a branch, whose state has the name of another one.
const OPENED: &str =
    r#"{"jsonrpc":"2.0","method":"textDocument/didOpen","params":{"textDocument":{"uri":"file:///a.asl.json","languageId":"json","version":1,"text":"{\"StartAt\":\"A\",\n\"States\":{\"A\":{\"Type\":\"Choice\",\"Choices\":[{\"Variable\":\"$.x\",\"IsNull\":true,\"Next\":\"𐐀\"}],\"Default\":\"A\"},\n\"𐐀\":{\"Type\":\"Parallel\",\"Catch\":[{\"ErrorEquals\":[\"States.ALL\"],\"Next\":\"A\"}],\"Branches\":[{\"StartAt\":\"A\",\"States\":{\"A\":{\"Type\":\"Succeed\"}}}],\"End\":true}}}"}}}"#;

/// What is asked, and what is answered. (Positions are counted from the text, not taken from the server.)
const ANSWERS: &[(&str, &str, &str)] = &[
    (
        "the key that declares it, from a reference",
        r#"{"jsonrpc":"2.0","id":1,"method":"textDocument/definition","params":{"textDocument":{"uri":"file:///a.asl.json"},"position":{"line":1,"character":99}}}"#,
        r#"{"jsonrpc":"2.0","id":1,"result":[{"uri":"file:///a.asl.json","range":{"start":{"line":1,"character":10},"end":{"line":1,"character":13}}}]}"#,
    ),
    (
        "from behind the closing quote",
        r#"{"jsonrpc":"2.0","id":2,"method":"textDocument/definition","params":{"textDocument":{"uri":"file:///a.asl.json"},"position":{"line":1,"character":85}}}"#,
        r#"{"jsonrpc":"2.0","id":2,"result":[{"uri":"file:///a.asl.json","range":{"start":{"line":2,"character":0},"end":{"line":2,"character":4}}}]}"#,
    ),
    (
        "a name of a branch is another state",
        r#"{"jsonrpc":"2.0","id":3,"method":"textDocument/definition","params":{"textDocument":{"uri":"file:///a.asl.json"},"position":{"line":2,"character":99}}}"#,
        r#"{"jsonrpc":"2.0","id":3,"result":[{"uri":"file:///a.asl.json","range":{"start":{"line":2,"character":113},"end":{"line":2,"character":116}}}]}"#,
    ),
    (
        "no name stands there",
        r#"{"jsonrpc":"2.0","id":4,"method":"textDocument/definition","params":{"textDocument":{"uri":"file:///a.asl.json"},"position":{"line":0,"character":0}}}"#,
        r#"{"jsonrpc":"2.0","id":4,"result":null}"#,
    ),
    (
        "behind the end of the line is its end",
        r#"{"jsonrpc":"2.0","id":5,"method":"textDocument/references","params":{"textDocument":{"uri":"file:///a.asl.json"},"position":{"line":0,"character":99},"context":{"includeDeclaration":true}}}"#,
        r#"{"jsonrpc":"2.0","id":5,"result":null}"#,
    ),
    (
        "with the declaration",
        r#"{"jsonrpc":"2.0","id":6,"method":"textDocument/references","params":{"textDocument":{"uri":"file:///a.asl.json"},"position":{"line":1,"character":11},"context":{"includeDeclaration":true}}}"#,
        r#"{"jsonrpc":"2.0","id":6,"result":[{"uri":"file:///a.asl.json","range":{"start":{"line":0,"character":11},"end":{"line":0,"character":14}}},{"uri":"file:///a.asl.json","range":{"start":{"line":1,"character":10},"end":{"line":1,"character":13}}},{"uri":"file:///a.asl.json","range":{"start":{"line":1,"character":98},"end":{"line":1,"character":101}}},{"uri":"file:///a.asl.json","range":{"start":{"line":2,"character":70},"end":{"line":2,"character":73}}}]}"#,
    ),
    (
        "without it",
        r#"{"jsonrpc":"2.0","id":7,"method":"textDocument/references","params":{"textDocument":{"uri":"file:///a.asl.json"},"position":{"line":0,"character":12},"context":{"includeDeclaration":false}}}"#,
        r#"{"jsonrpc":"2.0","id":7,"result":[{"uri":"file:///a.asl.json","range":{"start":{"line":0,"character":11},"end":{"line":0,"character":14}}},{"uri":"file:///a.asl.json","range":{"start":{"line":1,"character":98},"end":{"line":1,"character":101}}},{"uri":"file:///a.asl.json","range":{"start":{"line":2,"character":70},"end":{"line":2,"character":73}}}]}"#,
    ),
    (
        "no context",
        r#"{"jsonrpc":"2.0","id":8,"method":"textDocument/references","params":{"textDocument":{"uri":"file:///a.asl.json"},"position":{"line":0,"character":12}}}"#,
        r#"{"jsonrpc":"2.0","id":8,"error":{"code":-32602,"message":"The method takes no such parameters."}}"#,
    ),
    (
        "no position",
        r#"{"jsonrpc":"2.0","id":9,"method":"textDocument/definition","params":{"textDocument":{"uri":"file:///a.asl.json"}}}"#,
        r#"{"jsonrpc":"2.0","id":9,"error":{"code":-32602,"message":"The method takes no such parameters."}}"#,
    ),
    (
        "a document that isn't open",
        r#"{"jsonrpc":"2.0","id":10,"method":"textDocument/definition","params":{"textDocument":{"uri":"file:///b"},"position":{"line":1,"character":11}}}"#,
        r#"{"jsonrpc":"2.0","id":10,"error":{"code":-32602,"message":"The method takes no such parameters."}}"#,
    ),
    (
        "the name can be changed",
        r#"{"jsonrpc":"2.0","id":11,"method":"textDocument/prepareRename","params":{"textDocument":{"uri":"file:///a.asl.json"},"position":{"line":2,"character":0}}}"#,
        r#"{"jsonrpc":"2.0","id":11,"result":{"range":{"start":{"line":2,"character":0},"end":{"line":2,"character":4}},"placeholder":"𐐀"}}"#,
    ),
    (
        "nothing can",
        r#"{"jsonrpc":"2.0","id":12,"method":"textDocument/prepareRename","params":{"textDocument":{"uri":"file:///a.asl.json"},"position":{"line":9,"character":9}}}"#,
        r#"{"jsonrpc":"2.0","id":12,"result":null}"#,
    ),
    (
        "another name",
        r#"{"jsonrpc":"2.0","id":13,"method":"textDocument/rename","params":{"textDocument":{"uri":"file:///a.asl.json"},"position":{"line":2,"character":1},"newName":"B\""}}"#,
        r#"{"jsonrpc":"2.0","id":13,"result":{"changes":{"file:///a.asl.json":[{"range":{"start":{"line":1,"character":81},"end":{"line":1,"character":85}},"newText":"\"B\\\"\""},{"range":{"start":{"line":2,"character":0},"end":{"line":2,"character":4}},"newText":"\"B\\\"\""}]}}}"#,
    ),
    (
        "a name in a branch",
        r#"{"jsonrpc":"2.0","id":14,"method":"textDocument/rename","params":{"textDocument":{"uri":"file:///a.asl.json"},"position":{"line":2,"character":114},"newName":"C"}}"#,
        r#"{"jsonrpc":"2.0","id":14,"result":{"changes":{"file:///a.asl.json":[{"range":{"start":{"line":2,"character":99},"end":{"line":2,"character":102}},"newText":"\"C\""},{"range":{"start":{"line":2,"character":113},"end":{"line":2,"character":116}},"newText":"\"C\""}]}}}"#,
    ),
    (
        "the name is taken",
        r#"{"jsonrpc":"2.0","id":15,"method":"textDocument/rename","params":{"textDocument":{"uri":"file:///a.asl.json"},"position":{"line":2,"character":1},"newName":"A"}}"#,
        r#"{"jsonrpc":"2.0","id":15,"error":{"code":-32803,"message":"A state of the definition has this name already."}}"#,
    ),
    (
        "it is empty",
        r#"{"jsonrpc":"2.0","id":16,"method":"textDocument/rename","params":{"textDocument":{"uri":"file:///a.asl.json"},"position":{"line":2,"character":1},"newName":""}}"#,
        r#"{"jsonrpc":"2.0","id":16,"error":{"code":-32803,"message":"The name of a state has from 1 to 80 characters."}}"#,
    ),
    (
        "it is too long",
        r#"{"jsonrpc":"2.0","id":17,"method":"textDocument/rename","params":{"textDocument":{"uri":"file:///a.asl.json"},"position":{"line":2,"character":1},"newName":"ééééééééééééééééééééééééééééééééééééééééééééééééééééééééééééééééééééééééééééééééé"}}"#,
        r#"{"jsonrpc":"2.0","id":17,"error":{"code":-32803,"message":"The name of a state has from 1 to 80 characters."}}"#,
    ),
    (
        "no name stands there",
        r#"{"jsonrpc":"2.0","id":18,"method":"textDocument/rename","params":{"textDocument":{"uri":"file:///a.asl.json"},"position":{"line":0,"character":2},"newName":"C"}}"#,
        r#"{"jsonrpc":"2.0","id":18,"error":{"code":-32803,"message":"No name of a state stands there."}}"#,
    ),
    (
        "the layout",
        r#"{"jsonrpc":"2.0","id":19,"method":"textDocument/formatting","params":{"textDocument":{"uri":"file:///a.asl.json"},"options":{"tabSize":4,"insertSpaces":true}}}"#,
        r#"{"jsonrpc":"2.0","id":19,"result":[{"range":{"start":{"line":0,"character":0},"end":{"line":2,"character":152}},"newText":"{\n  \"StartAt\": \"A\",\n  \"States\": {\n    \"A\": {\n      \"Type\": \"Choice\",\n      \"Choices\": [\n        {\n          \"Variable\": \"$.x\",\n          \"IsNull\": true,\n          \"Next\": \"𐐀\"\n        }\n      ],\n      \"Default\": \"A\"\n    },\n    \"𐐀\": {\n      \"Type\": \"Parallel\",\n      \"Catch\": [\n        {\n          \"ErrorEquals\": [\n            \"States.ALL\"\n          ],\n          \"Next\": \"A\"\n        }\n      ],\n      \"Branches\": [\n        {\n          \"StartAt\": \"A\",\n          \"States\": {\n            \"A\": {\n              \"Type\": \"Succeed\"\n            }\n          }\n        }\n      ],\n      \"End\": true\n    }\n  }\n}\n"}]}"#,
    ),
    (
        "a document that isn't open has none",
        r#"{"jsonrpc":"2.0","id":20,"method":"textDocument/formatting","params":{"textDocument":{"uri":"file:///b"},"options":{"tabSize":4,"insertSpaces":true}}}"#,
        r#"{"jsonrpc":"2.0","id":20,"result":null}"#,
    ),
    (
        "no document",
        r#"{"jsonrpc":"2.0","id":21,"method":"textDocument/formatting","params":{"options":{}}}"#,
        r#"{"jsonrpc":"2.0","id":21,"error":{"code":-32602,"message":"The method takes no such parameters."}}"#,
    ),
];

/// The document as its layout has it, and what is no JSON text: no edits, and null.
const LAID_OUT: &[(&str, &str, &str)] = &[
    (
        r#"{"jsonrpc":"2.0","method":"textDocument/didChange","params":{"textDocument":{"uri":"file:///a.asl.json","version":2},"contentChanges":[{"text":"{\n  \"StartAt\": \"A\",\n  \"States\": {\n    \"A\": {\n      \"Type\": \"Choice\",\n      \"Choices\": [\n        {\n          \"Variable\": \"$.x\",\n          \"IsNull\": true,\n          \"Next\": \"𐐀\"\n        }\n      ],\n      \"Default\": \"A\"\n    },\n    \"𐐀\": {\n      \"Type\": \"Parallel\",\n      \"Catch\": [\n        {\n          \"ErrorEquals\": [\n            \"States.ALL\"\n          ],\n          \"Next\": \"A\"\n        }\n      ],\n      \"Branches\": [\n        {\n          \"StartAt\": \"A\",\n          \"States\": {\n            \"A\": {\n              \"Type\": \"Succeed\"\n            }\n          }\n        }\n      ],\n      \"End\": true\n    }\n  }\n}\n"}]}}"#,
        r#"{"jsonrpc":"2.0","id":1,"method":"textDocument/formatting","params":{"textDocument":{"uri":"file:///a.asl.json"},"options":{"tabSize":4,"insertSpaces":true}}}"#,
        r#"{"jsonrpc":"2.0","id":1,"result":[]}"#,
    ),
    (
        r#"{"jsonrpc":"2.0","method":"textDocument/didChange","params":{"textDocument":{"uri":"file:///a.asl.json","version":3},"contentChanges":[{"text":"{"}]}}"#,
        r#"{"jsonrpc":"2.0","id":2,"method":"textDocument/formatting","params":{"textDocument":{"uri":"file:///a.asl.json"},"options":{"tabSize":4,"insertSpaces":true}}}"#,
        r#"{"jsonrpc":"2.0","id":2,"result":null}"#,
    ),
];

fn begun(alloc: Global) -> Result<Server, AllocError> {
    let mut server = Server::new();
    sent(
        alloc,
        &mut server,
        r#"{"jsonrpc":"2.0","id":0,"method":"initialize","params":{"capabilities":{}}}"#,
    )?;
    sent(alloc, &mut server, OPENED)?;
    Ok(server)
}

#[test]
fn questions_about_a_document_are_answered(rt: HostRuntime) -> Result<(), Fail> {
    let alloc = rt.alloc();
    let mut server = begun(alloc)?;
    for (what, message, answer) in ANSWERS {
        assert_eq!(rt;
            sent(alloc, &mut server, *message)?.as_str(),
            *answer,
            "{what}"
        );
    }
    Ok(())
}

#[test]
fn a_document_is_laid_out_once(rt: HostRuntime) -> Result<(), Fail> {
    let alloc = rt.alloc();
    let mut server = begun(alloc)?;
    for (change, message, answer) in LAID_OUT {
        sent(alloc, &mut server, *change)?;
        assert_eq!(rt;
            sent(alloc, &mut server, *message)?.as_str(),
            *answer,
            "{change}"
        );
    }
    Ok(())
}
