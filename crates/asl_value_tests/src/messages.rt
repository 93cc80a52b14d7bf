// Messages of the Language Server Protocol: streams in chunks of any lengths, and examples of JSON-RPC 2.0.
use asl_base_protocol::{Item, Reader, put_message};
use asl_json_read::read;
use asl_json_rpc::{
    CallFault, ErrorCode, Id, Incoming, put_error, put_notification, put_result, read_call,
};
use std::alloc::{AllocError, Global};
use std::test::Fail;

/// What stands in a stream that comes in chunks of this length.
fn items_of(alloc: Global, stream: &[u8], len: usize) -> Result<Vec<Item>, AllocError> {
    let mut reader = Reader::new(alloc);
    let mut items = Vec::new(alloc);
    for chunk in stream.chunks(len.max(1)) {
        reader.feed(alloc, chunk, &mut items)?;
    }
    Ok(items)
}

/// Appends an item in words, on a line.
fn tell(out: &mut String, item: &Item) -> Result<(), AllocError> {
    match item {
        Item::Content(bytes) => match std::str::from_utf8(bytes.as_slice()) {
            Ok(text) => out.push_str(text)?,
            Err(_) => out.push_str("no text")?,
        },
        Item::BadHeader => out.push_str("bad header")?,
        Item::TooLong(_) => out.push_str("too long")?,
    }
    out.push('\n')
}

/// What stands in a stream that comes in chunks of this length, in words.
fn told(alloc: Global, stream: &[u8], len: usize) -> Result<String, AllocError> {
    let mut out = String::new(alloc);
    for item in &items_of(alloc, stream, len)? {
        tell(&mut out, item)?;
    }
    Ok(out)
}

/// The field's name in two spellings, a field of another name, values without a blank and with two, header parts that don't say a length, one that says
/// it twice, a line without a colon, a content part of no bytes, and one that hasn't come.
const STREAM: &str =
    "Content-Length: 2\r\n\r\n{}content-LENGTH:3\r\nContent-Type: application/vscode-jsonrpc; charset=utf-8\r\n\r\n[1]\
    Content-Type: x\r\n\r\n\r\nContent-Length: 1\r\nContent-Length: 1\r\n\r\nContent-Length 1\r\n\r\nContent-Length: -1\r\n\r\n\
    Content-Length: 0\r\n\r\nContent-Length: \t4\r\n\r\n\"\u{e9}\"Content-Length: 5\r\n\r\nnull";

const TOLD: &str =
    "{}\n[1]\nbad header\nbad header\nbad header\nbad header\nbad header\n\n\"\u{e9}\"\n";

#[test]
fn streams_are_read_in_chunks_of_any_length(rt: HostRuntime) -> Result<(), Fail> {
    let alloc = rt.alloc();
    for len in [1, 2, 3, 7, 64, 1_000] {
        assert_eq!(rt;
            told(alloc, STREAM.as_bytes(), len)?.as_str(),
            TOLD,
            "in chunks of {len}"
        );
    }
    Ok(())
}

#[test]
fn written_messages_are_read(rt: HostRuntime) -> Result<(), Fail> {
    let alloc = rt.alloc();
    let mut stream = String::new(alloc);
    put_message(&mut stream, "{}")?;
    put_message(&mut stream, "\"\u{20ac}\"")?;
    assert_eq!(rt;
        stream.as_str(),
        "Content-Length: 2\r\n\r\n{}Content-Length: 5\r\n\r\n\"\u{20ac}\""
    );
    assert_eq!(rt;
        told(alloc, stream.as_bytes(), 4)?.as_str(),
        "{}\n\"\u{20ac}\"\n"
    );
    Ok(())
}

/// Of a header part of so many bytes in one field, and a message behind it.
fn told_behind(alloc: Global, len: usize) -> Result<String, AllocError> {
    let mut stream = String::new(alloc);
    stream.push_str("Name: ")?;
    for _ in 0..len.saturating_sub(10) {
        stream.push('a')?;
    }
    stream.push_str("\r\n\r\n")?;
    put_message(&mut stream, "{}")?;
    told(alloc, stream.as_bytes(), 100)
}

#[test]
fn header_parts_have_4096_bytes(rt: HostRuntime) -> Result<(), Fail> {
    let alloc = rt.alloc();
    assert_eq!(rt; told_behind(alloc, 4_096)?.as_str(), "bad header\n{}\n");
    // The last byte of the longer one ends no line of the next header part, of which it is the first: so its length isn't said as a field.
    assert_eq!(rt;
        told_behind(alloc, 4_097)?.as_str(),
        "bad header\nbad header\n"
    );
    Ok(())
}

#[test]
fn long_messages_are_passed_over(rt: HostRuntime) -> Result<(), Fail> {
    let alloc = rt.alloc();
    let mut items = Vec::new(alloc);
    let mut reader = Reader::new(alloc);
    reader.feed(alloc, b"Content-Length: 16777217\r\n\r\n.", &mut items)?;
    let mut chunk = Vec::new(alloc);
    for _ in 0..65_536 {
        chunk.push(b'.')?;
    }
    for _ in 0..256 {
        assert!(rt; items.is_empty());
        reader.feed(alloc, &chunk, &mut items)?;
    }
    reader.feed(alloc, b"Content-Length: 2\r\n\r\n[]", &mut items)?;
    let mut out = String::new(alloc);
    for item in &items {
        tell(&mut out, item)?;
    }
    assert_eq!(rt; out.as_str(), "too long\n[]\n");
    Ok(())
}

/// Appends the answer that says what a message is.
fn answer(alloc: Global, out: &mut String, text: &str) -> Result<(), AllocError> {
    match read_call(alloc, text.as_bytes()) {
        Ok(Incoming::Request { id, params, .. }) => match params {
            Some(params) => put_result(out, &id, &params),
            None => put_error(out, &id, ErrorCode::MethodNotFound, "Method not found"),
        },
        Ok(Incoming::Notification { method, params }) => match params {
            Some(params) => put_notification(out, method.as_str(), &params),
            None => out.push_str(method.as_str()),
        },
        Ok(Incoming::Response) => out.push_str("response"),
        Err(CallFault::ParseError) => put_error(
            out,
            &Id::Null,
            ErrorCode::ParseError,
            "Parse error",
        ),
        Err(CallFault::InvalidRequest(id)) => {
            put_error(out, &id, ErrorCode::InvalidRequest, "Invalid Request")
        }
        Err(CallFault::OutOfMemory) => Err(AllocError),
    }
}

/// Examples of JSON-RPC 2.0, "Examples", and others: a message, and what is answered.
const CALLS: [(&str, &str); 12] = [
    (
        r#"{"jsonrpc": "2.0", "method": "subtract", "params": [42, 23], "id": 1}"#,
        r#"{"jsonrpc":"2.0","id":1,"result":[42,23]}"#,
    ),
    (
        r#"{"jsonrpc": "2.0", "method": "foobar", "id": "1"}"#,
        r#"{"jsonrpc":"2.0","id":"1","error":{"code":-32601,"message":"Method not found"}}"#,
    ),
    (
        r#"{"jsonrpc": "2.0", "method": "update", "params": [1,2,3,4,5]}"#,
        r#"{"jsonrpc":"2.0","method":"update","params":[1,2,3,4,5]}"#,
    ),
    (r#"{"jsonrpc":"2.0","method":"exit","params":null}"#, "exit"),
    (
        r#"{"jsonrpc": "2.0", "method": "foobar, "params": "bar", "baz]"#,
        r#"{"jsonrpc":"2.0","id":null,"error":{"code":-32700,"message":"Parse error"}}"#,
    ),
    (
        r#"{"jsonrpc": "2.0", "method": 1, "params": "bar"}"#,
        r#"{"jsonrpc":"2.0","id":null,"error":{"code":-32600,"message":"Invalid Request"}}"#,
    ),
    (
        "[]",
        r#"{"jsonrpc":"2.0","id":null,"error":{"code":-32600,"message":"Invalid Request"}}"#,
    ),
    (
        r#"{"jsonrpc":"2.0","id":7,"method":"a","params":"b"}"#,
        r#"{"jsonrpc":"2.0","id":7,"error":{"code":-32600,"message":"Invalid Request"}}"#,
    ),
    (
        r#"{"jsonrpc":"1.0","id":7,"method":"a"}"#,
        r#"{"jsonrpc":"2.0","id":7,"error":{"code":-32600,"message":"Invalid Request"}}"#,
    ),
    (
        r#"{"jsonrpc":"2.0","id":1.5,"method":"a"}"#,
        r#"{"jsonrpc":"2.0","id":null,"error":{"code":-32600,"message":"Invalid Request"}}"#,
    ),
    (
        r#"{"jsonrpc":"2.0","id":null,"method":"a","params":{}}"#,
        r#"{"jsonrpc":"2.0","id":null,"result":{}}"#,
    ),
    (r#"{"jsonrpc": "2.0", "result": 19, "id": 1}"#, "response"),
];

#[test]
fn calls_are_read_and_answered(rt: HostRuntime) -> Result<(), Fail> {
    let alloc = rt.alloc();
    for (text, wanted) in CALLS {
        let mut out = String::new(alloc);
        answer(alloc, &mut out, text)?;
        assert_eq!(rt; out.as_str(), wanted, "at {text}");
        // What is sent is JSON, where it isn't a word of this test.
        assert!(rt; !out.as_str().starts_with('{') || read(alloc, out.as_str().as_bytes()).is_ok());
    }
    Ok(())
}
