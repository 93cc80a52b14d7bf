// The lines of replies.
ghost use Rattle.std.specs.Prelude.{◌≡◌, ◌++◌, ◌∷◌, [], OnOk, OnErr, string_bytes};
ghost use Rattle.std.specs.Fmt.{decimal};
ghost use Rattle.asl_json_write.specs.Buffers.{Keeps};
ghost use Rattle.asl_session.specs.ReplyLines.{answer_text, answer_line};

use crate::reply::Reply;
use crate::showing::record_json;
use asl_json_write::{put, put_quoted, whole_or_none};
use asl_run_state::put_reply;
use asl_text::put_decimal;
use std::alloc::{AllocError, Global};

/// Appends the line of a reply. The error is that memory ran out, and then nothing is appended.
pub fn put_answer(alloc: Global, out: &mut String, reply: &Reply) -> Result<(), AllocError>
    ensures ok { OnOk result (string_bytes out.new
        ≡ string_bytes out.old ++ answer_line reply.now) }
    ensures err { OnErr result (string_bytes out.new ≡ string_bytes out.old) }
{
    let len = out.as_str().len();
    let appended = put_answer_parts(alloc, out, reply);
    whole_or_none(out, len, appended)
}

/// Appends the line of a reply. Where memory runs out, a part of it may be there.
fn put_answer_parts(alloc: Global, out: &mut String, reply: &Reply) -> Result<(), AllocError>
    ensures ok { OnOk result (string_bytes out.new
        ≡ string_bytes out.old ++ answer_line reply.now) }
    ensures kept { Keeps (string_bytes out.old) (string_bytes out.new) }
{
    put_text(alloc, out, reply)?;
    out.push('\n')
}

/// Appends a reply. Where memory runs out, a part of it may be there.
fn put_text(alloc: Global, out: &mut String, reply: &Reply) -> Result<(), AllocError>
    ensures ok { OnOk result (string_bytes out.new
        ≡ string_bytes out.old ++ answer_text reply.now) }
    ensures kept { Keeps (string_bytes out.old) (string_bytes out.new) }
{
    match reply {
        Reply::Stepped => out.push_str("ok"),
        Reply::Refused(refusal) => put_reply(out, Some(*refusal)),
        Reply::Paused(name) => {
            out.push_str("paused ")?;
            put_quoted(out, name.as_str())
        }
        Reply::Set => out.push_str("set"),
        Reply::Cleared => out.push_str("cleared"),
        Reply::Resumed => out.push_str("resumed"),
        Reply::NotPaused => out.push_str("NotPaused"),
        Reply::NoSuchState => out.push_str("NoSuchState"),
        Reply::NoSuchPlace => out.push_str("NoSuchPlace"),
        Reply::Shown(record) => {
            out.push_str("shown ")?;
            let record = record_json(alloc, record)?;
            put(out, &record)
        }
        Reply::WentBack(left) => {
            out.push_str("back ")?;
            put_decimal(out, *left)
        }
        Reply::TooFar => out.push_str("TooFar"),
    }
}
