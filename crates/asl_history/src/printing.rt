// The line of an event.
ghost use Rattle.std.specs.Prelude.{◌≡◌, ◌∷◌, ◌++◌, [], IfOk, OnOk, OnErr, string_bytes};
ghost use Rattle.std.specs.Fmt.{decimal};
ghost use Rattle.asl_json_write.specs.Buffers.{Keeps};
ghost use Rattle.asl_history.specs.Lines.{head_of, tail_of, line_of};
ghost use Rattle.asl_time.specs.StampText.{stamp_of};

use crate::event::Event;
use asl_json_write::{put, put_quoted, whole_or_none};
use asl_text::put_decimal;
use asl_time::{Moment, put_stamp};
use std::alloc::{AllocError, Global};

/// The line of an event: id, previous id, stamp, place, kind, name and body with single spaces between, the last two as
/// compact JSON texts, and a line feed, as `2 1 2024-01-01T00:00:00.000Z / PassStateEntered "P" {}`. The error is that
/// memory ran out.
pub fn line(alloc: Global, event: &Event) -> Result<String, AllocError>
    ensures { IfOk result (λ t. string_bytes t ≡ line_of event.now) }
{
    let mut out = String::new(alloc);
    put_line(&mut out, event)?;
    Ok(out)
}

/// Appends the line of an event, as `line` gives it. The error is that memory ran out, and then nothing is appended.
pub fn put_line(out: &mut String, event: &Event) -> Result<(), AllocError>
    ensures ok { OnOk result (string_bytes out.new ≡ string_bytes out.old ++ line_of event.now) }
    ensures err { OnErr result (string_bytes out.new ≡ string_bytes out.old) }
{
    let len = out.as_str().len();
    let appended = put_parts(out, event);
    whole_or_none(out, len, appended)
}

/// Appends the line of an event. Where memory runs out, a part of it may be there.
#[tactic(auto, unfolding(crate::specs::Lines::line_of))]
fn put_parts(out: &mut String, event: &Event) -> Result<(), AllocError>
    ensures ok { OnOk result (string_bytes out.new ≡ string_bytes out.old ++ line_of event.now) }
    ensures kept { Keeps (string_bytes out.old) (string_bytes out.new) }
{
    put_head(out, event)?;
    put_tail(out, event)
}

/// Appends id, previous id, stamp, place and kind, a space behind each. Where memory runs out, some of them may be there.
fn put_head(out: &mut String, event: &Event) -> Result<(), AllocError>
    ensures ok { OnOk result (string_bytes out.new ≡ string_bytes out.old ++ head_of event.now) }
    ensures kept { Keeps (string_bytes out.old) (string_bytes out.new) }
{
    put_number(out, event.id)?;
    put_number(out, event.previous)?;
    put_at(out, event.at)?;
    event.place.put(out)?;
    out.push(' ')?;
    out.push_str(event.kind.name())?;
    out.push(' ')
}

/// Appends a number and a space. Where memory runs out, the number may be there.
fn put_number(out: &mut String, number: u64) -> Result<(), AllocError>
    ensures ok { OnOk result (string_bytes out.new
        ≡ string_bytes out.old ++ (decimal number ++ 32 ∷ [])) }
    ensures kept { Keeps (string_bytes out.old) (string_bytes out.new) }
{
    put_decimal(out, number)?;
    out.push(' ')
}

/// Appends the stamp of a moment and a space. Where memory runs out, the stamp may be there.
fn put_at(out: &mut String, moment: Moment) -> Result<(), AllocError>
    ensures ok { OnOk result (string_bytes out.new
        ≡ string_bytes out.old ++ (stamp_of moment ++ 32 ∷ [])) }
    ensures kept { Keeps (string_bytes out.old) (string_bytes out.new) }
{
    put_stamp(out, moment)?;
    out.push(' ')
}

/// Appends name and body, a space between and a line feed behind. Where memory runs out, a part of it may be there.
fn put_tail(out: &mut String, event: &Event) -> Result<(), AllocError>
    ensures ok { OnOk result (string_bytes out.new ≡ string_bytes out.old ++ tail_of event.now) }
    ensures kept { Keeps (string_bytes out.old) (string_bytes out.new) }
{
    put_quoted(out, event.name.as_str())?;
    out.push(' ')?;
    put(out, &event.body)?;
    out.push('\n')
}
