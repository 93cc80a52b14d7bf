// A history as lines of JSON.
ghost use Rattle.std.specs.Prelude.{◌≡◌, ◌++◌, IfOk, OnOk, string_bytes};
ghost use Rattle.std.specs.List.{flat_map};
ghost use Rattle.asl_history_formats.specs.JsonLines.{json_numbers, json_where, json_head, json_tail, json_line, json_lines_text};

use crate::pieces::{put_previous_key, put_stamp_key};
use asl_history::Event;
use asl_json_write::{put, put_quoted};
use asl_text::put_decimal;
use asl_time::put_stamp;
use std::alloc::{AllocError, Global};

fn put_numbers(out: &mut String, event: &Event) -> Result<(), AllocError>
    ensures { OnOk result (string_bytes out.new ≡ string_bytes out.old ++ json_numbers event.now) }
{
    out.push_str("{\"id\":")?;
    put_decimal(out, event.id)?;
    put_previous_key(out)?;
    put_decimal(out, event.previous)
}

fn put_where(out: &mut String, event: &Event) -> Result<(), AllocError>
    ensures { OnOk result (string_bytes out.new ≡ string_bytes out.old ++ json_where event.now) }
{
    out.push(',')?;
    put_stamp_key(out)?;
    put_stamp(out, event.at)?;
    out.push_str("\",\"place\":\"")?;
    event.place.put(out)
}

fn put_head(out: &mut String, event: &Event) -> Result<(), AllocError>
    ensures { OnOk result (string_bytes out.new ≡ string_bytes out.old ++ json_head event.now) }
{
    put_numbers(out, event)?;
    put_where(out, event)
}

#[tactic(auto, unfolding(crate::specs::JsonLines::json_tail))]
fn put_tail(out: &mut String, event: &Event) -> Result<(), AllocError>
    ensures { OnOk result (string_bytes out.new ≡ string_bytes out.old ++ json_tail event.now) }
{
    out.push_str("\",\"type\":\"")?;
    out.push_str(event.kind.name())?;
    out.push_str("\",\"name\":")?;
    put_quoted(out, event.name.as_str())?;
    out.push_str(",\"body\":")?;
    put(out, &event.body)?;
    out.push_str("}\n")
}

#[tactic(auto, unfolding(crate::specs::JsonLines::json_line))]
fn put_line(out: &mut String, event: &Event) -> Result<(), AllocError>
    ensures { OnOk result (string_bytes out.new ≡ string_bytes out.old ++ json_line event.now) }
{
    put_head(out, event)?;
    put_tail(out, event)
}

fn put_lines(out: &mut String, events: &[Event]) -> Result<(), AllocError>
    ensures { OnOk result (string_bytes out.new
        ≡ string_bytes out.old ++ json_lines_text events.now) }
{
    for event in events {
        put_line(out, event)?;
    }
    Ok(())
}

/// The events of a history, a JSON object each on a line: `id`, `previousEventId`, `timestamp`, `place`, `type`, `name` and `body`, as they
/// stand in its printed lines. (JSON Lines.) The error is that memory ran out.
pub fn lines_of_json(alloc: Global, events: &[Event]) -> Result<String, AllocError>
    ensures { IfOk result (λ t. string_bytes t ≡ json_lines_text events.now) }
{
    let mut out = String::new(alloc);
    put_lines(&mut out, events)?;
    Ok(out)
}
