// What no clause says: lines and links from worked examples, and that calls succeed with ample memory.
use asl_history::{Event, EventKind, History, Memory, Place, Sink, SinkFault, WriteFault, line};
use asl_json::Json;
use asl_json_read::read;
use asl_json_shared::{Name, Shared};
use asl_time::{Moment, read_stamp};
use std::alloc::Global;
use std::test::Fail;

/// A sink that takes so many bytes, at most so many at once, and then fails.
#[derive(Drop)]
struct Narrow {
    memory: Memory,
    room: usize,
    width: usize,
    failures: u64,
}

impl Sink for Narrow {
    ghost taken = { λ n. n.memory.bytes.items };

    ghost failures = { λ n. n.failures };

    fn write(&mut self, bytes: &[u8]) -> Result<usize, SinkFault> {
        let count = bytes.len().min(self.width).min(self.room);
        if count == 0 && !bytes.is_empty() {
            self.failures = self.failures.wrapping_add(1);
            return Err(SinkFault);
        }
        match self.memory.write(&bytes[..count]) {
            Ok(taken) => {
                self.room -= taken;
                Ok(taken)
            }
            Err(fault) => {
                self.failures = self.failures.wrapping_add(1);
                Err(fault)
            }
        }
    }
}

fn make_narrow(alloc: Global, room: usize, width: usize) -> Narrow {
    Narrow {
        memory: Memory::new(alloc),
        room,
        width,
        failures: 0,
    }
}

fn place(alloc: Global, text: &str) -> Option<Place> {
    Place::read(alloc, text).ok()?
}

/// The text of the place that a text spells.
fn spelled_again(alloc: Global, text: &str) -> Option<String> {
    place(alloc, text)?.write(alloc).ok()
}

/// Adds an event at the start of 2024.
pub(crate) fn add(
    alloc: Global,
    history: &mut History,
    at: &str,
    kind: EventKind,
    name: &str,
    body: &str,
) -> Option<()> {
    let moment = read_stamp("2024-01-01T00:00:00.000Z")?;
    history.reserve(1).ok()?;
    let place = place(alloc, at)?;
    let name = Name::new(alloc, name).ok()?;
    let body = Shared::new(alloc, read(alloc, body.as_bytes()).ok()?).ok()?;
    history.append(moment, kind, place, name, body);
    Some(())
}

/// What is told of a Pass `P` and a Succeed `S` after it.
const TOLD: &[(EventKind, &str, &str)] = &[
    (EventKind::ExecutionStarted, "", "{}"),
    (EventKind::PassStateEntered, "P", "{}"),
    (EventKind::PassStateExited, "P", "{\"a\":{\"b\":7}}"),
    (EventKind::SucceedStateEntered, "S", "{\"a\":{\"b\":7}}"),
    (EventKind::SucceedStateExited, "S", "{\"a\":{\"b\":7}}"),
    (EventKind::ExecutionSucceeded, "", "{\"a\":{\"b\":7}}"),
];

/// The events of a Pass `P` and a Succeed `S` after it.
fn pass_and_succeed(alloc: Global) -> Option<History> {
    let mut history = History::new(alloc);
    for (kind, name, body) in TOLD {
        add(alloc, &mut history, "/", *kind, name, body)?;
    }
    Some(history)
}

const LINES: &str =
    "1 0 2024-01-01T00:00:00.000Z / ExecutionStarted \"\" {}\n2 1 2024-01-01T00:00:00.000Z / PassStateEntered \"P\" {}\n3 2 2024-01-01T00:00:00.000Z / PassStateExited \"P\" {\"a\":{\"b\":7}}\n4 3 2024-01-01T00:00:00.000Z / SucceedStateEntered \"S\" {\"a\":{\"b\":7}}\n5 4 2024-01-01T00:00:00.000Z / SucceedStateExited \"S\" {\"a\":{\"b\":7}}\n6 5 2024-01-01T00:00:00.000Z / ExecutionSucceeded \"\" {\"a\":{\"b\":7}}\n";

/// What a sink has after a history is written to it, and the fault.
fn written(history: &History, sink: &mut Narrow) -> Option<WriteFault> {
    history.write_all_lines(sink).err()
}

/// The line of the event of this number, counted from 0.
fn line_at(alloc: Global, history: &History, at: usize) -> Option<String> {
    line(alloc, history.events().get(at)?).ok()
}

#[test]
fn a_pass_and_a_succeed_have_six_lines(rt: HostRuntime) -> Result<(), Fail> {
    let history = pass_and_succeed(rt.alloc()).ok_or("no history")?;
    let copy = history.try_clone()?;
    let mut sink = make_narrow(rt.alloc(), 1000, 1);
    assert!(rt; written(&copy, &mut sink) == None);
    assert!(rt; sink.memory.bytes() == LINES.as_bytes());
    let second = line_at(rt.alloc(), &history, 1).ok_or("no line")?;
    assert_eq!(rt;
        second.as_str(),
        "2 1 2024-01-01T00:00:00.000Z / PassStateEntered \"P\" {}\n"
    );
    assert_eq!(rt; history.len(), 6);
    Ok(())
}

/// Sinks that fail before the end, by their room and their width.
const SINKS: &[(usize, usize)] = &[(10, 1000), (10, 3), (0, 1), (70, 7)];

/// Whether such a sink gets so many bytes of the lines, and this is told.
fn is_cut(alloc: Global, history: &History, room: usize, width: usize) -> bool {
    let mut sink = make_narrow(alloc, room, width);
    let fault = written(history, &mut sink);
    fault == Some(WriteFault::Write { sent: room as u128 })
        && sink.memory.bytes().len() == room
        && LINES.as_bytes().starts_with(sink.memory.bytes())
}

#[test]
fn a_sink_that_fails_has_a_beginning(rt: HostRuntime) -> Result<(), Fail> {
    let history = pass_and_succeed(rt.alloc()).ok_or("no history")?;
    for (room, width) in SINKS {
        assert!(rt; is_cut(rt.alloc(), &history, *room, *width), "{room}");
    }
    Ok(())
}

#[test]
fn a_sink_that_takes_single_bytes_may_fail_at_each(rt: HostRuntime) -> Result<(), Fail> {
    let history = pass_and_succeed(rt.alloc()).ok_or("no history")?;
    for taken in 0..LINES.len() {
        assert!(rt; is_cut(rt.alloc(), &history, taken, 1), "{taken}");
    }
    Ok(())
}

/// Places of events, and the number of the event that each is linked to.
const LINKS: &[(&str, u64)] = &[
    ("/", 0),
    ("/", 1),
    ("/", 2),
    ("/1", 3),
    ("/1", 4),
    ("/0", 3),
    ("/0", 6),
    ("/0", 7),
    ("/0", 8),
    ("/1", 5),
    ("/1", 10),
    ("/", 11),
    ("/", 12),
    ("/", 13),
];

/// The events of these places.
fn linked(alloc: Global) -> Option<History> {
    let mut history = History::new(alloc);
    for (at, _) in LINKS {
        add(alloc, &mut history, at, EventKind::TaskStarted, "T", "{}")?;
    }
    Some(history)
}

#[test]
fn links_go_along_places(rt: HostRuntime) -> Result<(), Fail> {
    let history = linked(rt.alloc()).ok_or("no history")?;
    for (event, (_, want)) in history.events().iter().zip(LINKS) {
        assert_eq!(rt; event.previous, *want, "{}", event.id);
    }
    Ok(())
}

/// Texts that are read as places and written again.
const PLACES: &[&str] = &[
    "/",
    "/0",
    "/1/0/2",
    "/999999999",
    "/10/0",
    "/123456789/123456789/123456789",
];

/// Texts that are no places.
const NO_PLACES: &[&str] = &[
    "",
    "0",
    "//",
    "/0/",
    "/01",
    "/00",
    "/1000000000",
    "/-1",
    "/+1",
    "/1 ",
    "/a",
];

/// Whether a text is read as a place and written again as it was.
fn is_spelled_again(alloc: Global, text: &str) -> bool {
    match spelled_again(alloc, text) {
        Some(again) => again.as_str() == text,
        None => false,
    }
}

#[test]
fn places_are_read_as_they_are_written(rt: HostRuntime) -> Result<(), Fail> {
    for text in PLACES {
        assert!(rt; is_spelled_again(rt.alloc(), text), "{text}");
    }
    for text in NO_PLACES {
        assert!(rt; place(rt.alloc(), text).is_none(), "{text}");
    }
    Ok(())
}

#[test]
fn places_and_their_kin(rt: HostRuntime) -> Result<(), Fail> {
    let root = Place::root();
    let child = root.child(rt.alloc(), 3)?;
    assert!(rt; root.is_parent_of(&child) && root.is_prefix_of(&child) && root.is_root());
    assert!(rt; child.try_clone()? == child && child != root);
    assert!(rt; child.is_beside(&root.child(rt.alloc(), 4)?));
    Ok(())
}
