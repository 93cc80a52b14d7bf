// Reading a stream.
ghost use Rattle.std.specs.Prelude.{◌≡◌, ◌≤◌, ◌++◌, [], List, ℕ, length, IfOk, OnOk, OnErr};
ghost use Rattle.asl_base_protocol.specs.declared.item.Item.{Item};
ghost use Rattle.asl_base_protocol.specs.Standing.{wanted, Stands, TurnIs, Begins, Puts, Goes, IsAfter, GoesOn};

use crate::item::Item;
use crate::part::{Part, Turn};
use std::alloc::{AllocError, Global};
use std::mem;

/// A reader of a stream, which is given its bytes in chunks of any lengths. It holds the bytes of one message at most.
#[derive(Drop)]
pub struct Reader {
    part: Part,
}

/// Behind the next bytes, at most as many as the part takes at once. The error is that memory ran out.
fn turn(alloc: Global, part: Part, bytes: &[u8]) -> Result<Turn, AllocError>
    ensures { (t : List ℕ) → Stands t part → length bytes.now ≤ wanted part
        → IfOk result (TurnIs (t ++ bytes.now)) }
{
    match part {
        Part::Header(header) => match bytes {
            [] => Ok(Turn::Part(Part::Header(header))),
            [byte, ..] => header.with(alloc, *byte),
        },
        Part::Content(filling) => filling.with(bytes),
        Part::Passed(passing) => Ok(passing.with(bytes)),
    }
}

/// Puts an item behind the others where it is whole, and gives what has come of the next one.
fn put(alloc: Global, turn: Turn, items: &mut Vec<Item>) -> Result<Part, AllocError>
    ensures part { (t : List ℕ) → TurnIs t turn
        → IfOk result (Puts t turn items.old.items items.new.items) }
    ensures kept { Begins items.old.items items.new.items }
{
    match turn {
        Turn::Item(item) => {
            items.push(item)?;
            Ok(Part::new(alloc))
        }
        Turn::Part(part) => Ok(part),
    }
}

/// Goes on with these bytes, puts each item that is whole then behind the others, and gives what has come of the next one. The error is that memory ran
/// out; some items may be there then.
fn go_on(
    alloc: Global,
    begun: Part,
    bytes: &[u8],
    items: &mut Vec<Item>,
) -> Result<Part, AllocError>
    ensures goes { (t : List ℕ) → Stands t begun
        → IfOk result (Goes t bytes.now items.old.items items.new.items) }
    ensures kept { Begins items.old.items items.new.items }
{
    let mut part = begun;
    let mut rest = bytes;
    while !rest.is_empty() {
        let (front, behind) = rest.split_at(part.wanted().min(rest.len()));
        let turn = turn(alloc, part, front)?;
        part = put(alloc, turn, items)?;
        rest = behind;
    }
    Ok(part)
}

impl Reader {
    /// A reader that was given nothing.
    pub fn new(alloc: Global) -> Reader
        ensures { IsAfter [] [] result }
    {
        Reader {
            part: Part::new(alloc),
        }
    }

    /// Takes the next bytes of the stream, and puts each item that is whole then behind the others. The error is that memory ran out: then no item was
    /// put there, and the reader is as one that was given nothing.
    pub fn feed(
        &mut self,
        alloc: Global,
        bytes: &[u8],
        items: &mut Vec<Item>,
    ) -> Result<(), AllocError>
        ensures ok { (input : List ℕ) (is : List Item) → IsAfter input is self.old
            → OnOk result (GoesOn input bytes.now is items.old.items items.new.items self.new) }
        ensures err { OnErr result (items.new.items ≡ items.old.items) }
        ensures anew { OnErr result (IsAfter [] [] self.new) }
    {
        let held = items.len();
        let part = mem::replace(&mut self.part, Part::new(alloc));
        match go_on(alloc, part, bytes, items) {
            Ok(part) => {
                self.part = part;
                Ok(())
            }
            Err(error) => {
                items.truncate(held);
                Err(error)
            }
        }
    }
}
