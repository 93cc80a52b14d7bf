// Why two steps may not change places.
ghost use Rattle.std.specs.Prelude.{◌≡◌, ◌++◌, IfOk, OnOk, OnErr, string_bytes};
ghost use Rattle.asl_json_write.specs.Buffers.{Keeps};
ghost use Rattle.asl_exec.specs.ObstacleText.{obstacle_text, reason_text};

use asl_history::Place;
use asl_json_shared::Name;
use asl_json_write::{put_quoted, whole_or_none};
use asl_run_state::{Refusal, put_reply};
use std::alloc::AllocError;

/// Why two steps may not change places. Of several reasons the first in this order is answered; where it holds of both steps, it
/// is told of the one that was named first.
#[derive(PartialEq, Eq)]
pub enum Obstacle {
    /// Both steps are at this place.
    OnePlace(Place),
    /// The first of these places is above the second.
    Above(Place, Place),
    /// The moments differ.
    TwoMoments,
    /// The step at this place is refused now, for this reason.
    Refused(Place, Refusal),
    /// Both steps invoke the Task of this name.
    OneTask(Name),
    /// The step at this place ends the execution.
    Ends(Place),
    /// The step at this place fails its branch.
    Fails(Place),
    /// There are more than 24,984 events.
    NoRoom,
}

// Written out, so that a caller's proof sees one call and not the drop of each part.
impl Drop for Obstacle {
    fn drop(self) {
        match self {
            Obstacle::OnePlace(_place) => {}
            Obstacle::Above(_place, _other) => {}
            Obstacle::TwoMoments => {}
            Obstacle::Refused(_place, _refusal) => {}
            Obstacle::OneTask(_name) => {}
            Obstacle::Ends(_place) => {}
            Obstacle::Fails(_place) => {}
            Obstacle::NoRoom => {}
        }
    }
}

impl Obstacle {
    /// An equal obstacle, which shares its places and its name. It takes no memory. The error is that there are too many copies.
    pub fn try_clone(&self) -> Result<Obstacle, AllocError>
        ensures { IfOk result (λ o. o ≡ self.now) }
    {
        match self {
            Obstacle::OnePlace(place) => Ok(Obstacle::OnePlace(place.try_clone()?)),
            Obstacle::Above(place, other) => {
                Ok(Obstacle::Above(place.try_clone()?, other.try_clone()?))
            }
            Obstacle::TwoMoments => Ok(Obstacle::TwoMoments),
            Obstacle::Refused(place, refusal) => {
                Ok(Obstacle::Refused(place.try_clone()?, *refusal))
            }
            Obstacle::OneTask(name) => Ok(Obstacle::OneTask(name.try_clone()?)),
            Obstacle::Ends(place) => Ok(Obstacle::Ends(place.try_clone()?)),
            Obstacle::Fails(place) => Ok(Obstacle::Fails(place.try_clone()?)),
            Obstacle::NoRoom => Ok(Obstacle::NoRoom),
        }
    }
}

/// Appends the reason. Where memory runs out, a part of it may be there.
fn put_reason(out: &mut String, obstacle: &Obstacle) -> Result<(), AllocError>
    ensures ok { OnOk result (string_bytes out.new
        ≡ string_bytes out.old ++ reason_text obstacle.now) }
    ensures kept { Keeps (string_bytes out.old) (string_bytes out.new) }
{
    match obstacle {
        Obstacle::OnePlace(place) => {
            out.push_str("both are at ")?;
            place.put(out)
        }
        Obstacle::Above(place, other) => {
            place.put(out)?;
            out.push_str(" is above ")?;
            other.put(out)
        }
        Obstacle::TwoMoments => out.push_str("the moments differ"),
        Obstacle::Refused(place, refusal) => {
            place.put(out)?;
            out.push(' ')?;
            put_reply(out, Some(*refusal))
        }
        Obstacle::OneTask(name) => {
            out.push_str("both invoke ")?;
            put_quoted(out, name.as_str())
        }
        Obstacle::Ends(place) => {
            place.put(out)?;
            out.push_str(" ends the execution")
        }
        Obstacle::Fails(place) => {
            place.put(out)?;
            out.push_str(" fails its branch")
        }
        Obstacle::NoRoom => out.push_str("more than 24984 events"),
    }
}

/// Appends `not exchangeable`, a colon and the reason. Where memory runs out, a part of it may be there.
fn put_obstacle_parts(out: &mut String, obstacle: &Obstacle) -> Result<(), AllocError>
    ensures ok { OnOk result (string_bytes out.new
        ≡ string_bytes out.old ++ obstacle_text obstacle.now) }
    ensures kept { Keeps (string_bytes out.old) (string_bytes out.new) }
{
    out.push_str("not exchangeable: ")?;
    put_reason(out, obstacle)
}

/// Appends `not exchangeable`, a colon and the reason, without a line feed. The error is that memory ran out, and then nothing is
/// appended.
pub fn put_obstacle(out: &mut String, obstacle: &Obstacle) -> Result<(), AllocError>
    ensures ok { OnOk result (string_bytes out.new
        ≡ string_bytes out.old ++ obstacle_text obstacle.now) }
    ensures err { OnErr result (string_bytes out.new ≡ string_bytes out.old) }
{
    let len = out.as_str().len();
    let appended = put_obstacle_parts(out, obstacle);
    whole_or_none(out, len, appended)
}
