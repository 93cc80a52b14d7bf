// Covering points.
ghost use Rattle.std.specs.Prelude.{◌≡◌, map};
ghost use Rattle.std.specs.List.{list_any};
ghost use Rattle.asl_suite_coverage.specs.Spots.{same_spot};
ghost use Rattle.asl_suite_coverage.specs.Points.{is_covered_by, with_spots};

use crate::point::Point;
use crate::spot::{Spot, is_same};

/// Whether something is among what was seen.
fn is_seen(spot: &Spot, seen: &[Spot]) -> bool
    ensures { result ≡ list_any (same_spot spot.now) seen.now }
{
    seen.iter().any(|other| is_same(spot, other))
}

/// Whether a point was covered, or is by what was seen.
fn is_covered_by(point: &Point, seen: &[Spot]) -> bool
    ensures { result ≡ is_covered_by seen.now point.now }
{
    point.covered || is_seen(&point.spot, seen)
}

/// Covers the points of what was seen.
pub(crate) fn cover_all(points: &mut Vec<Point>, seen: &[Spot])
    ensures { points.new.items ≡ map (with_spots seen.now) points.old.items }
{
    for i in 0..points.len() {
        let covered = is_covered_by(&points[i], seen);
        points[i].covered = covered;
    }
}
