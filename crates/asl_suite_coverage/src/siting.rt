// Where points stand in the texts of their files.
ghost use Rattle.std.specs.Prelude.{◌≡◌, ◌≤◌, ◌+◌, ℕ, List, length, map, take, filter, IfOk};
ghost use Rattle.std.specs.List.{All};
ghost use Rattle.asl_json_data.specs.Data.{Data};
ghost use Rattle.asl_json_data.specs.Grammar.{IsText};
ghost use Rattle.asl_json.specs.View.{data_of};
ghost use Rattle.asl_json_spans.specs.Position.{IsPosition};
ghost use Rattle.asl_json_spans.specs.Standing.{IsOutline};
ghost use Rattle.asl_suite_coverage.specs.Points.{is_in};
ghost use Rattle.asl_suite_coverage.specs.Sites.{begin_of, IsLined, point_of};

use crate::point::Point;
use crate::reporting::{File, is_in};
use crate::spot::{Part, Spot};
use asl_json::Json;
use asl_json_spans::{Node, Outline, Position, outline};
use asl_json_write::Pointer;
use asl_lint_messages::States;
use std::alloc::{AllocError, Global};

/// A point, and where its value stands in its file.
#[derive(Drop)]
pub struct Sited<'a> {
    pub point: &'a Point,
    /// The place in the value of the file.
    pub pointer: Pointer,
    /// The line on which it begins, from 1.
    pub line: u128,
}

/// The part of a value of this number, if there is one.
fn part_at<'a>(value: &'a Json, number: usize) -> Option<&'a Json> {
    match value {
        Json::List(items) => items.get(number),
        Json::Dict(members) => match members.members().get(number) {
            Some(member) => Some(&member.value),
            None => None,
        },
        _ => None,
    }
}

/// The value at the end of a way, as far as something is there.
fn value_at<'a>(value: &'a Json, way: &[usize]) -> &'a Json {
    let mut here = value;
    for number in way {
        if let Some(part) = part_at(here, *number) {
            here = part;
        }
    }
    here
}

/// Adds the number of the member of this key, where there is one; the value under it.
fn add_key<'a>(way: &mut Vec<usize>, value: &'a Json, key: &str) -> Result<&'a Json, AllocError> {
    let Json::Dict(members) = value else {
        return Ok(value);
    };
    let Some(number) = members.position(key) else {
        return Ok(value);
    };
    way.push(number)?;
    match part_at(value, number) {
        Some(part) => Ok(part),
        None => Ok(value),
    }
}

/// Adds the way to an item of the list under this key.
fn add_item(
    way: &mut Vec<usize>,
    value: &Json,
    key: &str,
    number: usize,
) -> Result<(), AllocError> {
    let _list = add_key(way, value, key)?;
    way.push(number)?;
    Ok(())
}

/// Adds the way from a state to a part of it.
fn add_part(way: &mut Vec<usize>, state: &Json, part: Part) -> Result<(), AllocError> {
    match part {
        Part::State => Ok(()),
        Part::Next => {
            let _target = add_key(way, state, "Next")?;
            Ok(())
        }
        Part::Default => {
            let _target = add_key(way, state, "Default")?;
            Ok(())
        }
        Part::Rule(number) => add_item(way, state, "Choices", number),
        Part::Retrier(number) => add_item(way, state, "Retry", number),
        Part::Catcher(number) => add_item(way, state, "Catch", number),
        Part::Answer(number) => {
            way.push(number)?;
            Ok(())
        }
    }
}

/// The way to a part of a state of a definition.
fn state_way(
    alloc: Global,
    definition: &Json,
    states: &States<'_>,
    spot: &Spot,
) -> Result<Vec<usize>, AllocError> {
    let Some(state) = states.find(spot.name.as_str()) else {
        return Ok(Vec::new(alloc));
    };
    let mut way = state.place(alloc)?;
    let value = value_at(definition, &way);
    add_part(&mut way, value, spot.part)?;
    Ok(way)
}

/// The way to an answer of a mock file.
fn answer_way(alloc: Global, mocks: &Json, spot: &Spot) -> Result<Vec<usize>, AllocError> {
    let mut way = Vec::new(alloc);
    let responses = add_key(&mut way, mocks, "MockedResponses")?;
    let response = add_key(&mut way, responses, spot.name.as_str())?;
    add_part(&mut way, response, spot.part)?;
    Ok(way)
}

/// The way to what a point is of, in the value of its file.
fn way_to(
    alloc: Global,
    file: File,
    value: &Json,
    states: &States<'_>,
    spot: &Spot,
) -> Result<Vec<usize>, AllocError> {
    match file {
        File::Definition => state_way(alloc, value, states, spot),
        File::Mocks => answer_way(alloc, value, spot),
    }
}

/// The pointer with the step to the part of this number behind it.
fn pointed(pointer: Pointer, value: &Json, number: usize) -> Result<Pointer, AllocError> {
    match value.members().get(number) {
        Some(member) => pointer.at_name(member.key.as_str()),
        None => pointer.at_index(number),
    }
}

/// The pointer to the end of a way.
fn pointer_of(alloc: Global, value: &Json, way: &[usize]) -> Result<Pointer, AllocError> {
    let mut pointer = Pointer::whole(alloc);
    let mut here = value;
    for number in way {
        pointer = pointed(pointer, here, *number)?;
        if let Some(part) = part_at(here, *number) {
            here = part;
        }
    }
    Ok(pointer)
}

/// The byte at which a value begins; that of the text where there is none.
fn begin_of(node: Option<Node>) -> usize
    ensures { result ≡ begin_of node }
{
    match node {
        Some(node) => node.value.begin,
        None => 0,
    }
}

/// Where a byte is, from where another one is.
fn reached(text: &[u8], here: Position, to: usize) -> Position
    requires { IsPosition (take here.at text.now) here.lines here.characters }
    ensures at { to ≤ length text.now → result.at ≡ to }
    ensures position { IsPosition (take result.at text.now) result.lines result.characters }
{
    if to < here.at {
        return Position::start().forward(text, to);
    }
    here.forward(text, to)
}

/// Where the value at the end of a way begins, from where another one does.
fn reached_by(text: &[u8], outline: &Outline, here: Position, way: &[usize]) -> Position
    requires { IsPosition (take here.at text.now) here.lines here.characters }
    ensures lined { (d : Data) → IsOutline text.now d outline.now
        → IsLined text.now d (result.lines + 1) }
    ensures position { IsPosition (take result.at text.now) result.lines result.characters }
{
    reached(text, here, begin_of(outline.find(way)))
}

fn site_of<'a>(
    alloc: Global,
    point: &'a Point,
    value: &Json,
    way: &[usize],
    here: Position,
) -> Result<Sited<'a>, AllocError>
    ensures point { IfOk result (λ s. point_of s ≡ point.now) }
    ensures line { IfOk result (λ s. s.line ≡ here.lines + 1) }
{
    let pointer = pointer_of(alloc, value, way)?;
    Ok(Sited {
        point,
        pointer,
        line: here.lines as u128 + 1,
    })
}

/// Those of these points that are of a file.
fn own_points<'a>(
    alloc: Global,
    file: File,
    points: &'a [Point],
) -> Result<Vec<&'a Point>, AllocError>
    ensures { IfOk result (λ ps. map (λ p. p.now) ps.items ≡ filter (is_in file) points.now) }
{
    let mut own = Vec::new(alloc);
    for point in points {
        if is_in(file, point) {
            own.push(point)?;
        }
    }
    Ok(own)
}

/// These points of a file, each with where it stands in its text.
fn sited_on<'a>(
    alloc: Global,
    file: File,
    points: &[&'a Point],
    text: &[u8],
    value: &Json,
    outline: &Outline,
) -> Result<Vec<Sited<'a>>, AllocError>
    ensures points { IfOk result (λ ss. map point_of ss.items ≡ map (λ p. p.now) points.now) }
    ensures lines { IfOk result (λ ss. IsOutline text.now (data_of value.now) outline.now
        → All (λ s. IsLined text.now (data_of value.now) s.line) ss.items) }
{
    let states = States::of(alloc, value)?;
    let mut all = Vec::new(alloc);
    let mut here = Position::start();
    for point in points {
        let way = way_to(alloc, file, value, &states, &point.spot)?;
        here = reached_by(text, outline, here, &way);
        all.push(site_of(alloc, *point, value, &way, here)?)?;
    }
    Ok(all)
}

/// Those of these points that are of a file, each with where it stands in its text, which is of this value. The error is that memory ran out.
pub fn sites_of<'a>(
    alloc: Global,
    file: File,
    points: &'a [Point],
    text: &[u8],
    value: &Json,
) -> Result<Vec<Sited<'a>>, AllocError>
    ensures points { IfOk result (λ ss. map point_of ss.items ≡ filter (is_in file) points.now) }
    ensures lines { IfOk result (λ ss. IsText text.now (data_of value.now)
        → All (λ s. IsLined text.now (data_of value.now) s.line) ss.items) }
{
    let own = own_points(alloc, file, points)?;
    let outline = outline(alloc, text, value)?;
    let sites = sited_on(alloc, file, own.as_slice(), text, value, &outline)?;
    Ok(sites)
}
