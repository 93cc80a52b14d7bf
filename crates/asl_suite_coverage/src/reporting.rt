// What is told of points.
ghost use Rattle.std.specs.Prelude.{◌≡◌, ◌≤◌, ◌++◌, IfOk, OnOk, string_bytes};
ghost use Rattle.std.specs.Fmt.{decimal};
ghost use Rattle.std.specs.List.{flat_map};
ghost use Rattle.asl_suite_coverage.specs.Points.{is_answer, is_in, is_covered_in, points_in, covered_in, is_covered, covered, percent, percent_of, share, missing, told_line, missing_line, point_line, heading, file_name, file_line, coverage_text};

use crate::point::Point;
use crate::spot::Part;
use asl_text::put_decimal;
use std::alloc::{AllocError, Global};

pub(crate) fn is_covered(point: &Point) -> bool
    ensures { result ≡ is_covered point.now }
{
    point.covered
}

/// How many points are covered.
pub(crate) fn covered(points: &[Point]) -> usize
    ensures { result ≡ covered points.now }
{
    points.iter().filter(|point| is_covered(point)).count()
}

/// So many of all, as a whole percent, rounded down; 100 where there are none.
#[tactic(auto, using(crate::proofs::Counting::percent_few))]
pub(crate) fn percent(number: usize, all: usize) -> u32
    requires { number ≤ all }
    ensures { result ≡ percent number all }
{
    if all == 0 {
        return 100;
    }
    let percent = number as u128 * 100 / all as u128;
    percent as u32
}

/// The whole percent of the points that are covered, rounded down; 100 where there are none.
#[tactic(auto, using(crate::proofs::Counting::covered_few))]
pub(crate) fn percent_of(points: &[Point]) -> u32
    ensures { result ≡ percent_of points.now }
{
    percent(covered(points), points.len())
}

/// A file of which there are points.
#[derive(Clone, Copy)]
pub enum File {
    Definition,
    Mocks,
}

fn is_answer(part: Part) -> bool
    ensures { result ≡ is_answer part }
{
    matches!(part, Part::Answer(_))
}

/// Whether a point is one of this file.
pub(crate) fn is_in(file: File, point: &Point) -> bool
    ensures { result ≡ is_in file point.now }
{
    match file {
        File::Mocks => is_answer(point.spot.part),
        File::Definition => !is_answer(point.spot.part),
    }
}

fn is_covered_in(file: File, point: &Point) -> bool
    ensures { result ≡ is_covered_in file point.now }
{
    is_in(file, point) && is_covered(point)
}

/// How many points of this file there are.
pub(crate) fn points_in(file: File, points: &[Point]) -> usize
    ensures { result ≡ points_in file points.now }
{
    points.iter().filter(|point| is_in(file, point)).count()
}

/// How many points of this file are covered.
pub(crate) fn covered_in(file: File, points: &[Point]) -> usize
    ensures { result ≡ covered_in file points.now }
{
    points
        .iter()
        .filter(|point| is_covered_in(file, point))
        .count()
}

#[tactic(auto, unfolding(crate::specs::Points::missing))]
fn put_word(out: &mut String) -> Result<(), AllocError>
    ensures { OnOk result (string_bytes out.new ≡ string_bytes out.old ++ missing) }
{
    out.push_str("not covered: ")
}

fn put_told(out: &mut String, point: &Point) -> Result<(), AllocError>
    ensures { OnOk result (string_bytes out.new ≡ string_bytes out.old ++ told_line point.now) }
{
    out.push_str(point.told.as_str())?;
    out.push('\n')
}

fn put_missing(out: &mut String, point: &Point) -> Result<(), AllocError>
    ensures { OnOk result (string_bytes out.new ≡ string_bytes out.old ++ missing_line point.now) }
{
    put_word(out)?;
    put_told(out, point)
}

/// Appends the line of a point, unless it is covered. The error is that memory ran out.
fn put_point(out: &mut String, point: &Point) -> Result<(), AllocError>
    ensures { OnOk result (string_bytes out.new ≡ string_bytes out.old ++ point_line point.now) }
{
    if is_covered(point) {
        Ok(())
    } else {
        put_missing(out, point)
    }
}

fn put_points(out: &mut String, points: &[Point]) -> Result<(), AllocError>
    ensures { OnOk result (string_bytes out.new
        ≡ string_bytes out.old ++ flat_map point_line points.now) }
{
    for point in points {
        put_point(out, point)?;
    }
    Ok(())
}

/// Appends how many of all are covered, and the end of the line. The error is that memory ran out.
fn put_share(out: &mut String, number: usize, all: usize) -> Result<(), AllocError>
    requires { number ≤ all }
    ensures { OnOk result (string_bytes out.new ≡ string_bytes out.old ++ share number all) }
{
    put_decimal(out, u64::from(percent(number, all)))?;
    out.push_str("% (")?;
    put_decimal(out, number as u64)?;
    out.push_str(" of ")?;
    put_decimal(out, all as u64)?;
    out.push_str(")\n")
}

/// Appends the line of all points. The error is that memory ran out.
#[tactic(auto, using(crate::proofs::Counting::covered_few))]
fn put_heading(out: &mut String, points: &[Point]) -> Result<(), AllocError>
    ensures { OnOk result (string_bytes out.new ≡ string_bytes out.old ++ heading points.now) }
{
    out.push_str("coverage: ")?;
    put_share(out, covered(points), points.len())
}

fn file_name(file: File) -> &'static str
    ensures { result.now ≡ file_name file }
{
    match file {
        File::Definition => "definition: ",
        File::Mocks => "mock file: ",
    }
}

/// Appends the line of the points of this file. The error is that memory ran out.
fn put_file(out: &mut String, file: File, points: &[Point]) -> Result<(), AllocError>
    ensures { OnOk result (string_bytes out.new ≡ string_bytes out.old ++ file_line file points.now) }
{
    out.push_str(file_name(file))?;
    put_share(out, covered_in(file, points), points_in(file, points))
}

/// The text of these points: how many are covered, of all and of each file, and a line for each that isn't. The error is that memory ran out.
pub(crate) fn text_of(alloc: Global, points: &[Point]) -> Result<String, AllocError>
    ensures { IfOk result (λ t. string_bytes t ≡ coverage_text points.now) }
{
    let mut text = String::new(alloc);
    put_heading(&mut text, points)?;
    put_file(&mut text, File::Definition, points)?;
    put_file(&mut text, File::Mocks, points)?;
    put_points(&mut text, points)?;
    Ok(text)
}
