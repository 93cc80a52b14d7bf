// What tests cover, as a tracefile of LCOV.
ghost use Rattle.std.specs.Prelude.{◌≡◌, ◌++◌, IfOk, OnOk, count_by, drop, string_bytes};
ghost use Rattle.std.specs.List.{flat_map, list_any};
ghost use Rattle.asl_suite_coverage.specs.LcovText.{is_branch, is_way, is_way_taken, stands_on, is_covered_on, covered_on, line_on, line_at, lines_among, is_hit, hits, taken, branch_place, branch_number, branch_end, branch_start, branch_line, branch_lines, count_line, branches_found, line_place, line_line, lines_found, begin_record, end_record, record_text, lcov_text};

use crate::reporting::is_covered;
use crate::siting::Sited;
use crate::spot::Part;
use asl_text::put_decimal;
use std::alloc::{AllocError, Global};

/// A line on which points stand.
#[derive(Clone, Copy)]
pub struct Line {
    pub number: u128,
    /// How many of its points are covered.
    pub covered: usize,
}

/// Whether it is one of several ways on from a state.
fn is_branch(part: Part) -> bool
    ensures { result ≡ is_branch part }
{
    match part {
        Part::Rule(_) | Part::Default | Part::Retrier(_) | Part::Catcher(_) => true,
        Part::State | Part::Next | Part::Answer(_) => false,
    }
}

fn is_way(sited: &Sited<'_>) -> bool
    ensures { result ≡ is_way sited.now }
{
    is_branch(sited.point.spot.part)
}

fn is_way_taken(sited: &Sited<'_>) -> bool
    ensures { result ≡ is_way_taken sited.now }
{
    is_way(sited) && is_covered(sited.point)
}

fn stands_on(line: u128, sited: &Sited<'_>) -> bool
    ensures { result ≡ stands_on line sited.now }
{
    sited.line == line
}

fn is_covered_on(line: u128, sited: &Sited<'_>) -> bool
    ensures { result ≡ is_covered_on line sited.now }
{
    stands_on(line, sited) && is_covered(sited.point)
}

/// How many points on a line are covered.
fn covered_on(line: u128, sites: &[Sited<'_>]) -> usize
    ensures { result ≡ covered_on line sites.now }
{
    sites
        .iter()
        .filter(|sited| is_covered_on(line, sited))
        .count()
}

/// Whether a point stands on a line.
fn is_among(line: u128, sites: &[Sited<'_>]) -> bool
    ensures { result ≡ list_any (stands_on line) sites.now }
{
    sites.iter().any(|sited| stands_on(line, sited))
}

fn line_on(number: u128, sites: &[Sited<'_>]) -> Line
    ensures { result ≡ line_on sites.now number }
{
    Line {
        number,
        covered: covered_on(number, sites),
    }
}

/// Adds the line of a point, unless one of those behind it stands there, too.
fn add_line(
    lines: &mut Vec<Line>,
    sited: &Sited<'_>,
    behind: &[Sited<'_>],
    sites: &[Sited<'_>],
) -> Result<(), AllocError>
    ensures { OnOk result (lines.new.items
        ≡ lines.old.items ++ line_at sites.now sited.now behind.now) }
{
    if is_among(sited.line, behind) {
        return Ok(());
    }
    lines.push(line_on(sited.line, sites))?;
    Ok(())
}

/// The points behind so many.
fn behind<'a, 'b>(sites: &'a [Sited<'b>], count: usize) -> &'a [Sited<'b>]
    ensures { result.now ≡ drop count sites.now }
{
    let end = count.min(sites.len());
    &sites[end..]
}

/// The lines on which these stand, each once: where the last of its points is.
fn lines_of(alloc: Global, sites: &[Sited<'_>]) -> Result<Vec<Line>, AllocError>
    ensures { IfOk result (λ ls. ls.items ≡ lines_among sites.now sites.now) }
{
    let mut lines = Vec::new(alloc);
    for (i, sited) in sites.iter().enumerate() {
        add_line(&mut lines, sited, behind(sites, i + 1), sites)?;
    }
    Ok(lines)
}

fn is_hit(line: &Line) -> bool
    ensures { result ≡ is_hit line.now }
{
    line.covered > 0
}

/// How many of these lines have a point that is covered.
fn hits(lines: &[Line]) -> usize
    ensures { result ≡ hits lines.now }
{
    lines.iter().filter(|line| is_hit(line)).count()
}

fn taken(is_so: bool) -> &'static str
    ensures { result.now ≡ taken is_so }
{
    if is_so { "1\n" } else { "0\n" }
}

/// Appends on which line a way on stands.
#[tactic(auto, unfolding(crate::specs::LcovText::branch_place))]
fn put_branch_place(out: &mut String, line: u128) -> Result<(), AllocError>
    ensures { OnOk result (string_bytes out.new ≡ string_bytes out.old ++ branch_place line) }
{
    out.push_str("BRDA:")?;
    write!(out, "{line}")
}

/// Appends its number.
#[tactic(auto, unfolding(crate::specs::LcovText::branch_number))]
fn put_branch_number(out: &mut String, number: usize) -> Result<(), AllocError>
    ensures { OnOk result (string_bytes out.new ≡ string_bytes out.old ++ branch_number number) }
{
    out.push_str(",0,")?;
    put_decimal(out, number as u64)
}

/// Appends whether it is taken.
#[tactic(auto, unfolding(crate::specs::LcovText::branch_end))]
fn put_branch_end(out: &mut String, is_so: bool) -> Result<(), AllocError>
    ensures { OnOk result (string_bytes out.new ≡ string_bytes out.old ++ branch_end is_so) }
{
    out.push_str(",")?;
    out.push_str(taken(is_so))
}

/// Appends the line of a way on, which has this number among the points of its file.
fn put_branch(out: &mut String, number: usize, sited: &Sited<'_>) -> Result<(), AllocError>
    ensures { OnOk result (string_bytes out.new ≡ string_bytes out.old
        ++ branch_start number sited.now) }
{
    put_branch_place(out, sited.line)?;
    put_branch_number(out, number)?;
    put_branch_end(out, is_covered(sited.point))
}

fn put_branch_if(out: &mut String, number: usize, sited: &Sited<'_>) -> Result<(), AllocError>
    ensures { OnOk result (string_bytes out.new ≡ string_bytes out.old
        ++ branch_line number sited.now) }
{
    if is_way(sited) {
        put_branch(out, number, sited)
    } else {
        Ok(())
    }
}

fn put_branches(out: &mut String, sites: &[Sited<'_>]) -> Result<(), AllocError>
    ensures { OnOk result (string_bytes out.new
        ≡ string_bytes out.old ++ branch_lines 0 sites.now) }
{
    for (number, sited) in sites.iter().enumerate() {
        put_branch_if(out, number, sited)?;
    }
    Ok(())
}

/// How many ways on there are.
fn ways(sites: &[Sited<'_>]) -> usize
    ensures { result ≡ count_by is_way sites.now }
{
    sites.iter().filter(|sited| is_way(sited)).count()
}

/// How many of them are taken.
fn ways_taken(sites: &[Sited<'_>]) -> usize
    ensures { result ≡ count_by is_way_taken sites.now }
{
    sites.iter().filter(|sited| is_way_taken(sited)).count()
}

/// Appends a number behind this word, on a line.
#[tactic(auto, unfolding(crate::specs::LcovText::count_line))]
fn put_count(out: &mut String, word: &str, number: usize) -> Result<(), AllocError>
    ensures { OnOk result (string_bytes out.new ≡ string_bytes out.old ++ count_line word.now number) }
{
    out.push_str(word)?;
    put_decimal(out, number as u64)?;
    out.push_str("\n")
}

fn put_branches_found(out: &mut String, sites: &[Sited<'_>]) -> Result<(), AllocError>
    ensures { OnOk result (string_bytes out.new
        ≡ string_bytes out.old ++ branches_found sites.now) }
{
    put_count(out, "BRF:", ways(sites))?;
    put_count(out, "BRH:", ways_taken(sites))
}

/// Appends which line it is.
#[tactic(auto, unfolding(crate::specs::LcovText::line_place))]
fn put_line_place(out: &mut String, number: u128) -> Result<(), AllocError>
    ensures { OnOk result (string_bytes out.new ≡ string_bytes out.old ++ line_place number) }
{
    out.push_str("DA:")?;
    write!(out, "{number}")
}

fn put_line(out: &mut String, line: &Line) -> Result<(), AllocError>
    ensures { OnOk result (string_bytes out.new ≡ string_bytes out.old ++ line_line line.now) }
{
    put_line_place(out, line.number)?;
    put_count(out, ",", line.covered)
}

fn put_lines(out: &mut String, lines: &[Line]) -> Result<(), AllocError>
    ensures { OnOk result (string_bytes out.new
        ≡ string_bytes out.old ++ flat_map line_line lines.now) }
{
    for line in lines {
        put_line(out, line)?;
    }
    Ok(())
}

fn put_lines_found(out: &mut String, lines: &[Line]) -> Result<(), AllocError>
    ensures { OnOk result (string_bytes out.new
        ≡ string_bytes out.old ++ lines_found lines.now) }
{
    put_count(out, "LF:", lines.len())?;
    put_count(out, "LH:", hits(lines))
}

#[tactic(auto, unfolding(crate::specs::LcovText::end_record))]
fn put_end(out: &mut String) -> Result<(), AllocError>
    ensures { OnOk result (string_bytes out.new ≡ string_bytes out.old ++ end_record) }
{
    out.push_str("end_of_record\n")
}

#[tactic(auto, unfolding(crate::specs::LcovText::begin_record))]
fn put_begin(out: &mut String, name: &str) -> Result<(), AllocError>
    ensures { OnOk result (string_bytes out.new
        ≡ string_bytes out.old ++ begin_record name.now) }
{
    out.push_str("TN:\nSF:")?;
    out.push_str(name)?;
    out.push_str("\n")
}

/// Appends the record of a file of this name, of whose points these are.
fn put_record(
    alloc: Global,
    out: &mut String,
    name: &str,
    sites: &[Sited<'_>],
) -> Result<(), AllocError>
    ensures { OnOk result (string_bytes out.new
        ≡ string_bytes out.old ++ record_text name.now sites.now) }
{
    let lines = lines_of(alloc, sites)?;
    put_begin(out, name)?;
    put_branches(out, sites)?;
    put_branches_found(out, sites)?;
    put_lines(out, &lines)?;
    put_lines_found(out, &lines)?;
    put_end(out)
}

/// A tracefile of LCOV: a record for the definition and one for the mock file, which have these names, and of whose points these are. A
/// line's count is how many of its points are covered; rules, `Default`, retriers and catchers are branches, too. The error is that memory
/// ran out.
pub fn lcov_text(
    alloc: Global,
    definition: &str,
    mocks: &str,
    in_definition: &[Sited<'_>],
    in_mocks: &[Sited<'_>],
) -> Result<String, AllocError>
    ensures { IfOk result (λ t. string_bytes t
        ≡ lcov_text definition.now mocks.now in_definition.now in_mocks.now) }
{
    let mut out = String::new(alloc);
    put_record(alloc, &mut out, definition, in_definition)?;
    put_record(alloc, &mut out, mocks, in_mocks)?;
    Ok(out)
}
