// What tests cover, as one JSON object.
ghost use Rattle.std.specs.Prelude.{◌≡◌, ◌≤◌, ◌++◌, IfOk, OnOk, string_bytes};
ghost use Rattle.asl_json_data.specs.Compact.{separator};
ghost use Rattle.asl_suite_coverage.specs.JsonText.{percent_member, covered_key, covered_member, points_member, share_members, pointer_key, pointer_member, line_member, told_member, truth, point_end, truth_member, point_object, points_from, role, role_member, name_member, list_start, list_end, file_object, text_start, files_start, files_comma, text_end, json_text};

use crate::point::Point;
use crate::reporting::{File, covered, covered_in, is_covered, percent, points_in};
use crate::siting::Sited;
use asl_json_write::put_quoted;
use asl_text::put_decimal;
use std::alloc::{AllocError, Global};

/// Appends a percent.
#[tactic(auto, unfolding(crate::specs::JsonText::percent_member))]
fn put_percent_member(out: &mut String, number: u32) -> Result<(), AllocError>
    ensures { OnOk result (string_bytes out.new ≡ string_bytes out.old ++ percent_member number) }
{
    out.push_str("\"percent\":")?;
    put_decimal(out, u64::from(number))
}

/// Appends the key of what is covered.
#[tactic(auto, unfolding(crate::specs::JsonText::covered_key))]
fn put_covered_key(out: &mut String) -> Result<(), AllocError>
    ensures { OnOk result (string_bytes out.new ≡ string_bytes out.old ++ covered_key) }
{
    out.push_str(",\"covered\":")
}

/// Appends how many are covered.
fn put_covered_member(out: &mut String, number: usize) -> Result<(), AllocError>
    ensures { OnOk result (string_bytes out.new ≡ string_bytes out.old ++ covered_member number) }
{
    put_covered_key(out)?;
    put_decimal(out, number as u64)
}

/// Appends of how many.
#[tactic(auto, unfolding(crate::specs::JsonText::points_member))]
fn put_points_member(out: &mut String, number: usize) -> Result<(), AllocError>
    ensures { OnOk result (string_bytes out.new ≡ string_bytes out.old ++ points_member number) }
{
    out.push_str(",\"points\":")?;
    put_decimal(out, number as u64)
}

/// Appends how many of all are covered.
fn put_share(out: &mut String, number: usize, all: usize) -> Result<(), AllocError>
    requires { number ≤ all }
    ensures { OnOk result (string_bytes out.new
        ≡ string_bytes out.old ++ share_members number all) }
{
    put_percent_member(out, percent(number, all))?;
    put_covered_member(out, number)?;
    put_points_member(out, all)
}

/// Appends the key of a pointer.
#[tactic(auto, unfolding(crate::specs::JsonText::pointer_key))]
fn put_pointer_key(out: &mut String) -> Result<(), AllocError>
    ensures { OnOk result (string_bytes out.new ≡ string_bytes out.old ++ pointer_key) }
{
    out.push_str("{\"pointer\":")
}

/// Appends a pointer.
fn put_pointer_member(out: &mut String, pointer: &str) -> Result<(), AllocError>
    ensures { OnOk result (string_bytes out.new ≡ string_bytes out.old ++ pointer_member pointer.now) }
{
    put_pointer_key(out)?;
    put_quoted(out, pointer)
}

/// Appends a line.
#[tactic(auto, unfolding(crate::specs::JsonText::line_member))]
fn put_line_member(out: &mut String, line: u128) -> Result<(), AllocError>
    ensures { OnOk result (string_bytes out.new ≡ string_bytes out.old ++ line_member line) }
{
    out.push_str(",\"line\":")?;
    write!(out, "{line}")
}

/// Appends what is told of a point.
#[tactic(auto, unfolding(crate::specs::JsonText::told_member))]
fn put_told_member(out: &mut String, told: &str) -> Result<(), AllocError>
    ensures { OnOk result (string_bytes out.new ≡ string_bytes out.old ++ told_member told.now) }
{
    out.push_str(",\"point\":")?;
    put_quoted(out, told)
}

fn truth(is_so: bool) -> &'static str
    ensures { result.now ≡ truth is_so }
{
    if is_so { "true" } else { "false" }
}

/// Appends the end of a point.
#[tactic(auto, unfolding(crate::specs::JsonText::point_end))]
fn put_point_end(out: &mut String) -> Result<(), AllocError>
    ensures { OnOk result (string_bytes out.new ≡ string_bytes out.old ++ point_end) }
{
    out.push_str("}")
}

/// Appends whether it is covered.
fn put_truth_member(out: &mut String, is_so: bool) -> Result<(), AllocError>
    ensures { OnOk result (string_bytes out.new ≡ string_bytes out.old ++ truth_member is_so) }
{
    put_covered_key(out)?;
    out.push_str(truth(is_so))?;
    put_point_end(out)
}

fn put_point(out: &mut String, sited: &Sited<'_>) -> Result<(), AllocError>
    ensures { OnOk result (string_bytes out.new ≡ string_bytes out.old ++ point_object sited.now) }
{
    put_pointer_member(out, sited.pointer.as_str())?;
    put_line_member(out, sited.line)?;
    put_told_member(out, sited.point.told.as_str())?;
    put_truth_member(out, is_covered(sited.point))
}

/// Appends a comma before each part but the first.
fn separate(out: &mut String, number: usize) -> Result<(), AllocError>
    ensures { OnOk result (string_bytes out.new ≡ string_bytes out.old ++ separator number) }
{
    if number > 0 {
        out.push(',')?;
    }
    Ok(())
}

fn put_points(out: &mut String, sites: &[Sited<'_>]) -> Result<(), AllocError>
    ensures { OnOk result (string_bytes out.new ≡ string_bytes out.old ++ points_from 0 sites.now) }
{
    for (number, sited) in sites.iter().enumerate() {
        separate(out, number)?;
        put_point(out, sited)?;
    }
    Ok(())
}

/// What a file is to a suite.
fn role(file: File) -> &'static str
    ensures { result.now ≡ role file }
{
    match file {
        File::Definition => "definition",
        File::Mocks => "mocks",
    }
}

/// Appends which file it is.
#[tactic(auto, unfolding(crate::specs::JsonText::role_member))]
fn put_role_member(out: &mut String, file: File) -> Result<(), AllocError>
    ensures { OnOk result (string_bytes out.new ≡ string_bytes out.old ++ role_member file) }
{
    out.push_str("{\"role\":")?;
    put_quoted(out, role(file))
}

/// Appends its name.
#[tactic(auto, unfolding(crate::specs::JsonText::name_member))]
fn put_name_member(out: &mut String, name: &str) -> Result<(), AllocError>
    ensures { OnOk result (string_bytes out.new ≡ string_bytes out.old ++ name_member name.now) }
{
    out.push_str(",\"file\":")?;
    put_quoted(out, name)?;
    out.push_str(",")
}

/// Appends what stands before points.
#[tactic(auto, unfolding(crate::specs::JsonText::list_start))]
fn put_list_start(out: &mut String) -> Result<(), AllocError>
    ensures { OnOk result (string_bytes out.new ≡ string_bytes out.old ++ list_start) }
{
    out.push_str(",\"list\":[")
}

/// Appends what stands behind them.
#[tactic(auto, unfolding(crate::specs::JsonText::list_end))]
fn put_list_end(out: &mut String) -> Result<(), AllocError>
    ensures { OnOk result (string_bytes out.new ≡ string_bytes out.old ++ list_end) }
{
    out.push_str("]}")
}

/// Appends how much of a file of this name is covered, and where each of its points stands.
fn put_file(
    out: &mut String,
    file: File,
    name: &str,
    points: &[Point],
    sites: &[Sited<'_>],
) -> Result<(), AllocError>
    ensures { OnOk result (string_bytes out.new
        ≡ string_bytes out.old ++ file_object file name.now points.now sites.now) }
{
    put_role_member(out, file)?;
    put_name_member(out, name)?;
    put_share(out, covered_in(file, points), points_in(file, points))?;
    put_list_start(out)?;
    put_points(out, sites)?;
    put_list_end(out)
}

/// Appends the beginning.
#[tactic(auto, unfolding(crate::specs::JsonText::text_start))]
fn put_text_start(out: &mut String) -> Result<(), AllocError>
    ensures { OnOk result (string_bytes out.new ≡ string_bytes out.old ++ text_start) }
{
    out.push_str("{")
}

/// Appends what stands before files.
#[tactic(auto, unfolding(crate::specs::JsonText::files_start))]
fn put_files_start(out: &mut String) -> Result<(), AllocError>
    ensures { OnOk result (string_bytes out.new ≡ string_bytes out.old ++ files_start) }
{
    out.push_str(",\"files\":[")
}

/// Appends what stands between them.
#[tactic(auto, unfolding(crate::specs::JsonText::files_comma))]
fn put_files_comma(out: &mut String) -> Result<(), AllocError>
    ensures { OnOk result (string_bytes out.new ≡ string_bytes out.old ++ files_comma) }
{
    out.push_str(",")
}

/// Appends the end.
#[tactic(auto, unfolding(crate::specs::JsonText::text_end))]
fn put_text_end(out: &mut String) -> Result<(), AllocError>
    ensures { OnOk result (string_bytes out.new ≡ string_bytes out.old ++ text_end) }
{
    out.push_str("]}\n")
}

/// One JSON object on a line: how many of these points are covered, and of each file, which has this name, how many, and where each of its
/// points stands. The error is that memory ran out.
#[tactic(auto, using(crate::proofs::Counting::covered_few))]
pub fn json_text(
    alloc: Global,
    definition: &str,
    mocks: &str,
    points: &[Point],
    in_definition: &[Sited<'_>],
    in_mocks: &[Sited<'_>],
) -> Result<String, AllocError>
    ensures { IfOk result (λ t. string_bytes t
        ≡ json_text definition.now mocks.now points.now in_definition.now in_mocks.now) }
{
    let mut out = String::new(alloc);
    put_text_start(&mut out)?;
    put_share(&mut out, covered(points), points.len())?;
    put_files_start(&mut out)?;
    put_file(
        &mut out,
        File::Definition,
        definition,
        points,
        in_definition,
    )?;
    put_files_comma(&mut out)?;
    put_file(&mut out, File::Mocks, mocks, points, in_mocks)?;
    put_text_end(&mut out)?;
    Ok(out)
}
