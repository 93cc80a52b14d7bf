// The graph of a definition.
ghost use Rattle.std.specs.Prelude.{◌≡◌, ◌++◌, map, IfOk, OnOk, string_bytes};
ghost use Rattle.asl_json.specs.View.{data_of};
ghost use Rattle.asl_graph.specs.Graphs.{lines_of, graph_text};
ghost use Rattle.asl_graph.specs.Marks.{marked_text};

use crate::edges::Edge;
use crate::format::Format;
use crate::language::Language;
use crate::leading::put_first_lines;
use crate::lines::{ending, heading};
use crate::marking::{RunEnd, put_mark_lines, put_run_end_line};
use crate::walking::put_machine_lines;
use asl_json::Json;
use std::alloc::{AllocError, Global};

/// Appends what stands before the end of a graph.
fn put_lines(
    alloc: Global,
    out: &mut String,
    language: Language,
    edges: &[Edge],
    definition: &Json,
) -> Result<(), AllocError>
    ensures { OnOk result (string_bytes out.new
        ≡ string_bytes out.old ++ lines_of language edges.now (data_of definition.now)) }
{
    out.push_str(heading(language))?;
    put_first_lines(out, language, edges, "", definition)?;
    put_machine_lines(alloc, out, language, edges, "", definition)
}

/// The graph of a definition in canonical form: each state with its type, its transitions and a mark for its retriers, and the machines
/// inside states as boxes. Names are written so that both languages take any of them. The error is that memory ran out.
pub fn graph(alloc: Global, format: Format, definition: &Json) -> Result<String, AllocError>
    ensures { IfOk result (λ t. string_bytes t ≡ graph_text format (data_of definition.now)) }
{
    let mut out = String::new(alloc);
    out.push_str(format.opening())?;
    put_lines(alloc, &mut out, format.language(), &[], definition)?;
    out.push_str(ending(format.language()))?;
    out.push_str(format.closing())?;
    Ok(out)
}

/// The same graph, with the states of these names marked, as those that a run entered, these transitions thick, as those that it took, and
/// how it ended. The error is that memory ran out.
pub fn marked_graph(
    alloc: Global,
    format: Format,
    names: &[String],
    edges: &[Edge],
    end: &RunEnd,
    definition: &Json,
) -> Result<String, AllocError>
    ensures { IfOk result (λ t. string_bytes t
        ≡ marked_text format (map string_bytes names.now) edges.now end.now (data_of definition.now)) }
{
    let language = format.language();
    let mut out = String::new(alloc);
    out.push_str(format.opening())?;
    put_lines(alloc, &mut out, language, edges, definition)?;
    put_mark_lines(&mut out, language, names)?;
    put_run_end_line(&mut out, language, end)?;
    let end = ending(language);
    out.push_str(end)?;
    out.push_str(format.closing())?;
    Ok(out)
}
