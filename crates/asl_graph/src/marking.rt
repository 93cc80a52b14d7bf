// Marks on states, and on where a run ended.
ghost use Rattle.std.specs.Prelude.{◌≡◌, ◌++◌, map, OnOk, string_bytes};
ghost use Rattle.std.specs.List.{flat_map};
ghost use Rattle.asl_graph.specs.Marks.{mark_style, marked_lead, marked_end, mark_line, mark_lines, failed_end, succeeded_end, run_end_line};

use crate::language::Language;
use crate::naming::put_state_id;
use asl_json_shared::Name;
use std::alloc::AllocError;

/// How a run ended, as far as a graph shows it.
#[derive(Drop)]
pub enum RunEnd {
    /// It succeeded.
    Succeeded,
    /// It failed in the state of this name.
    Failed(Name),
    /// Neither.
    Open,
}

#[tactic(auto, unfolding(crate::specs::Marks::mark_style))]
fn mark_style(language: Language) -> &'static str
    ensures { result.now ≡ mark_style language }
{
    match language {
        Language::Mermaid => "classDef taken stroke-width:4px\n",
        Language::Dot => "",
    }
}

#[tactic(auto, unfolding(crate::specs::Marks::marked_lead))]
fn marked_lead(language: Language) -> &'static str
    ensures { result.now ≡ marked_lead language }
{
    match language {
        Language::Mermaid => "class ",
        Language::Dot => "",
    }
}

#[tactic(auto, unfolding(crate::specs::Marks::marked_end))]
fn marked_end(language: Language) -> &'static str
    ensures { result.now ≡ marked_end language }
{
    match language {
        Language::Mermaid => " taken\n",
        Language::Dot => " [penwidth=4];\n",
    }
}

/// Appends the mark of the state of this name.
fn put_mark_line(out: &mut String, language: Language, name: &str) -> Result<(), AllocError>
    ensures { OnOk result (string_bytes out.new
        ≡ string_bytes out.old ++ mark_line language name.now) }
{
    out.push_str(marked_lead(language))?;
    put_state_id(out, name)?;
    out.push_str(marked_end(language))
}

/// Appends the marks of the states of these names.
fn put_each(out: &mut String, language: Language, names: &[String]) -> Result<(), AllocError>
    ensures { OnOk result (string_bytes out.new
        ≡ string_bytes out.old ++ flat_map (mark_line language) (map string_bytes names.now)) }
{
    for name in names {
        put_mark_line(out, language, name.as_str())?;
    }
    Ok(())
}

/// Appends the style of marks, and the marks of the states of these names. The error is that memory ran out.
pub(crate) fn put_mark_lines(
    out: &mut String,
    language: Language,
    names: &[String],
) -> Result<(), AllocError>
    ensures { OnOk result (string_bytes out.new
        ≡ string_bytes out.old ++ mark_lines language (map string_bytes names.now)) }
{
    out.push_str(mark_style(language))?;
    put_each(out, language, names)
}

#[tactic(auto, unfolding(crate::specs::Marks::failed_end))]
fn failed_end(language: Language) -> &'static str
    ensures { result.now ≡ failed_end language }
{
    match language {
        Language::Mermaid => " fail\n",
        Language::Dot => " [color=red3];\n",
    }
}

#[tactic(auto, unfolding(crate::specs::Marks::succeeded_end))]
fn succeeded_end(language: Language) -> &'static str
    ensures { result.now ≡ succeeded_end language }
{
    match language {
        Language::Mermaid => " succeed\n",
        Language::Dot => " [color=green4];\n",
    }
}

/// Appends the mark of how a run ended. The error is that memory ran out.
pub(crate) fn put_run_end_line(
    out: &mut String,
    language: Language,
    end: &RunEnd,
) -> Result<(), AllocError>
    ensures { OnOk result (string_bytes out.new
        ≡ string_bytes out.old ++ run_end_line language end.now) }
{
    match end {
        RunEnd::Succeeded => {
            out.push_str(marked_lead(language))?;
            out.push('e')?;
            out.push_str(succeeded_end(language))
        }
        RunEnd::Failed(name) => {
            out.push_str(marked_lead(language))?;
            put_state_id(out, name.as_str())?;
            out.push_str(failed_end(language))
        }
        RunEnd::Open => Ok(()),
    }
}
