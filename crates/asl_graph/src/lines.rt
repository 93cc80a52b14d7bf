// The lines of a graph.
ghost use Rattle.std.specs.Prelude.{◌≡◌, ◌++◌, OnOk, string_bytes};
ghost use Rattle.asl_graph.specs.Lines.{heading, ending, arrow, line_end, edge_end, label_arrow, label_end, label_open, label_close, label_break, state_label, state_line, plain_line, labelled_line, begin_label, end_label, both_marks, begin_line, begin_lines, end_line, box_open, box_label, box_label_end, box_close, box_heading, box_ending, dotted, dotted_end};

use crate::language::Language;
use crate::naming::{put_box_key, put_shown, put_state_id};
use std::alloc::AllocError;

#[tactic(auto, unfolding(crate::specs::Lines::heading))]
pub(crate) fn heading(language: Language) -> &'static str
    ensures { result.now ≡ heading language }
{
    match language {
        Language::Mermaid =>
            "flowchart TD\nclassDef fail stroke:#c00\nclassDef succeed stroke:#080\n",
        Language::Dot => "digraph {\nnode [shape=box];\nlabeljust=l;\n",
    }
}

#[tactic(auto, unfolding(crate::specs::Lines::ending))]
pub(crate) fn ending(language: Language) -> &'static str
    ensures { result.now ≡ ending language }
{
    match language {
        Language::Mermaid => "",
        Language::Dot => "}\n",
    }
}

#[tactic(auto, unfolding(crate::specs::Lines::arrow))]
fn arrow(language: Language, taken: bool) -> &'static str
    ensures { result.now ≡ arrow language taken }
{
    match (language, taken) {
        (Language::Mermaid, false) => " --> ",
        (Language::Mermaid, true) => " ==> ",
        (Language::Dot, _) => " -> ",
    }
}

#[tactic(auto, unfolding(crate::specs::Lines::edge_end))]
fn edge_end(language: Language, taken: bool) -> &'static str
    ensures { result.now ≡ edge_end language taken }
{
    match (language, taken) {
        (Language::Mermaid, _) => "\n",
        (Language::Dot, false) => ";\n",
        (Language::Dot, true) => " [penwidth=4];\n",
    }
}

#[tactic(auto, unfolding(crate::specs::Lines::label_arrow))]
fn label_arrow(taken: bool) -> &'static str
    ensures { result.now ≡ label_arrow taken }
{
    if taken { " ==>|\"" } else { " -->|\"" }
}

#[tactic(auto, unfolding(crate::specs::Lines::label_end))]
fn label_end(taken: bool) -> &'static str
    ensures { result.now ≡ label_end taken }
{
    if taken {
        "\", penwidth=4];\n"
    } else {
        "\"];\n"
    }
}

#[tactic(auto, unfolding(crate::specs::Lines::line_end))]
fn line_end(language: Language) -> &'static str
    ensures { result.now ≡ line_end language }
{
    match language {
        Language::Mermaid => "\n",
        Language::Dot => ";\n",
    }
}

#[tactic(auto, unfolding(crate::specs::Lines::label_open))]
fn label_open(language: Language) -> &'static str
    ensures { result.now ≡ label_open language }
{
    match language {
        Language::Mermaid => "[\"",
        Language::Dot => " [label=\"",
    }
}

#[tactic(auto, unfolding(crate::specs::Lines::label_break))]
fn label_break(language: Language) -> &'static str
    ensures { result.now ≡ label_break language }
{
    match language {
        Language::Mermaid => "<br/>",
        Language::Dot => "\\n",
    }
}

/// What ends the label of a state of this type.
#[tactic(auto, unfolding(crate::specs::Lines::label_close))]
fn label_close(language: Language, kind: &str) -> &'static str
    ensures { result.now ≡ label_close language kind.now }
{
    match language {
        Language::Mermaid => match kind {
            "Fail" => "\"]:::fail",
            "Succeed" => "\"]:::succeed",
            _ => "\"]",
        },
        Language::Dot => match kind {
            "Fail" => "\", color=red3]",
            "Succeed" => "\", color=green4]",
            _ => "\"]",
        },
    }
}

/// Appends the label of a state of this name, type and mark.
fn put_state_label(
    out: &mut String,
    language: Language,
    name: &str,
    kind: &str,
    mark: &str,
) -> Result<(), AllocError>
    ensures { OnOk result (string_bytes out.new
        ≡ string_bytes out.old ++ state_label language name.now kind.now mark.now) }
{
    put_shown(out, language, name)?;
    out.push_str(label_break(language))?;
    put_shown(out, language, kind)?;
    out.push_str(mark)
}

/// Appends the line of a state of this name, type and mark.
pub(crate) fn put_state_line(
    out: &mut String,
    language: Language,
    name: &str,
    kind: &str,
    mark: &str,
) -> Result<(), AllocError>
    ensures { OnOk result (string_bytes out.new
        ≡ string_bytes out.old ++ state_line language name.now kind.now mark.now) }
{
    put_state_id(out, name)?;
    out.push_str(label_open(language))?;
    put_state_label(out, language, name, kind, mark)?;
    out.push_str(label_close(language, kind))?;
    out.push_str(line_end(language))
}

/// Appends the line of a transition that needs no label; a thick one where it was taken.
pub(crate) fn put_plain_line(
    out: &mut String,
    language: Language,
    taken: bool,
    from: &str,
    to: &str,
) -> Result<(), AllocError>
    ensures { OnOk result (string_bytes out.new
        ≡ string_bytes out.old ++ plain_line language taken from.now to.now) }
{
    put_state_id(out, from)?;
    out.push_str(arrow(language, taken))?;
    put_state_id(out, to)?;
    out.push_str(edge_end(language, taken))
}

fn put_in_mermaid(
    out: &mut String,
    taken: bool,
    from: &str,
    label: &str,
    to: &str,
) -> Result<(), AllocError>
    ensures { OnOk result (string_bytes out.new
        ≡ string_bytes out.old ++ labelled_line Language.Mermaid taken from.now label.now to.now) }
{
    put_state_id(out, from)?;
    out.push_str(label_arrow(taken))?;
    out.push_str(label)?;
    out.push_str("\"| ")?;
    put_state_id(out, to)?;
    out.push('\n')
}

fn put_in_dot(
    out: &mut String,
    taken: bool,
    from: &str,
    label: &str,
    to: &str,
) -> Result<(), AllocError>
    ensures { OnOk result (string_bytes out.new
        ≡ string_bytes out.old ++ labelled_line Language.Dot taken from.now label.now to.now) }
{
    put_state_id(out, from)?;
    out.push_str(" -> ")?;
    put_state_id(out, to)?;
    out.push_str(" [label=\"")?;
    out.push_str(label)?;
    out.push_str(label_end(taken))
}

/// Appends the line of a transition with a label, which is shown already; a thick one where it was taken.
pub(crate) fn put_labelled_line(
    out: &mut String,
    language: Language,
    taken: bool,
    from: &str,
    label: &str,
    to: &str,
) -> Result<(), AllocError>
    ensures { OnOk result (string_bytes out.new
        ≡ string_bytes out.old ++ labelled_line language taken from.now label.now to.now) }
{
    match language {
        Language::Mermaid => put_in_mermaid(out, taken, from, label, to),
        Language::Dot => put_in_dot(out, taken, from, label, to),
    }
}

#[tactic(auto, unfolding(crate::specs::Lines::begin_label))]
fn begin_label(language: Language) -> &'static str
    ensures { result.now ≡ begin_label language }
{
    match language {
        Language::Mermaid => "((\" \"))",
        Language::Dot => " [shape=point]",
    }
}

#[tactic(auto, unfolding(crate::specs::Lines::end_label))]
fn end_label(language: Language) -> &'static str
    ensures { result.now ≡ end_label language }
{
    match language {
        Language::Mermaid => "(((\" \")))",
        Language::Dot => " [shape=point, peripheries=2]",
    }
}

/// Appends the marks where a machine begins and where it ends, by what tells it from others.
fn put_both_marks(out: &mut String, language: Language, key: &str) -> Result<(), AllocError>
    ensures { OnOk result (string_bytes out.new
        ≡ string_bytes out.old ++ both_marks language key.now) }
{
    out.push('i')?;
    out.push_str(key)?;
    out.push_str(begin_label(language))?;
    out.push_str(line_end(language))?;
    out.push('e')?;
    out.push_str(key)?;
    out.push_str(end_label(language))?;
    out.push_str(line_end(language))
}

fn put_begin_line(
    out: &mut String,
    language: Language,
    taken: bool,
    key: &str,
    first: &str,
) -> Result<(), AllocError>
    ensures { OnOk result (string_bytes out.new
        ≡ string_bytes out.old ++ begin_line language taken key.now first.now) }
{
    out.push('i')?;
    out.push_str(key)?;
    out.push_str(arrow(language, taken))?;
    put_state_id(out, first)?;
    out.push_str(edge_end(language, taken))
}

/// Appends both marks of a machine, and the line to its first state; a thick one where it was taken.
pub(crate) fn put_begin_lines(
    out: &mut String,
    language: Language,
    taken: bool,
    key: &str,
    first: &str,
) -> Result<(), AllocError>
    ensures { OnOk result (string_bytes out.new
        ≡ string_bytes out.old ++ begin_lines language taken key.now first.now) }
{
    put_both_marks(out, language, key)?;
    put_begin_line(out, language, taken, key, first)
}

/// Appends the line from a state to the mark where its machine ends.
pub(crate) fn put_end_line(
    out: &mut String,
    language: Language,
    key: &str,
    from: &str,
) -> Result<(), AllocError>
    ensures { OnOk result (string_bytes out.new
        ≡ string_bytes out.old ++ end_line language key.now from.now) }
{
    put_state_id(out, from)?;
    out.push_str(arrow(language, false))?;
    out.push('e')?;
    out.push_str(key)?;
    out.push_str(edge_end(language, false))
}

#[tactic(auto, unfolding(crate::specs::Lines::box_open))]
fn box_open(language: Language) -> &'static str
    ensures { result.now ≡ box_open language }
{
    match language {
        Language::Mermaid => "subgraph b",
        Language::Dot => "subgraph cluster_b",
    }
}

#[tactic(auto, unfolding(crate::specs::Lines::box_label))]
fn box_label(language: Language) -> &'static str
    ensures { result.now ≡ box_label language }
{
    match language {
        Language::Mermaid => " [\"",
        Language::Dot => " {\nlabel=\"",
    }
}

#[tactic(auto, unfolding(crate::specs::Lines::box_label_end))]
fn box_label_end(language: Language) -> &'static str
    ensures { result.now ≡ box_label_end language }
{
    match language {
        Language::Mermaid => "\"]\n",
        Language::Dot => "\";\n",
    }
}

/// Appends the beginning of the box of the machine with this number inside a state; what tells of it is shown already.
pub(crate) fn put_box_heading(
    out: &mut String,
    language: Language,
    name: &str,
    number: usize,
    told: &str,
) -> Result<(), AllocError>
    ensures { OnOk result (string_bytes out.new
        ≡ string_bytes out.old ++ box_heading language name.now number told.now) }
{
    out.push_str(box_open(language))?;
    put_box_key(out, name, number)?;
    out.push_str(box_label(language))?;
    put_shown(out, language, name)?;
    out.push_str(told)?;
    out.push_str(box_label_end(language))
}

#[tactic(auto, unfolding(crate::specs::Lines::box_close))]
fn box_close(language: Language) -> &'static str
    ensures { result.now ≡ box_close language }
{
    match language {
        Language::Mermaid => "end\n",
        Language::Dot => "}\n",
    }
}

#[tactic(auto, unfolding(crate::specs::Lines::dotted))]
fn dotted(language: Language) -> &'static str
    ensures { result.now ≡ dotted language }
{
    match language {
        Language::Mermaid => " -.-> ",
        Language::Dot => " -> ",
    }
}

#[tactic(auto, unfolding(crate::specs::Lines::dotted_end))]
fn dotted_end(language: Language) -> &'static str
    ensures { result.now ≡ dotted_end language }
{
    match language {
        Language::Mermaid => "\n",
        Language::Dot => " [style=dotted];\n",
    }
}

/// Appends the end of that box, and the line from the state into it.
pub(crate) fn put_box_ending(
    out: &mut String,
    language: Language,
    name: &str,
    number: usize,
) -> Result<(), AllocError>
    ensures { OnOk result (string_bytes out.new
        ≡ string_bytes out.old ++ box_ending language name.now number) }
{
    out.push_str(box_close(language))?;
    put_state_id(out, name)?;
    out.push_str(dotted(language))?;
    out.push('i')?;
    put_box_key(out, name, number)?;
    out.push_str(dotted_end(language))
}
