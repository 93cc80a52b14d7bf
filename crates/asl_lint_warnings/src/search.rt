// What is reached along edges.
ghost use Rattle.std.specs.Prelude.{◌≡◌, ◌∷◌, [], ◌<◌, ◌↔◌, ℕ, true, IfOk, OnOk, get_or, map, length};
ghost use Rattle.asl_lint_warnings.specs.Ways.{Reaches};
ghost use Rattle.asl_lint_warnings.specs.private.Marks.{is_marked};
ghost use Rattle.asl_lint_warnings.specs.private.Growths.{Grown};

use std::alloc::{AllocError, Global};

/// Marks a node, and opens it where it wasn't marked.
fn mark(marks: &mut Vec<bool>, opened: &mut Vec<usize>, node: usize) -> Result<(), AllocError>
    ensures { OnOk result (Grown marks.old.items opened.old.items (node ∷ []) marks.new.items
        opened.new.items) }
{
    if node >= marks.len() || marks[node] {
        return Ok(());
    }
    opened.push(node)?;
    marks[node] = true;
    Ok(())
}

/// Marks these nodes.
fn mark_all(
    marks: &mut Vec<bool>,
    opened: &mut Vec<usize>,
    nodes: &[usize],
) -> Result<(), AllocError>
    ensures { OnOk result (Grown marks.old.items opened.old.items nodes.now marks.new.items
        opened.new.items) }
{
    for node in nodes {
        mark(marks, opened, *node)?;
    }
    Ok(())
}

/// The nodes that the edges of this one lead to.
fn nodes_behind(edges: &[Vec<usize>], node: usize) -> &[usize]
    ensures { result.now ≡ get_or (map (λ v. v.items) edges.now) node [] }
{
    match edges.get(node) {
        Some(nodes) => nodes,
        None => &[],
    }
}

/// Which nodes are reached from these along the edges, which lead from each node to those of its list. Each edge is looked at once. The
/// error is that memory ran out.
pub(crate) fn reached(
    alloc: Global,
    edges: &[Vec<usize>],
    starts: &[usize],
) -> Result<Vec<bool>, AllocError>
    ensures size { IfOk result (λ marks. length marks.items ≡ length edges.now) }
    ensures marks { IfOk result (λ marks. (i : ℕ) → i < length edges.now
        → (is_marked marks.items i ≡ true ↔ Reaches (map (λ v. v.items) edges.now) starts.now i)) }
{
    let mut marks = vec![in alloc; false; edges.len()]?;
    let mut opened = Vec::new(alloc);
    mark_all(&mut marks, &mut opened, starts)?;
    while let Some(node) = opened.pop() {
        mark_all(&mut marks, &mut opened, nodes_behind(edges, node))?;
    }
    Ok(marks)
}
