//! Graphs by lists of arcs.

ghost use Rattle.std.specs.Prelude.{◌≡◌, ◌+◌, [], replicate, OnOk, IfOk};
ghost use Rattle.fm_flow.specs.Arcs.{graph_by, is_together, with_arc};

use fm_base::{NoMemory, Seq};
use fm_call_graph::same_name;
use std::alloc::Global;

/// The number of a node.
pub(crate) fn node(base: usize, number: usize) -> Result<usize, NoMemory>
    ensures { IfOk result (λ n. n ≡ base + number) }
{
    base.checked_add(number).ok_or(NoMemory)
}

fn add_arc(graph: &mut Vec<Seq<usize>>, arc: (usize, usize)) -> Result<(), NoMemory>
    ensures { OnOk result (graph.new.items ≡ with_arc graph.old.items arc) }
{
    if arc.0 < graph.len() {
        graph[arc.0].push(arc.1)?;
    }
    Ok(())
}

fn no_arcs(alloc: Global, count: usize) -> Result<Vec<Seq<usize>>, NoMemory>
    ensures { IfOk result (λ g. g.items ≡ replicate count []) }
{
    let mut graph = Vec::new(alloc);
    'nodes: for place in 0..count {
        graph.push(Seq::new(alloc))?;
    }
    Ok(graph)
}

/// The graph of so many nodes with these arcs.
pub(crate) fn graph_by(
    alloc: Global,
    count: usize,
    arcs: &[(usize, usize)],
) -> Result<Vec<Seq<usize>>, NoMemory>
    ensures { IfOk result (λ g. g.items ≡ graph_by count arcs.now) }
{
    let mut graph = no_arcs(alloc, count)?;
    'arcs: for arc in arcs {
        add_arc(&mut graph, *arc)?;
    }
    Ok(graph)
}

/// Whether two nodes are in one component, by the names of components.
pub(crate) fn is_together(names: &[usize], left: usize, right: usize) -> bool
    ensures { result ≡ is_together names.now left right }
{
    same_name(names.get(left).copied(), names.get(right).copied())
}
