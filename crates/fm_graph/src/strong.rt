//! Strong components.

ghost use Rattle.std.specs.Prelude.{◌≡◌, [], map, reverse, IfOk};
ghost use Rattle.fm_graph.specs.Graph.{IsComponents};
ghost use Rattle.fm_graph.specs.Search.{name_of, IsSearchOf};

use crate::search::{Mark, Search, mark_at};
use fm_base::{NoMemory, Seq};
use std::alloc::Global;

fn new_search(alloc: Global, graph: &[Seq<usize>]) -> Result<Search, NoMemory>
    ensures search { IfOk result (λ s. IsSearchOf graph.now s) }
    ensures no_path { IfOk result (λ s. reverse s.segments.items ≡ []) }
{
    Ok(Search {
        marks: vec![in alloc; Mark::Unseen; graph.len()]?,
        path: Vec::new(alloc),
        segments: Vec::new(alloc),
        pending: Vec::new(alloc),
    })
}

fn name_of(mark: Mark) -> usize
    ensures { result ≡ name_of mark }
{
    match mark {
        Mark::Unseen => 0,
        Mark::OnPath(place) => place,
        Mark::Done(name) => name,
    }
}

fn names_of(alloc: Global, marks: &[Mark]) -> Result<Vec<usize>, NoMemory>
    ensures { IfOk result (λ names. names.items ≡ map name_of marks.now) }
{
    let mut names = Vec::new(alloc);
    for mark in marks {
        names.push(name_of(*mark))?;
    }
    Ok(names)
}

/// The strong components: for each node the name of its component, which is one of the nodes in it. The time is in
/// proportion to the nodes and edges. An edge to a node past the end leads nowhere.
pub fn components(alloc: Global, graph: &[Seq<usize>]) -> Result<Vec<usize>, NoMemory>
    ensures { IfOk result (λ names. IsComponents graph.now names.items) }
{
    let mut search = new_search(alloc, graph)?;
    'roots: for root in 0..graph.len() {
        if let Mark::Unseen = mark_at(&search.marks, root) {
            search.explore(graph, root)?;
        }
    }
    names_of(alloc, &search.marks)
}
