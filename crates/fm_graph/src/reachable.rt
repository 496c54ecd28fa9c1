//! What a node of a graph reaches.

ghost use Rattle.std.specs.Prelude.{◌≡◌, ◌<◌, length, true, false, IfOk};
ghost use Rattle.fm_graph.specs.Graph.{IsReached};
ghost use Rattle.fm_graph.specs.Flags.{flag_at, flags_after, pending_after};

use fm_base::{NoMemory, Seq};
use std::alloc::Global;

fn is_seen(flags: &[bool], node: usize) -> bool
    ensures value { result ≡ flag_at flags.now node }
    ensures within { result ≡ false → node < length flags.now }
{
    match flags.get(node) {
        Some(flag) => *flag,
        None => true,
    }
}

/// Looks at a node: where it's new, its edges are to be followed.
fn look(
    graph: &[Seq<usize>],
    node: usize,
    flags: &mut Vec<bool>,
    pending: &mut Vec<usize>,
) -> Result<(), NoMemory>
    requires { length flags.old.items ≡ length graph.now }
    ensures flags { IfOk result (λ _. flags.new.items ≡ flags_after flags.old.items node) }
    ensures pending { IfOk result
        (λ _. pending.new.items ≡ pending_after graph.now flags.old.items node pending.old.items) }
{
    if is_seen(flags, node) {
        return Ok(());
    }
    pending.extend_from_slice(graph[node].as_slice())?;
    flags[node] = true;
    Ok(())
}

/// For each node whether another one reaches it, by edges or by being it. The time is in proportion to the nodes and
/// edges. An edge to a node past the end leads nowhere.
pub fn reached(alloc: Global, graph: &[Seq<usize>], from: usize) -> Result<Vec<bool>, NoMemory>
    ensures { IfOk result (λ flags. IsReached graph.now from flags.items) }
{
    let mut flags = vec![in alloc; false; graph.len()]?;
    let mut pending = Vec::new(alloc);
    pending.push(from)?;
    'nodes: while let Some(node) = pending.pop() {
        look(graph, node, &mut flags, &mut pending)?;
    }
    Ok(flags)
}
