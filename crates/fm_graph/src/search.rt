//! The search for strong components, by a path of segments that are strongly connected.

ghost use Rattle.std.specs.Prelude.{◌≡◌, ◌<◌, ◌≤◌, ◌++◌, [], ◌∷◌, length, map, reverse, take, true, slice_index_or, slice_set, Some, None, IfOk};
ghost use Rattle.fm_graph.specs.declared.search.Mark.TheVariants as mark;
ghost use Rattle.fm_graph.specs.Graph.{edges_of};
ghost use Rattle.fm_graph.specs.Search.{begins_behind, closed, head_of, is_seen, mark_at, merged, IsKnown, IsPlaced, IsRest, IsSearch, IsSearchOf, IsTurnFrom, IsTurnOf, KeepsSeen};

use fm_base::{NoMemory, Seq};

/// How far a node has come.
#[derive(Clone, Copy)]
pub enum Mark {
    Unseen,
    /// On the path, at this place.
    OnPath(usize),
    /// In the component with this name, which is one of its nodes.
    Done(usize),
}

/// Neighbours on the path that reach each other.
#[derive(Clone, Copy)]
pub struct Segment {
    /// Its first node.
    pub node: usize,
    /// Where it begins on the path.
    pub start: usize,
    /// Where its edges begin among the pending ones.
    pub rest: usize,
}

/// A search that goes on.
#[derive(Drop)]
pub struct Search {
    pub marks: Vec<Mark>,
    /// The nodes that are seen and not done.
    pub path: Vec<usize>,
    /// The path, cut into segments.
    pub segments: Vec<Segment>,
    /// The ends of edges that are still to be followed.
    pub pending: Vec<usize>,
}

pub(crate) fn mark_at(marks: &[Mark], node: usize) -> Mark
    ensures { result ≡ mark_at marks.now node }
{
    match marks.get(node) {
        Some(mark) => *mark,
        None => Mark::Done(node),
    }
}

fn last_segment(segments: &[Segment]) -> Option<Segment>
    ensures { result ≡ head_of (reverse segments.now) }
{
    segments.last().copied()
}

fn begins_behind(segments: &[Segment], place: usize) -> bool
    ensures { result ≡ begins_behind place (reverse segments.now) }
{
    match last_segment(segments) {
        Some(last) => place < last.start,
        None => false,
    }
}

/// Makes one segment of the last ones, as far as one that begins no later than a place.
fn merge(segments: &mut Vec<Segment>, place: usize)
    ensures { reverse segments.new.items ≡ merged place (reverse segments.old.items) }
{
    'segments: while begins_behind(segments, place) {
        let _ = segments.pop();
    }
}

/// Makes a component of the path from the start of a segment on.
fn close(marks: &mut Vec<Mark>, path: &mut Vec<usize>, segment: Segment)
    requires placed { IsPlaced marks.old.items path.old.items }
    requires known { IsKnown marks.old.items path.old.items }
    requires within { segment.start ≤ length path.old.items }
    ensures marks { marks.new.items ≡ map (closed segment.node segment.start) marks.old.items }
    ensures path { path.new.items ≡ take segment.start path.old.items }
{
    'nodes: while path.len() > segment.start {
        if let Some(node) = path.pop() {
            marks[node] = Mark::Done(segment.node);
        }
    }
}

impl Search {
    /// Puts a node on the path, as a segment of its own.
    fn visit(&mut self, graph: &[Seq<usize>], node: usize) -> Result<(), NoMemory>
        requires sized { length self.old.marks.items ≡ length graph.now }
        requires within { node < length graph.now }
        ensures marks { IfOk result (λ _. self.new.marks.items
            ≡ slice_set self.old.marks.items node (mark.OnPath (length self.old.path.items))) }
        ensures path { IfOk result (λ _. self.new.path.items ≡ self.old.path.items ++ node ∷ []) }
        ensures segments { IfOk result (λ _. reverse self.new.segments.items
            ≡ record { node = node; start = length self.old.path.items; rest = length self.old.pending.items }
            ∷ reverse self.old.segments.items) }
        ensures pending { IfOk result
            (λ _. self.new.pending.items ≡ self.old.pending.items ++ edges_of graph.now node) }
    {
        let start = self.path.len();
        let rest = self.pending.len();
        self.segments.push(Segment { node, start, rest })?;
        self.pending.extend_from_slice(graph[node].as_slice())?;
        self.path.push(node)?;
        self.marks[node] = Mark::OnPath(start);
        Ok(())
    }

    /// Follows an edge of the last segment to this node. It isn't pending any more.
    fn follow(&mut self, graph: &[Seq<usize>], node: usize) -> Result<(), NoMemory>
        requires search { IsSearch graph.now self.old.marks.items self.old.path.items (reverse self.old.segments.items)
            (self.old.pending.items ++ node ∷ []) }
        requires rest { IsRest (reverse self.old.segments.items) (length self.old.pending.items) }
        ensures { IfOk result (λ _. IsTurnFrom graph.now node self.old self.new) }
    {
        match mark_at(&self.marks, node) {
            Mark::Unseen => self.visit(graph, node),
            Mark::OnPath(place) => {
                merge(&mut self.segments, place);
                Ok(())
            }
            Mark::Done(_) => Ok(()),
        }
    }

    /// Follows an edge of the last segment, or makes a component of it where all have been followed.
    fn turn(&mut self, graph: &[Seq<usize>], last: Segment) -> Result<(), NoMemory>
        requires last { head_of (reverse self.old.segments.items) ≡ Some last }
        requires search { IsSearchOf graph.now self.old }
        ensures { IfOk result (λ _. IsTurnOf graph.now self.old self.new) }
    {
        if self.pending.len() <= last.rest {
            close(&mut self.marks, &mut self.path, last);
            let _ = self.segments.pop();
            return Ok(());
        }
        match self.pending.pop() {
            Some(node) => self.follow(graph, node),
            None => Ok(()),
        }
    }

    /// Searches what a node leads to, while nothing is on the path.
    pub(crate) fn explore(&mut self, graph: &[Seq<usize>], root: usize) -> Result<(), NoMemory>
        requires search { IsSearchOf graph.now self.old }
        requires no_path { reverse self.old.segments.items ≡ [] }
        requires unseen { mark_at self.old.marks.items root ≡ mark.Unseen }
        ensures search { IfOk result (λ _. IsSearchOf graph.now self.new) }
        ensures no_path { IfOk result (λ _. reverse self.new.segments.items ≡ []) }
        ensures kept { IfOk result (λ _. KeepsSeen self.old.marks.items self.new.marks.items) }
        ensures seen { IfOk result (λ _. is_seen (mark_at self.new.marks.items root) ≡ true) }
    {
        self.visit(graph, root)?;
        'turns: while let Some(last) = last_segment(&self.segments) {
            self.turn(graph, last)?;
        }
        Ok(())
    }
}
