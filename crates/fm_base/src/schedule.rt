//! Pieces of a kept schedule, machines of nodes, and how a run is set up.

ghost use Rattle.std.specs.Prelude.{◌≤◌};

/// So many steps of one process, which is named by its place in the order of starting, from 0.
#[derive(Clone, Copy)]
pub struct Turn {
    /// The place of the process in the order of starting.
    pub number: u32,
    /// How many steps it makes.
    pub steps: u32,
}

/// How nodes are mapped to workers.
#[derive(Clone, Copy, Debug, PartialEq, Eq)]
pub enum Plan {
    /// Node after node, each to the next worker.
    Cyclic,
    /// Runs of neighbouring nodes to one worker.
    Block,
}

/// A run of nodes.
#[derive(Clone, Copy, Debug, PartialEq, Eq)]
pub struct Machine {
    /// The first node.
    pub first: u32,
    /// How many nodes there are.
    pub count: u32,
}

/// How a run is set up.
#[derive(Clone, Copy, Debug, PartialEq, Eq)]
pub struct Setup {
    /// The bound on the cost of the run, 1 to 1,000,000,000.
    pub turns: u64,
    /// The most steps of a piece, 1 to 1,000,000.
    pub slice: u32,
    /// How many workers there are, 1 to 64.
    pub workers: u32,
    /// How nodes are mapped to workers.
    pub plan: Plan,
    ghost some_turns: { 1 ≤ turns },
    ghost few_turns: { turns ≤ 1000000000 },
    ghost some_slice: { 1 ≤ slice },
    ghost small_slice: { slice ≤ 1000000 },
    ghost some_workers: { 1 ≤ workers },
    ghost few_workers: { workers ≤ 64 },
}
