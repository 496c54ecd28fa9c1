//! What a process did in a piece of a run.

/// What a process did in its piece: steps of its own, and then one event, if it came to one that it could do.
#[derive(Clone, Copy)]
pub struct Piece {
    /// The number of its steps.
    pub steps: u32,
    /// Their cost in turns.
    pub cost: u64,
    /// The number of the block that started, if one did.
    pub block: u32,
    /// How many children started.
    pub started: usize,
}

/// Where a process stops that made steps of its own.
#[derive(Drop)]
pub enum Stop<E, L> {
    /// Its piece ends there, and it does this next.
    Pauses(L),
    /// It stands at this event, and there is room for it in its piece.
    Meets(E),
}

/// Steps of a process that start nobody.
#[derive(Drop)]
pub struct Advanced<E, L> {
    /// Where it stops.
    pub stop: Stop<E, L>,
    /// How many steps it made.
    pub steps: u32,
    /// Their cost in turns.
    pub cost: u64,
}

/// An event that was done, beside what it changed.
#[derive(Drop)]
pub struct Done<P> {
    /// The children that start, in order.
    pub children: Vec<P>,
    /// The cost in turns.
    pub cost: u64,
}
