//! Calls of units.

use fm_base::Line;

/// A call of a unit: the number of the unit that is called, and the line of the call.
#[derive(Clone, Copy)]
pub struct Call {
    pub target: usize,
    pub line: Line,
}

/// The statement that calls a unit.
#[derive(Clone, Copy)]
pub enum CallKind {
    Call,
    ProcessCall,
}
