//! Places in a frame, and what arguments and items of a message come to.

use fm_base::Seq;

/// Some elements of a variable, one behind the other: a scalar, an element or a whole array.
#[derive(Clone, Copy)]
pub struct Span {
    /// The place of the variable among those of the unit, from 0.
    pub variable: u32,
    /// The first element, from 0.
    pub first: usize,
    /// How many elements.
    pub count: u32,
}

/// A formal that gives back what it has, and the span that gets it.
#[derive(Clone, Copy)]
pub struct Back {
    /// The place of the formal among the variables of its unit.
    pub formal: u32,
    /// The span of the caller.
    pub place: Span,
}

/// An argument or an item of a message, evaluated.
#[derive(Drop)]
pub enum Actual {
    /// Words, and the span that gets them back, if one does.
    Given(Seq<i64>, Option<Span>),
    /// Ports, which are taken from this span.
    Taken(Span),
}
