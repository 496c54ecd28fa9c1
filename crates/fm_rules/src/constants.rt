//! Constants, types of names, and what bounds come to.

use fm_finmap::NameMap;
use fm_symbols::{Constant, Scalar};

/// What the bounds of an array come to.
#[derive(Clone, Copy)]
pub struct Shape {
    /// How many dimensions, none where it is no array.
    pub dimensions: usize,
    /// Whether all bounds are constants.
    pub known: bool,
    /// Whether some upper bound is under its lower.
    pub inverted: bool,
    /// How many elements: 1 where it is no array, 0 where a bound is no constant or under its lower. In memory any
    /// number over 65,536 stands as 65,537.
    pub elements: u32,
}

/// A constant: its value, where its expression has one, and where it is defined: in which of the specification
/// statements of its unit, and where in the list there. Both count from 0.
#[derive(Clone, Copy)]
pub struct Known {
    pub value: Option<Constant>,
    pub place: usize,
    pub item: usize,
}

/// What the type statements of a unit say of its names.
#[derive(Drop)]
pub struct Types {
    /// The types that INTEGER and LOGICAL statements give: of two for a name the first.
    pub declared: NameMap<Scalar>,
    /// Whether other names have a type by their first letter.
    pub implicit: bool,
}
