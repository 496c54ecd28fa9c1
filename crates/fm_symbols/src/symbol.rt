//! What a name means.

/// The type of one value.
#[derive(Clone, Copy)]
pub enum Scalar {
    Integer,
    Logical,
}

/// Which end of a channel a port is.
#[derive(Clone, Copy)]
pub enum Direction {
    In,
    Out,
}

/// How many dimensions and elements an array has.
#[derive(Clone, Copy)]
pub struct Extent {
    pub dimensions: usize,
    pub elements: u32,
}

/// What a name means in a unit where it stands alone. The number of a variable is its place, from 0, among those of the
/// unit; the number of a FUNCTION is that of its unit.
#[derive(Clone, Copy)]
pub enum Symbol {
    Constant(Scalar),
    Variable(Scalar, u32),
    Array(Scalar, u32, Extent),
    Port(Direction, u32),
    /// An array of ports.
    Ports(Direction, u32, Extent),
    /// Another FUNCTION.
    Function(u32),
}

/// What a formal argument wants.
#[derive(Clone, Copy)]
pub enum Formal {
    Value(Scalar),
    /// An array of so many elements.
    Array(Scalar, u32),
    /// A port or an array of ports, as the variable at this place of the unit that is called.
    Port(u32),
}
