//! Which rules a judgement finds broken.

/// The rules that are broken in an expression or a statement.
#[derive(Clone, Copy)]
pub struct Flags {
    /// Wrong operand.
    pub e40: bool,
    /// Wrong subscripts.
    pub e41: bool,
    /// Wrong arguments.
    pub e42: bool,
    /// Unknown unit.
    pub e43: bool,
    /// Not changeable.
    pub e44: bool,
    /// Not allowed in a function.
    pub e46: bool,
    /// Port as a value.
    pub e50: bool,
}
