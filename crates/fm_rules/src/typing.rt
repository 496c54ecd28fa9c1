//! The types of expressions, and what is judged of them.

use crate::flags::Flags;
use fm_symbols::Scalar;
use fm_values::Intrinsic;

/// What a name means before a list in parentheses.
#[derive(Clone, Copy)]
pub enum Referent {
    /// An element of an array of so many dimensions.
    Element(Scalar, usize),
    /// An element of the array of ports at this place of the unit.
    PortElement(u32, usize),
    Intrinsic(Intrinsic),
    /// A FUNCTION, or the unit that is called, by its number.
    Unit(u32),
    Unknown,
}

/// What is known of a list of arguments or subscripts.
#[derive(Clone, Copy)]
pub struct Arguments {
    pub flags: Flags,
    /// Whether each one fits what is wanted in its place.
    pub fit: bool,
    pub count: usize,
}

/// The type of an expression. A port stands with the place of its variable in the unit.
#[derive(Clone, Copy)]
pub enum ExprType {
    Value(Scalar),
    /// A whole array, and its number of elements.
    Array(Scalar, u32),
    /// One port: a variable or an element.
    Port(u32),
    /// A whole array of ports.
    Ports(u32),
    /// The name of another FUNCTION.
    Function,
    /// No type: it fits everywhere, since what breaks is reported where it stands.
    Nothing,
}

/// The type of an expression, and the rules that are broken in it.
#[derive(Clone, Copy)]
pub struct Judgement {
    pub expr_type: ExprType,
    pub flags: Flags,
}

/// What an operator needs and gives.
#[derive(Clone, Copy)]
pub enum OperatorKind {
    Arithmetic,
    Relational,
    Logical,
}
