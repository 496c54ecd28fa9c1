//! What the statements of a unit say of its names.

use crate::constants::{Known, Types};
use fm_base::{Line, Name, Seq};
use fm_finmap::NameMap;
use fm_tree::Kind;

/// What a heading or a declaration says of a name.
#[derive(Clone, Copy)]
pub enum Aspect {
    /// A type of values.
    Value,
    /// A type of ports.
    Port,
    Bounds,
    Intent,
    /// It is a constant.
    Constant,
    /// It is a formal argument.
    Formal,
    /// It is the name of the FUNCTION itself.
    Own,
}

/// The bounds of an array, none where one is no constant, and its words. In memory any number of words over 65,536
/// stands as 65,537.
#[derive(Drop)]
pub struct ArrayShape {
    pub bounds: Seq<(i64, i64)>,
    pub words: u32,
}

/// A name and the line of a statement in which it stands.
#[derive(Drop)]
pub struct Occurrence {
    pub name: Name,
    pub line: Line,
}

/// What the statements of a unit say of its names.
#[derive(Drop)]
pub struct Sheet {
    /// The constants.
    pub known: NameMap<Known>,
    /// The types of values.
    pub types: Types,
    /// The types of values and ports.
    pub kinds: NameMap<Kind>,
    /// What is declared with bounds.
    pub arrays: NameMap<ArrayShape>,
    /// For each name with INTENT whether it is IN.
    pub inputs: NameMap<bool>,
    /// The places of the formal arguments, from 1.
    pub formals: NameMap<u32>,
    /// The names that stand in the unit, each once, in the order of the text.
    pub first: Seq<Occurrence>,
}
