//! The names of a program: their types, bounds, constants and layout.

use fm_base::{Name, Seq};
use fm_tree::Kind;

/// The value of a PARAMETER constant.
#[derive(Clone, Copy)]
pub enum Constant {
    Integer(i64),
    Logical(bool),
}

/// A variable of a unit.
pub struct Variable {
    pub name: Name,
    /// The type of the variable, or of one element. In the type of a port no field has a name, and the bounds of an
    /// array are its number of elements alone; so equal types are equal values.
    pub kind: Kind,
    /// The lower and the upper bound of each dimension, none where it is no array.
    pub bounds: Seq<(i64, i64)>,
    /// The first word of its place in the frame.
    pub first: u32,
    /// The number of its words, which is that of its elements. A port counts one word.
    pub words: u32,
    /// Its place among the formals from 1, or 0.
    pub formal: u32,
    /// Whether it has INTENT(IN).
    pub input: bool,
}

impl Drop for Variable {
    fn drop(self) {
        let Variable {
            name: _name,
            kind: _kind,
            bounds: _bounds,
            first: _first,
            words: _words,
            formal: _formal,
            input: _input,
        } = self;
    }
}

/// The names of a unit.
pub struct UnitNames {
    /// In the order in which the names first stand in the unit as variables, the heading first.
    pub variables: Seq<Variable>,
    /// In the order of their definitions.
    pub constants: Seq<(Name, Constant)>,
    /// The extents of PROCESSORS, none where there is none.
    pub extents: Seq<u32>,
    /// The words of the frame: those of all variables.
    pub words: u32,
}

impl Drop for UnitNames {
    fn drop(self) {
        let UnitNames {
            variables: _variables,
            constants: _constants,
            extents: _extents,
            words: _words,
        } = self;
    }
}

/// The names of each unit, in the order of the source.
pub struct Names {
    pub units: Seq<UnitNames>,
}

impl Drop for Names {
    fn drop(self) {
        let Names { units: _units } = self;
    }
}
