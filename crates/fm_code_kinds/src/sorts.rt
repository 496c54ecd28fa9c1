//! What is known of units beside their code: what stands in the words of their frames, and the types of ports.

use fm_base::Seq;

/// What a variable, an element of it, or a field of a message is. Types of ports have numbers.
#[derive(Clone, Copy)]
pub enum Sort {
    /// An integer.
    Integer,
    /// A truth.
    Logical,
    /// An inport of this type.
    In(u32),
    /// An outport of this type.
    Out(u32),
}

/// What a unit is.
#[derive(Clone, Copy)]
pub enum Heading {
    /// The PROGRAM.
    Program,
    /// A PROCESS.
    Process,
    /// A SUBROUTINE.
    Subroutine,
    /// A FUNCTION.
    Function,
}

/// The words of a frame that are those of one variable.
#[derive(Clone, Copy)]
pub struct Cell {
    /// What it is.
    pub sort: Sort,
    /// The number of its first word.
    pub first: u32,
    /// How many words it has.
    pub words: u32,
    /// Of a formal, its place among them, from 1; else 0.
    pub formal: u32,
    /// Whether it gives back what it has in the end.
    pub back: bool,
}

/// A field of a message.
#[derive(Clone, Copy)]
pub struct Field {
    /// What it is.
    pub sort: Sort,
    /// Its words; 0 of a field that an earlier one sizes.
    pub words: u32,
    /// The place, from 1, of the field that sizes it; else 0.
    pub size: u32,
}

/// What is known of a unit beside its code.
pub struct Shape {
    /// What it is.
    pub heading: Heading,
    /// Its variables, in order of their words.
    pub cells: Seq<Cell>,
}

impl Drop for Shape {
    fn drop(self) {
        let Shape {
            heading: _heading,
            cells: _cells,
        } = self;
    }
}

/// What is known of all units.
pub struct Shapes {
    /// The types of ports: the fields of their messages.
    pub types: Seq<Seq<Field>>,
    /// The units.
    pub units: Seq<Shape>,
}

impl Drop for Shapes {
    fn drop(self) {
        let Shapes {
            types: _types,
            units: _units,
        } = self;
    }
}
