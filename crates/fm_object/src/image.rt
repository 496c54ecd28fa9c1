//! An image: code of a program, with what has to be known of its variables and of the types of its ports. The ranges
//! that make sense of the numbers are no part of it: `read` gives every number that a line tells.

use fm_base::{Name, Seq};
use fm_code::{Entry, Instr};

/// A field of a port type.
#[derive(Clone, Copy, PartialEq, Eq, Hash)]
pub struct FieldImage {
    /// 0 integer, 1 logical, 2 inport, 3 outport.
    pub kind: u32,
    /// Of a port, the number of its type, from 0; else 0.
    pub of: u32,
    /// Its words; 0 of a field that an earlier one sizes.
    pub words: u32,
    /// The place, from 1, of the integer field before it that tells how many words it has in each message; else 0.
    pub size: u32,
}

/// A variable of a unit, by the words of the unit's frame.
pub struct Cell {
    /// Its name.
    pub name: Name,
    /// 0 integer, 1 logical, 2 inport, 3 outport.
    pub kind: u32,
    /// Of a port, the number of its type, from 0; else 0.
    pub of: u32,
    /// The number of its first word.
    pub first: u32,
    /// How many words it has.
    pub words: u32,
    /// Of a formal, its place among them, from 1; else 0.
    pub formal: u32,
    /// 1 for a formal that gives back, else 0.
    pub back: u32,
}

impl Drop for Cell {
    fn drop(self) {
        let Cell {
            name: _name,
            kind: _kind,
            of: _of,
            first: _first,
            words: _words,
            formal: _formal,
            back: _back,
        } = self;
    }
}

/// A unit.
pub struct UnitImage {
    /// 0 PROGRAM, 1 PROCESS, 2 SUBROUTINE, 3 FUNCTION.
    pub heading: u32,
    /// The extents of PROCESSORS, none where there is none.
    pub extents: Seq<u32>,
    /// Its variables, in order of their first words.
    pub cells: Seq<Cell>,
    /// Its statements, in order of their addresses.
    pub entries: Seq<Entry>,
    /// Its instructions. Their places are their addresses.
    pub code: Seq<Instr>,
}

impl Drop for UnitImage {
    fn drop(self) {
        let UnitImage {
            heading: _heading,
            extents: _extents,
            cells: _cells,
            entries: _entries,
            code: _code,
        } = self;
    }
}

/// Code of a program, with its variables and the types of its ports.
pub struct Image {
    /// The types of ports, each behind those that its fields need.
    pub types: Seq<Seq<FieldImage>>,
    /// The units, in the order of the source.
    pub units: Seq<UnitImage>,
}

impl Drop for Image {
    fn drop(self) {
        let Image {
            types: _types,
            units: _units,
        } = self;
    }
}
