//! The code of a program.

use crate::instr::Instr;
use fm_base::{Line, Seq};

/// Some words of a frame, one behind the other.
#[derive(Clone, Copy)]
pub struct Span {
    /// The number of the first.
    pub first: u32,
    /// How many there are.
    pub count: u32,
}

/// A formal of a unit, by the words of the unit's frame.
#[derive(Clone, Copy)]
pub struct Formal {
    /// Its words.
    pub span: Span,
    /// Whether they are port words.
    pub port: bool,
    /// Whether it gives nothing back.
    pub input: bool,
}

/// A statement of the source.
#[derive(Clone, Copy)]
pub struct Entry {
    /// The line at which it begins.
    pub line: Line,
    /// The address of its first instruction.
    pub address: u32,
}

/// The code of a unit.
pub struct Unit {
    /// Its instructions. Their places are their addresses.
    pub code: Seq<Instr>,
    /// Its statements, in order of their addresses.
    pub entries: Seq<Entry>,
    /// The words of its frame.
    pub words: u32,
    /// Which of these are port words.
    pub ports: Seq<Span>,
    /// Its formals, in their order.
    pub formals: Seq<Formal>,
    /// The number of its loops.
    pub loops: u32,
    /// The extents of PROCESSORS, none where there is none.
    pub extents: Seq<u32>,
}

impl Drop for Unit {
    fn drop(self) {
        let Unit {
            code: _code,
            entries: _entries,
            words: _words,
            ports: _ports,
            formals: _formals,
            loops: _loops,
            extents: _extents,
        } = self;
    }
}

/// The code of a program.
pub struct Code {
    /// The units, in the order of the source.
    pub units: Seq<Unit>,
}

impl Drop for Code {
    fn drop(self) {
        let Code { units: _units } = self;
    }
}
