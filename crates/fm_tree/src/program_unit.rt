//! Statements with their places, and the units of a program.

ghost use Rattle.std.specs.Prelude.{◌≡◌};

use crate::statement::Stmt;
use fm_base::{Label, Line, Seq};

/// A statement, its first line and its label.
pub struct Placed {
    pub line: Line,
    pub label: Option<Label>,
    pub stmt: Stmt,
}

impl Drop for Placed {
    fn drop(self) {
        let Placed {
            line: _line,
            label: _label,
            stmt: _stmt,
        } = self;
    }
}

impl Placed {
    /// The statement alone.
    pub fn into_stmt(self) -> Stmt
        ensures { result ≡ self.stmt }
    {
        let Placed {
            line: _line,
            label: _label,
            stmt,
        } = self;
        stmt
    }
}

/// A statement of a unit's body, and how it stands to the others. Places of entries count from 0.
pub struct Entry {
    pub line: Line,
    pub label: Option<Label>,
    pub stmt: Stmt,
    /// The opener of the innermost block round it.
    pub parent: Option<u32>,
    /// In which branch of that block it stands.
    pub branch: u32,
    /// The end of the block that it opens, or the opener of the block that it ends.
    pub mate: Option<u32>,
    /// The entry that comes after it.
    pub after: u32,
    /// Its references of functions, in the order of evaluation: their places, from 0, among the names with a list in
    /// parentheses.
    pub refs: Seq<u32>,
}

impl Drop for Entry {
    fn drop(self) {
        let Entry {
            line: _line,
            label: _label,
            stmt: _stmt,
            parent: _parent,
            branch: _branch,
            mate: _mate,
            after: _after,
            refs: _refs,
        } = self;
    }
}

/// A program unit: its heading, its specification statements and its body.
pub struct Unit {
    pub heading: Placed,
    pub specs: Seq<Placed>,
    pub body: Seq<Entry>,
}

impl Drop for Unit {
    fn drop(self) {
        let Unit {
            heading: _heading,
            specs: _specs,
            body: _body,
        } = self;
    }
}

/// The units of a program, in the order of the source.
pub struct Units {
    pub units: Seq<Unit>,
}

impl Drop for Units {
    fn drop(self) {
        let Units { units: _units } = self;
    }
}
