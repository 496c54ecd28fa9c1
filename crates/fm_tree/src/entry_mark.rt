//! Entries as the rules of structure see them, and open blocks.

use crate::form::Form;
use fm_base::{Label, Line};

/// What the rules of structure see of an entry. Its statement stays where it is.
#[derive(Clone, Copy)]
pub struct EntryMark {
    pub line: Line,
    pub label: Option<Label>,
    pub form: Form,
    /// The place, from 0, of the statement that it is made of among the unit's.
    pub place: usize,
}

/// A block that is open behind some entries. Places of entries count from 0.
#[derive(Clone, Copy)]
pub struct Open {
    /// The place of its opener.
    pub at: usize,
    /// The place where its present branch starts: that of its opener, or of the separator that began it.
    pub start: usize,
    /// Which branch that is, from 0.
    pub branch: usize,
    /// Whether its ELSE has come.
    pub has_else: bool,
    /// The form of its opener.
    pub form: Form,
}
