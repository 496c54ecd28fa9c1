//! A statement of the source.

use fm_base::{Label, Line, Seq};

/// A statement, read from an initial line and its continuation lines.
pub struct Card {
    /// The number of the initial line.
    pub line: Line,
    /// The label, where columns 1 to 5 have one.
    pub label: Option<Label>,
    /// The bytes of columns 7 to 72: outside constants without blanks and in upper case.
    pub text: Seq<u8>,
}

impl Drop for Card {
    fn drop(self) {
        let Card {
            line: _line,
            label: _label,
            text: _text,
        } = self;
    }
}
