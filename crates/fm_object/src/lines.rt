//! Lines at the front of bytes: what a line tells, and the bytes behind it; none where it has another form.

ghost use Rattle.std.specs.Prelude.{◌≡◌, option_map};
ghost use Rattle.fm_object.specs.declared.image.Cell.{Cell};
ghost use Rattle.fm_object.specs.Reading.{cell_line, count_line, entry_line, field_line, head_line, instr_line, unit_head_line};
ghost use Rattle.fm_object.specs.Shapes.{cell_of, head_of};

use crate::image::FieldImage;
use crate::words::{after, name_at, number_at, signed_at};
use fm_base::Line;
use fm_code::{Entry, Instr};

/// The line of a unit: its heading, and how many lines of each kind follow.
#[derive(Clone, Copy)]
pub(crate) struct UnitCounts {
    pub heading: u32,
    pub extents: u32,
    pub cells: u32,
    pub entries: u32,
    pub code: u32,
}

/// The line of a cell, whose name stands in the text.
#[derive(Clone, Copy)]
pub(crate) struct CellLine<'a> {
    pub name: &'a [u8],
    pub kind: u32,
    pub of: u32,
    pub first: u32,
    pub words: u32,
    pub formal: u32,
    pub back: u32,
}

/// The first line.
#[tactic(auto, unfolding(crate::specs::Reading::head_line))]
pub(crate) fn head_line(bytes: &[u8]) -> Option<((), &[u8])>
    ensures { option_map (λ x. (x.0, x.1.now)) result ≡ head_line bytes.now }
{
    let rest = after(b"fmc object 1\n", bytes)?;
    Some(((), rest))
}

/// A keyword and a number.
#[tactic(auto, unfolding(crate::specs::Reading::count_line))]
pub(crate) fn count_line<'a>(keyword: &[u8], bytes: &'a [u8]) -> Option<(u32, &'a [u8])>
    ensures { option_map (λ x. (x.0, x.1.now)) result ≡ count_line keyword.now bytes.now }
{
    let rest = after(keyword, bytes)?;
    number_at(b'\n', rest)
}

/// A field of a message.
#[tactic(auto, unfolding(crate::specs::Reading::field_line))]
pub(crate) fn field_line(bytes: &[u8]) -> Option<(FieldImage, &[u8])>
    ensures { option_map (λ x. (x.0, x.1.now)) result ≡ field_line bytes.now }
{
    let rest = after(b"field ", bytes)?;
    let (kind, rest) = number_at(b' ', rest)?;
    let (of, rest) = number_at(b' ', rest)?;
    let (words, rest) = number_at(b' ', rest)?;
    let (size, rest) = number_at(b'\n', rest)?;
    Some((
        FieldImage {
            kind,
            of,
            words,
            size,
        },
        rest,
    ))
}

/// The line of a unit.
#[tactic(auto, unfolding(crate::specs::Reading::unit_head_line))]
pub(crate) fn unit_line(bytes: &[u8]) -> Option<(UnitCounts, &[u8])>
    ensures { option_map (λ x. (head_of x.0, x.1.now)) result ≡ unit_head_line bytes.now }
{
    let rest = after(b"unit ", bytes)?;
    let (heading, rest) = number_at(b' ', rest)?;
    let (extents, rest) = number_at(b' ', rest)?;
    let (cells, rest) = number_at(b' ', rest)?;
    let (entries, rest) = number_at(b' ', rest)?;
    let (code, rest) = number_at(b'\n', rest)?;
    Some((
        UnitCounts {
            heading,
            extents,
            cells,
            entries,
            code,
        },
        rest,
    ))
}

/// A variable of a unit.
#[tactic(auto, unfolding(crate::specs::Reading::cell_line))]
pub(crate) fn cell_line(bytes: &[u8]) -> Option<(CellLine<'_>, &[u8])>
    ensures { option_map (λ x. (cell_of x.0, x.1.now)) result ≡ cell_line bytes.now }
{
    let rest = after(b"cell ", bytes)?;
    let (name, rest) = name_at(b' ', rest)?;
    let (kind, rest) = number_at(b' ', rest)?;
    let (of, rest) = number_at(b' ', rest)?;
    let (first, rest) = number_at(b' ', rest)?;
    let (words, rest) = number_at(b' ', rest)?;
    let (formal, rest) = number_at(b' ', rest)?;
    let (back, rest) = number_at(b'\n', rest)?;
    Some((
        CellLine {
            name,
            kind,
            of,
            first,
            words,
            formal,
            back,
        },
        rest,
    ))
}

/// A statement of the source.
#[tactic(auto, unfolding(crate::specs::Reading::entry_line))]
pub(crate) fn entry_line(bytes: &[u8]) -> Option<(Entry, &[u8])>
    ensures { option_map (λ x. (x.0, x.1.now)) result ≡ entry_line bytes.now }
{
    let rest = after(b"entry ", bytes)?;
    let (line, rest) = number_at(b' ', rest)?;
    let (address, rest) = number_at(b'\n', rest)?;
    Some((
        Entry {
            line: Line(line),
            address,
        },
        rest,
    ))
}

/// An instruction, by its parts.
#[tactic(auto, unfolding(crate::specs::Reading::instr_line))]
pub(crate) fn instr_line(bytes: &[u8]) -> Option<(Instr, &[u8])>
    ensures { option_map (λ x. (x.0, x.1.now)) result ≡ instr_line bytes.now }
{
    let rest = after(b"instr ", bytes)?;
    let (op, rest) = number_at(b' ', rest)?;
    let (first, rest) = signed_at(b' ', rest)?;
    let (second, rest) = signed_at(b'\n', rest)?;
    let instr = Instr::of(op, first, second)?;
    Some((instr, rest))
}
