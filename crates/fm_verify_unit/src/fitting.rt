//! Whether operands fit what gets them.

ghost use Rattle.std.specs.Prelude.{◌≡◌, Some, slice_get};
ghost use Rattle.fm_code_kinds.specs.Effects.{all_outports, fit_fields, fit_formals, fits_cell, fits_received, fits_room, fits_sent, is_no_cell, is_outport, is_sized, is_target, sized, takes_words};

use crate::cells::{has_sort, is_word, same_sort, span_sort, spans_words};
use crate::searched::Cells;
use fm_code::{Span, front};
use fm_code_kinds::{Cell, Field, Passed, Sort};

/// Whether so many words are as many as are wanted, of a variable of this sort.
fn sized(words: u32, wanted: u32, found: Option<Sort>, sort: Sort) -> bool
    ensures { result ≡ sized words wanted found sort }
{
    match found {
        Some(there) => words == wanted && same_sort(there, sort),
        None => false,
    }
}

/// Whether the operand fits a room for so many words of this sort.
fn fits_room(cells: &Cells, sort: Sort, words: u32, operand: Passed) -> bool
    ensures { result ≡ fits_room cells.now sort words operand }
{
    match operand {
        Passed::Value => is_word(sort) && words == 1,
        Passed::Words(span) => is_word(sort) && (span.count == words && spans_words(cells, span)),
        Passed::Ports(span) => {
            !is_word(sort) && sized(span.count, words, span_sort(cells, span), sort)
        }
        Passed::WordIn(span) => is_word(sort) && (words == 1 && spans_words(cells, span)),
        Passed::PortIn(span) => !is_word(sort) && sized(1, words, span_sort(cells, span), sort),
        Passed::Sized(_) => false,
    }
}

/// Whether the operand fits a formal that is there.
fn fits_cell(mine: &Cells, operand: Passed, formal: Option<Cell>) -> bool
    ensures { result ≡ fits_cell mine.now operand formal }
{
    match formal {
        Some(cell) => fits_room(mine, cell.sort, cell.words, operand),
        None => false,
    }
}

/// Whether there is one operand for each formal, and each fits.
pub(crate) fn fit_formals(mine: &Cells, theirs: &Cells, operands: &[Passed]) -> bool
    ensures { result ≡ fit_formals mine.now theirs.now 1 operands.now }
{
    let mut rest = operands;
    let mut place = 1usize;
    'operands: while let Some((operand, behind)) = front(rest) {
        if !fits_cell(mine, operand, theirs.formal_at(place)) {
            return false;
        }
        rest = behind;
        place += 1;
    }
    theirs.formal_at(place).is_none()
}

/// Whether the operand is sized by the field with this place, from 1.
fn is_sized(size: u32, operand: Passed) -> bool
    ensures { result ≡ is_sized size operand }
{
    match operand {
        Passed::Sized(place) => u64::from(size) == u64::from(place) + 1,
        Passed::Value
        | Passed::Words(_)
        | Passed::Ports(_)
        | Passed::WordIn(_)
        | Passed::PortIn(_) => false,
    }
}

/// Whether the operand may be stored into.
fn is_target(operand: Passed) -> bool
    ensures { result ≡ is_target operand }
{
    match operand {
        Passed::Words(_) | Passed::Ports(_) | Passed::WordIn(_) | Passed::PortIn(_) => true,
        Passed::Value | Passed::Sized(_) => false,
    }
}

/// Whether the operand is words, however many.
fn takes_words(cells: &Cells, operand: Passed) -> bool
    ensures { result ≡ takes_words cells.now operand }
{
    match operand {
        Passed::Words(span) => spans_words(cells, span),
        Passed::WordIn(span) => spans_words(cells, span),
        Passed::Value | Passed::Ports(_) | Passed::PortIn(_) | Passed::Sized(_) => false,
    }
}

/// Whether the operand may be sent for the field.
fn fits_sent(cells: &Cells, field: Field, operand: Passed) -> bool
    ensures { result ≡ fits_sent cells.now field operand }
{
    if field.size == 0 {
        fits_room(cells, field.sort, field.words, operand)
    } else {
        is_word(field.sort) && is_sized(field.size, operand)
    }
}

/// Whether the field may be received into the operand.
fn fits_received(cells: &Cells, field: Field, operand: Passed) -> bool
    ensures { result ≡ fits_received cells.now field operand }
{
    if !is_target(operand) {
        return false;
    }
    if field.size == 0 {
        fits_room(cells, field.sort, field.words, operand)
    } else {
        is_word(field.sort) && takes_words(cells, operand)
    }
}

/// Whether there is one operand for each field, and each may be sent.
pub(crate) fn fit_sent(cells: &Cells, fields: &[Field], operands: &[Passed]) -> bool
    ensures { result ≡ fit_fields (fits_sent cells.now) fields.now operands.now }
{
    let mut fields = fields;
    let mut rest = operands;
    'operands: while let Some((operand, behind)) = front(rest) {
        let Some((field, others)) = front(fields) else {
            return false;
        };
        if !fits_sent(cells, field, operand) {
            return false;
        }
        rest = behind;
        fields = others;
    }
    match front(fields) {
        Some(_) => false,
        None => true,
    }
}

/// The same of fields that are received.
pub(crate) fn fit_received(cells: &Cells, fields: &[Field], operands: &[Passed]) -> bool
    ensures { result ≡ fit_fields (fits_received cells.now) fields.now operands.now }
{
    let mut fields = fields;
    let mut rest = operands;
    'operands: while let Some((operand, behind)) = front(rest) {
        let Some((field, others)) = front(fields) else {
            return false;
        };
        if !fits_received(cells, field, operand) {
            return false;
        }
        rest = behind;
        fields = others;
    }
    match front(fields) {
        Some(_) => false,
        None => true,
    }
}

/// Whether the operand is outports of this type.
fn is_outport(cells: &Cells, of: u32, operand: Passed) -> bool
    ensures { result ≡ is_outport cells.now of operand }
{
    match operand {
        Passed::Ports(span) => has_sort(span_sort(cells, span), Sort::Out(of)),
        Passed::PortIn(span) => has_sort(span_sort(cells, span), Sort::Out(of)),
        Passed::Value | Passed::Words(_) | Passed::WordIn(_) | Passed::Sized(_) => false,
    }
}

/// Whether all are.
pub(crate) fn all_outports(cells: &Cells, of: u32, operands: &[Passed]) -> bool
    ensures { result ≡ all_outports cells.now of operands.now }
{
    let mut rest = operands;
    'operands: while let Some((operand, behind)) = front(rest) {
        if !is_outport(cells, of, operand) {
            return false;
        }
        rest = behind;
    }
    true
}
