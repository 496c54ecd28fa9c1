//! What stands at words of a frame.

ghost use Rattle.std.specs.Prelude.{◌≡◌};
ghost use Rattle.fm_code_kinds.specs.Shapes.{are_words, has_sort, is_function, is_port, is_process, is_subroutine, is_word, is_word_sort, same_sort, sort_at, sort_in};
ghost use Rattle.fm_code_kinds.specs.Effects.{are_any_ports, is_port_sort};
ghost use Rattle.fm_verify_unit.specs.Ends.{sort_of};
ghost use Rattle.fm_verify_unit.specs.Telling.{known_in, words};

use crate::searched::{Cells, end_of};
use fm_code::Span;
use fm_code_kinds::{Cell, Heading, Sort};

/// Whether it is no port.
pub fn is_word(sort: Sort) -> bool
    ensures { result ≡ is_word sort }
{
    match sort {
        Sort::Integer | Sort::Logical => true,
        Sort::In(_) | Sort::Out(_) => false,
    }
}

/// Whether both are the same.
pub(crate) fn same_sort(one: Sort, other: Sort) -> bool
    ensures { result ≡ same_sort one other }
{
    match one {
        Sort::Integer => match other {
            Sort::Integer => true,
            Sort::Logical | Sort::In(_) | Sort::Out(_) => false,
        },
        Sort::Logical => match other {
            Sort::Logical => true,
            Sort::Integer | Sort::In(_) | Sort::Out(_) => false,
        },
        Sort::In(t) => match other {
            Sort::In(u) => t == u,
            Sort::Integer | Sort::Logical | Sort::Out(_) => false,
        },
        Sort::Out(t) => match other {
            Sort::Out(u) => t == u,
            Sort::Integer | Sort::Logical | Sort::In(_) => false,
        },
    }
}

/// Whether it is a PROCESS.
pub(crate) fn is_process(heading: Heading) -> bool
    ensures { result ≡ is_process heading }
{
    match heading {
        Heading::Process => true,
        Heading::Program | Heading::Subroutine | Heading::Function => false,
    }
}

/// Whether it is a SUBROUTINE.
pub(crate) fn is_subroutine(heading: Heading) -> bool
    ensures { result ≡ is_subroutine heading }
{
    match heading {
        Heading::Subroutine => true,
        Heading::Program | Heading::Process | Heading::Function => false,
    }
}

/// Whether it is a FUNCTION.
pub(crate) fn is_function(heading: Heading) -> bool
    ensures { result ≡ is_function heading }
{
    match heading {
        Heading::Function => true,
        Heading::Program | Heading::Process | Heading::Subroutine => false,
    }
}

/// What the variable is, where all of these words are its own.
fn sort_in(cell: Cell, first: u64, count: u64) -> Option<Sort>
    ensures { result ≡ sort_in cell (words first count) }
{
    let end = end_of(cell);
    if u64::from(cell.first) <= first && first <= end && count <= end - first {
        Some(cell.sort)
    } else {
        None
    }
}

/// What a variable is, where there is one and all of these words are its own.
fn sort_of(found: Option<Cell>, first: u64, count: u64) -> Option<Sort>
    ensures { result ≡ sort_of found (words first count) }
{
    match found {
        Some(cell) => sort_in(cell, first, count),
        None => None,
    }
}

/// What the variable is that has all of these words.
pub(crate) fn sort_at(cells: &Cells, first: u64, count: u64) -> Option<Sort>
    ensures { result ≡ sort_at cells.now (words first count) }
{
    sort_of(cells.first_past(first), first, count)
}

/// Whether they are words of one variable that isn't a port.
pub(crate) fn are_words(cells: &Cells, first: u64, count: u64) -> bool
    ensures { result ≡ are_words cells.now (words first count) }
{
    match sort_at(cells, first, count) {
        Some(sort) => is_word(sort),
        None => false,
    }
}

/// The same of words that are known.
pub(crate) fn spans_words(cells: &Cells, span: Span) -> bool
    ensures { result ≡ are_words cells.now span }
{
    are_words(cells, u64::from(span.first), u64::from(span.count))
}

/// What the variable is that has all of these words.
pub(crate) fn span_sort(cells: &Cells, span: Span) -> Option<Sort>
    ensures { result ≡ sort_at cells.now span }
{
    sort_at(cells, u64::from(span.first), u64::from(span.count))
}

/// Whether they are port words of one variable.
pub(crate) fn spans_ports(cells: &Cells, span: Span) -> bool
    ensures { result ≡ are_any_ports cells.now span }
{
    match span_sort(cells, span) {
        Some(sort) => !is_word(sort),
        None => false,
    }
}

/// Whether they are port words of one variable of this sort.
pub(crate) fn has_sort(found: Option<Sort>, wanted: Sort) -> bool
    ensures { result ≡ has_sort found wanted }
{
    match found {
        Some(sort) => same_sort(sort, wanted),
        None => false,
    }
}

/// These words, where the frame has so many.
pub(crate) fn known(frame: u32, first: u64, count: u64) -> Option<Span>
    ensures { result ≡ known_in frame first count }
{
    let frame = u64::from(frame);
    if first <= frame && count <= frame - first {
        Some(Span {
            first: first as u32,
            count: count as u32,
        })
    } else {
        None
    }
}
