//! Code.

ghost use Rattle.fm_same.specs.Same.{IsSameTest};

use crate::instr::same_instr;
use crate::{same_items, same_numbers};
use fm_base::Line;
use fm_code::{Code, Entry, Formal, Span, Unit};

fn same_span(first: &Span, second: &Span) -> bool
    ensures { IsSameTest result first.now second.now }
{
    first.first == second.first && first.count == second.count
}

fn same_formal(first: &Formal, second: &Formal) -> bool
    ensures { IsSameTest result first.now second.now }
{
    same_span(&first.span, &second.span) && first.port == second.port && first.input == second.input
}

fn same_line(first: &Line, second: &Line) -> bool
    ensures { IsSameTest result first.now second.now }
{
    first.0 == second.0
}

fn same_entry(first: &Entry, second: &Entry) -> bool
    ensures { IsSameTest result first.now second.now }
{
    same_line(&first.line, &second.line) && first.address == second.address
}

fn same_unit(first: &Unit, second: &Unit) -> bool
    ensures { IsSameTest result first.now second.now }
{
    first.words == second.words
        && first.loops == second.loops
        && same_numbers(first.extents.as_slice(), second.extents.as_slice())
        && same_items(first.ports.as_slice(), second.ports.as_slice(), same_span)
        && same_items(
            first.formals.as_slice(),
            second.formals.as_slice(),
            same_formal,
        )
        && same_items(
            first.entries.as_slice(),
            second.entries.as_slice(),
            same_entry,
        )
        && same_items(first.code.as_slice(), second.code.as_slice(), same_instr)
}

/// Whether two codes are the same.
pub(crate) fn same_code(first: &Code, second: &Code) -> bool
    ensures { IsSameTest result first.now second.now }
{
    same_items(first.units.as_slice(), second.units.as_slice(), same_unit)
}
