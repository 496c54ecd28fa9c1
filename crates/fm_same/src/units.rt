//! Units.

ghost use Rattle.fm_same.specs.Same.{IsSameTest};

use crate::parts::{same_label, same_line, same_place};
use crate::statement::same_stmt;
use crate::{same_items, same_numbers, same_options};
use fm_tree::{Entry, Placed, Unit, Units};

fn same_placed(first: &Placed, second: &Placed) -> bool
    ensures { IsSameTest result first.now second.now }
{
    same_line(&first.line, &second.line)
        && same_options(&first.label, &second.label, same_label)
        && same_stmt(&first.stmt, &second.stmt)
}

fn same_entry(first: &Entry, second: &Entry) -> bool
    ensures { IsSameTest result first.now second.now }
{
    same_line(&first.line, &second.line)
        && same_options(&first.label, &second.label, same_label)
        && same_options(&first.parent, &second.parent, same_place)
        && first.branch == second.branch
        && same_options(&first.mate, &second.mate, same_place)
        && first.after == second.after
        && same_numbers(first.refs.as_slice(), second.refs.as_slice())
        && same_stmt(&first.stmt, &second.stmt)
}

fn same_unit(first: &Unit, second: &Unit) -> bool
    ensures { IsSameTest result first.now second.now }
{
    same_placed(&first.heading, &second.heading)
        && same_items(first.specs.as_slice(), second.specs.as_slice(), same_placed)
        && same_items(first.body.as_slice(), second.body.as_slice(), same_entry)
}

/// Whether two lists of units are the same.
pub(crate) fn same_units(first: &Units, second: &Units) -> bool
    ensures { IsSameTest result first.now second.now }
{
    same_items(first.units.as_slice(), second.units.as_slice(), same_unit)
}
