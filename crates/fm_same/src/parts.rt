//! Names, expressions, bounds and types of ports.

ghost use Rattle.fm_same.specs.Same.{IsSameTest};

use crate::{same_bytes, same_items, same_options};
use fm_base::{Label, Line, Name, Seq};
use fm_tree::{Bound, Expr, PortType};

pub(crate) fn same_name(first: &Name, second: &Name) -> bool
    ensures { IsSameTest result first.now second.now }
{
    same_bytes(first.as_bytes(), second.as_bytes())
}

pub(crate) fn same_names(first: &Seq<Name>, second: &Seq<Name>) -> bool
    ensures { IsSameTest result first.now second.now }
{
    same_items(first.as_slice(), second.as_slice(), same_name)
}

pub(crate) fn same_line(first: &Line, second: &Line) -> bool
    ensures { IsSameTest result first.now second.now }
{
    first.0 == second.0
}

pub(crate) fn same_label(first: &Label, second: &Label) -> bool
    ensures { IsSameTest result first.now second.now }
{
    first.0 == second.0
}

pub(crate) fn same_place(first: &u32, second: &u32) -> bool
    ensures { IsSameTest result first.now second.now }
{
    *first == *second
}

pub(crate) fn same_expr(first: &Expr, second: &Expr) -> bool
    ensures { IsSameTest result first.now second.now }
{
    first == second
}

pub(crate) fn same_exprs(first: &Seq<Expr>, second: &Seq<Expr>) -> bool
    ensures { IsSameTest result first.now second.now }
{
    same_items(first.as_slice(), second.as_slice(), same_expr)
}

pub(crate) fn same_bound(first: &Bound, second: &Bound) -> bool
    ensures { IsSameTest result first.now second.now }
{
    same_options(&first.low, &second.low, same_expr) && same_expr(&first.high, &second.high)
}

pub(crate) fn same_type(first: &PortType, second: &PortType) -> bool
    ensures { IsSameTest result first.now second.now }
{
    first == second
}
