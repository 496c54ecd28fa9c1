//! Parts of statements.

ghost use Rattle.fm_same.specs.Same.{IsSameTest};

use crate::parts::{same_bound, same_expr, same_exprs, same_label, same_name};
use crate::{same_bytes, same_items, same_options};
use fm_base::Seq;
use fm_tree::{
    CallPart, Decl, Defined, Extra, Item, LoopHead, LoopLabel, Var, Way, Where, WriteUnit,
};

fn same_decl(first: &Decl, second: &Decl) -> bool
    ensures { IsSameTest result first.now second.now }
{
    same_name(&first.name, &second.name)
        && same_items(
            first.bounds.as_slice(),
            second.bounds.as_slice(),
            same_bound,
        )
}

pub(crate) fn same_decls(first: &Seq<Decl>, second: &Seq<Decl>) -> bool
    ensures { IsSameTest result first.now second.now }
{
    same_items(first.as_slice(), second.as_slice(), same_decl)
}

pub(crate) fn same_var(first: &Var, second: &Var) -> bool
    ensures { IsSameTest result first.now second.now }
{
    same_name(&first.name, &second.name) && same_exprs(&first.subscripts, &second.subscripts)
}

pub(crate) fn same_vars(first: &Seq<Var>, second: &Seq<Var>) -> bool
    ensures { IsSameTest result first.now second.now }
{
    same_items(first.as_slice(), second.as_slice(), same_var)
}

fn same_defined(first: &Defined, second: &Defined) -> bool
    ensures { IsSameTest result first.now second.now }
{
    same_name(&first.name, &second.name) && same_expr(&first.value, &second.value)
}

pub(crate) fn same_constants(first: &Seq<Defined>, second: &Seq<Defined>) -> bool
    ensures { IsSameTest result first.now second.now }
{
    same_items(first.as_slice(), second.as_slice(), same_defined)
}

pub(crate) fn same_way(first: &Way, second: &Way) -> bool
    ensures { IsSameTest result first.now second.now }
{
    match (first, second) {
        (Way::In, Way::In) => true,
        (Way::Out, Way::Out) => true,
        (Way::InOut, Way::InOut) => true,
        _ => false,
    }
}

fn same_loop_label(first: &LoopLabel, second: &LoopLabel) -> bool
    ensures { IsSameTest result first.now second.now }
{
    same_label(&first.label, &second.label) && first.comma == second.comma
}

pub(crate) fn same_loop_head(first: &LoopHead, second: &LoopHead) -> bool
    ensures { IsSameTest result first.now second.now }
{
    same_options(&first.label, &second.label, same_loop_label)
        && same_name(&first.variable, &second.variable)
        && same_expr(&first.from, &second.from)
        && same_expr(&first.to, &second.to)
        && same_options(&first.step, &second.step, same_expr)
}

fn same_item(first: &Item, second: &Item) -> bool
    ensures { IsSameTest result first.now second.now }
{
    match (first, second) {
        (Item::Expr(a), Item::Expr(b)) => same_expr(a, b),
        (Item::Constant(a), Item::Constant(b)) => same_bytes(a.as_slice(), b.as_slice()),
        _ => false,
    }
}

pub(crate) fn same_printed(first: &Seq<Item>, second: &Seq<Item>) -> bool
    ensures { IsSameTest result first.now second.now }
{
    same_items(first.as_slice(), second.as_slice(), same_item)
}

pub(crate) fn same_write_unit(first: &WriteUnit, second: &WriteUnit) -> bool
    ensures { IsSameTest result first.now second.now }
{
    match (first, second) {
        (WriteUnit::Star, WriteUnit::Star) => true,
        (WriteUnit::Six, WriteUnit::Six) => true,
        _ => false,
    }
}

fn same_extra(first: &Extra, second: &Extra) -> bool
    ensures { IsSameTest result first.now second.now }
{
    match (first, second) {
        (Extra::End(a), Extra::End(b)) => same_label(a, b),
        (Extra::Iostat(a), Extra::Iostat(b)) => same_var(a, b),
        _ => false,
    }
}

pub(crate) fn same_extras(first: &Seq<Extra>, second: &Seq<Extra>) -> bool
    ensures { IsSameTest result first.now second.now }
{
    same_items(first.as_slice(), second.as_slice(), same_extra)
}

fn same_where(first: &Where, second: &Where) -> bool
    ensures { IsSameTest result first.now second.now }
{
    match (first, second) {
        (Where::Location(a), Where::Location(b)) => same_exprs(a, b),
        (Where::Submachine(a, x), Where::Submachine(b, y)) => same_expr(a, b) && same_expr(x, y),
        _ => false,
    }
}

pub(crate) fn same_call_part(first: &CallPart, second: &CallPart) -> bool
    ensures { IsSameTest result first.now second.now }
{
    same_exprs(&first.arguments, &second.arguments)
        && same_options(&first.place, &second.place, same_where)
}
