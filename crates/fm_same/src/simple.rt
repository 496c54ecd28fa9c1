//! Statements that may stand behind a logical IF.

ghost use Rattle.std.specs.Prelude.{Bool};
ghost use Rattle.fm_same.specs.Same.{IsSameTest};
ghost use Rattle.fm_tree.specs.declared.statement.Simple.TheVariants as simple;

use crate::operands::{same_extras, same_printed, same_var, same_vars, same_write_unit};
use crate::parts::{same_expr, same_exprs, same_label, same_name};
use crate::same_options;
use fm_base::Seq;
use fm_tree::{Expr, Extra, Simple, Var};

// Whether a statement is the CHANNEL of these parts.
fn is_channel(stmt: &Simple, in_first: bool, inport: &Var, outport: &Var) -> bool
    ensures { IsSameTest result (simple.Channel in_first inport.now outport.now) stmt.now }
{
    match stmt {
        Simple::Channel {
            in_first: a,
            inport: b,
            outport: c,
        } => in_first == *a && same_var(inport, b) && same_var(outport, c),
        _ => false,
    }
}

fn is_send(stmt: &Simple, named: bool, port: &Var, items: &Seq<Expr>) -> bool
    ensures { IsSameTest result (simple.Send named port.now items.now) stmt.now }
{
    match stmt {
        Simple::Send {
            named: a,
            port: b,
            items: c,
        } => named == *a && same_var(port, b) && same_exprs(items, c),
        _ => false,
    }
}

fn is_receive(stmt: &Simple, named: bool, port: &Var, extras: &Seq<Extra>, items: &Seq<Var>) -> bool
    ensures { IsSameTest result (simple.Receive named port.now extras.now items.now) stmt.now }
{
    match stmt {
        Simple::Receive {
            named: a,
            port: b,
            extras: c,
            items: d,
        } => named == *a && same_var(port, b) && same_extras(extras, c) && same_vars(items, d),
        _ => false,
    }
}

fn is_end_channel(stmt: &Simple, named: bool, port: &Var) -> bool
    ensures { IsSameTest result (simple.EndChannel named port.now) stmt.now }
{
    match stmt {
        Simple::EndChannel { named: a, port: b } => named == *a && same_var(port, b),
        _ => false,
    }
}

fn is_move(stmt: &Simple, from: &Var, to: &Var) -> bool
    ensures { IsSameTest result (simple.MovePort from.now to.now) stmt.now }
{
    match stmt {
        Simple::MovePort { from: a, to: b } => same_var(from, a) && same_var(to, b),
        _ => false,
    }
}

fn is_probe(stmt: &Simple, named: bool, port: &Var, empty: &Var) -> bool
    ensures { IsSameTest result (simple.Probe named port.now empty.now) stmt.now }
{
    match stmt {
        Simple::Probe {
            named: a,
            port: b,
            empty: c,
        } => named == *a && same_var(port, b) && same_var(empty, c),
        _ => false,
    }
}

/// Whether two statements that may stand behind a logical IF are the same.
pub(crate) fn same_simple(first: &Simple, second: &Simple) -> bool
    ensures { IsSameTest result first.now second.now }
{
    match (first, second) {
        (Simple::Assignment(a, x), Simple::Assignment(b, y)) => same_var(a, b) && same_expr(x, y),
        (Simple::Goto(a), Simple::Goto(b)) => same_label(a, b),
        (Simple::Continue, Simple::Continue) => true,
        (Simple::Return, Simple::Return) => true,
        (Simple::Stop, Simple::Stop) => true,
        (Simple::Call(a, x), Simple::Call(b, y)) => {
            same_name(a, b) && same_options(x, y, same_exprs)
        }
        (Simple::Print(a), Simple::Print(b)) => same_printed(a, b),
        (Simple::Write(a, x), Simple::Write(b, y)) => same_write_unit(a, b) && same_printed(x, y),
        (Simple::Merger(a, x), Simple::Merger(b, y)) => same_var(a, b) && same_vars(x, y),
        (
            Simple::Channel {
                in_first,
                inport,
                outport,
            },
            stmt,
        ) => is_channel(stmt, *in_first, inport, outport),
        (Simple::Send { named, port, items }, stmt) => is_send(stmt, *named, port, items),
        (
            Simple::Receive {
                named,
                port,
                extras,
                items,
            },
            stmt,
        ) => is_receive(stmt, *named, port, extras, items),
        (Simple::EndChannel { named, port }, stmt) => is_end_channel(stmt, *named, port),
        (Simple::MovePort { from, to }, stmt) => is_move(stmt, from, to),
        (Simple::Probe { named, port, empty }, stmt) => is_probe(stmt, *named, port, empty),
        _ => false,
    }
}
