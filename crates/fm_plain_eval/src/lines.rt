//! Printed lines.

ghost use Rattle.std.specs.Prelude.{◌≡◌, ◌+◌, ◌++◌, OnOk, map};
ghost use Rattle.fm_mean.specs.Evaluate.{printed_all, printed_by, printed_named, printed_tree, printed_value, refs_in};
ghost use Rattle.fm_mean.specs.Names.{variable_of};
ghost use Rattle.fm_plain_frame.specs.Units.{unit_of};
ghost use Rattle.fm_plain_eval.specs.Outcomes.{IsAdded, IsLine};
ghost use Rattle.fm_plain_eval.specs.Printing.{item_printed, refs_in_item};
ghost use Rattle.fm_plain_eval.specs.Scopes.{scope_of};

use crate::failure::Failure;
use crate::scopes::{Scope, whole};
use crate::values::value;
use fm_base::{Name, NoMemory, Printed, Seq, output_line};
use fm_plain_frame::memory::words;
use fm_tree::{Expr, ExprNode, Item, Kind};
use fm_values::{Value, is_truth};
use std::alloc::Global;

fn printed_by(kind: &Kind, word: i64) -> Printed
    ensures { result ≡ printed_by kind.now word }
{
    match kind {
        Kind::Integer => Printed::Number(word),
        Kind::Logical => Printed::Truth(is_truth(word)),
        Kind::In(_) => Printed::Number(word),
        Kind::Out(_) => Printed::Number(word),
    }
}

fn printed_value(value: Value) -> Printed
    ensures { result ≡ printed_value value }
{
    match value {
        Value::Number(number) => Printed::Number(number),
        Value::Truth(truth) => Printed::Truth(truth),
    }
}

fn push_words(kind: &Kind, words: &[i64], line: &mut Seq<Printed>) -> Result<(), NoMemory>
    ensures { OnOk result (line.new ≡ line.old ++ map (printed_by kind.now) words.now) }
{
    'words: for word in words {
        line.push(printed_by(kind, *word))?;
    }
    Ok(())
}

/// Adds what a name prints: an array element by element.
fn push_named(
    alloc: Global,
    scope: &Scope<'_>,
    name: &Name,
    line: &mut Seq<Printed>,
) -> Result<(), NoMemory>
    ensures { OnOk result (line.new
        ≡ line.old ++ printed_named (scope_of scope.now) name.now (variable_of (unit_of scope.now.unit) name.now)) }
{
    match scope.unit.variable(name) {
        None => line.push(printed_value(scope.named(name))),
        Some((place, variable)) => {
            let span = whole(place, variable);
            let words = words(alloc, scope.memory, scope.unit.variables(), span)?;
            push_words(&variable.kind, words.as_slice(), line)
        }
    }
}

fn push_tree(
    alloc: Global,
    scope: &Scope<'_>,
    tree: &Expr,
    next: usize,
    line: &mut Seq<Printed>,
) -> Result<usize, Failure>
    ensures { IsAdded (printed_tree (scope_of scope.now) tree.now next) (next + refs_in (scope_of scope.now) tree.now)
        line.old line.new result }
{
    if let ExprNode::Named(name) = &tree.node {
        push_named(alloc, scope, name, line)?;
        return Ok(next);
    }
    let (value, next) = value(alloc, scope, tree, next)?;
    line.push(printed_value(value))?;
    Ok(next)
}

fn push_item(
    alloc: Global,
    scope: &Scope<'_>,
    item: &Item,
    next: usize,
    line: &mut Seq<Printed>,
) -> Result<usize, Failure>
    ensures { IsAdded (item_printed (scope_of scope.now) item.now next)
        (next + refs_in_item (scope_of scope.now) item.now) line.old line.new result }
{
    match item {
        Item::Expr(tree) => push_tree(alloc, scope, tree, next, line),
        Item::Constant(bytes) => {
            let text = Seq::from_slice(alloc, bytes.as_slice())?;
            line.push(Printed::Text(text))?;
            Ok(next)
        }
    }
}

/// The bytes of the line that items print, without its line feed. The first fault from left to right; or want of
/// memory.
pub fn line(alloc: Global, scope: &Scope<'_>, items: &[Item]) -> Result<Seq<u8>, Failure>
    ensures { IsLine (printed_all (scope_of scope.now) items.now 0) result }
{
    let mut printed = Seq::new(alloc);
    let mut next = 0;
    'items: for item in items {
        next = push_item(alloc, scope, item, next, &mut printed)?;
    }
    Ok(Seq::from_vec(output_line(alloc, printed.as_slice())?))
}
