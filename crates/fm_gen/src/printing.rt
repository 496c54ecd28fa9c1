//! The code of printed lines.

ghost use Rattle.std.specs.Prelude.{◌≡◌, ◌+◌, ◌++◌, ◌∷◌, [], IfOk, OnOk};
ghost use Rattle.fm_values.specs.Operations.{is_arithmetic};
ghost use Rattle.fm_mean.specs.Evaluate.{refs_in};
ghost use Rattle.fm_mean.specs.Names.{result_variable, variable_of};
ghost use Rattle.fm_plain_frame.specs.Units.{unit_of};
ghost use Rattle.fm_mean.specs.Referring.{names_in};
ghost use Rattle.fm_plain_frame.specs.References.{reference_by};
ghost use Rattle.fm_gen.specs.Statements.{is_logical, is_logical_constant, is_logical_kind, is_logical_named, is_logical_reference, is_logical_result, item_code, items_code, letters, named_shown, print_code, refs_in_item, show, tree_shown, value_shown, variable_shown, words_shown};

use crate::storing::holds_word;
use fm_base::{Name, NoMemory, Op, Seq};
use fm_code::{Build, End, Instr, Span};
use fm_gen_operands::{constant_word, emit, push, referent};
use fm_plain_frame::{Reference, UnitView};
use fm_symbols::{Constant, Variable};
use fm_tree::{Expr, ExprNode, Item, Kind};

fn letters(bytes: &[u8], out: &mut Seq<Instr>) -> Result<(), NoMemory>
    ensures { OnOk result (out.new ≡ out.old ++ letters bytes.now) }
{
    'bytes: for byte in bytes {
        out.push(Instr::Build(Build::Letter(*byte)))?;
    }
    Ok(())
}

fn is_logical_kind(kind: &Kind) -> bool
    ensures { result ≡ is_logical_kind kind.now }
{
    match kind {
        Kind::Integer => false,
        Kind::Logical => true,
        Kind::In(_) => false,
        Kind::Out(_) => false,
    }
}

fn is_logical_constant(constant: Option<Constant>) -> bool
    ensures { result ≡ is_logical_constant constant }
{
    match constant {
        None => false,
        Some(Constant::Integer(_)) => false,
        Some(Constant::Logical(_)) => true,
    }
}

fn is_logical_named(unit: &UnitView<'_>, name: &Name) -> bool
    ensures { result ≡ is_logical_named (unit_of unit.now) name.now (variable_of (unit_of unit.now) name.now) }
{
    match unit.variable(name) {
        None => is_logical_constant(unit.constant(name)),
        Some((_, variable)) => is_logical_kind(&variable.kind),
    }
}

fn is_logical_result(callee: &UnitView<'_>) -> bool
    ensures { result ≡ is_logical_result (result_variable (unit_of callee.now)) }
{
    match callee.result_variable() {
        None => false,
        Some((_, variable)) => is_logical_kind(&variable.kind),
    }
}

fn is_logical_reference(reference: &Reference<'_>) -> bool
    ensures { result ≡ is_logical_reference (reference_by reference.now) }
{
    match reference {
        Reference::Element(_, variable) => is_logical_kind(&variable.kind),
        Reference::Call(_, callee) => is_logical_result(callee),
        Reference::Built(_) => false,
        Reference::Unknown => false,
    }
}

fn is_arithmetic(op: Op) -> bool
    ensures { result ≡ is_arithmetic op }
{
    matches!(op, Op::Add | Op::Sub | Op::Mul | Op::Div | Op::Pow)
}

/// Whether the value of an expression is a truth.
fn is_logical(unit: &UnitView<'_>, tree: &Expr) -> bool
    ensures { result ≡ is_logical unit.now.program.now (unit_of unit.now) tree.now }
{
    match &tree.node {
        ExprNode::Number(_) => false,
        ExprNode::Truth(_) => true,
        ExprNode::Named(name) => is_logical_named(unit, name),
        ExprNode::Ref(name, _) => is_logical_reference(&referent(unit, name)),
        ExprNode::Paren(inner) => is_logical(unit, inner),
        ExprNode::Signed(_, _) => false,
        ExprNode::Not(_) => true,
        ExprNode::Binary(op, _, _) => !is_arithmetic(*op),
    }
}

fn show(logical: bool) -> Instr
    ensures { result ≡ show logical }
{
    if logical {
        Instr::Build(Build::ShowTruth)
    } else {
        Instr::Build(Build::Show)
    }
}

fn words_shown(kind: &Kind, span: Span) -> Instr
    ensures { result ≡ words_shown kind.now span }
{
    match kind {
        Kind::Integer => Instr::Build(Build::ShowWords(span)),
        Kind::Logical => Instr::Build(Build::ShowTruths(span)),
        Kind::In(_) => Instr::Build(Build::ShowWords(span)),
        Kind::Out(_) => Instr::Build(Build::ShowWords(span)),
    }
}

fn show_variable(variable: &Variable, out: &mut Seq<Instr>) -> Result<(), NoMemory>
    ensures { OnOk result (out.new ≡ out.old ++ variable_shown variable.now) }
{
    if !holds_word(variable) {
        return Ok(());
    }
    let span = Span {
        first: variable.first,
        count: variable.words,
    };
    out.push(words_shown(&variable.kind, span))
}

fn show_named(unit: &UnitView<'_>, name: &Name, out: &mut Seq<Instr>) -> Result<(), NoMemory>
    ensures { OnOk result (out.new
        ≡ out.old
        ++ named_shown unit.now.program.now (unit_of unit.now) name.now (variable_of (unit_of unit.now) name.now)) }
{
    match unit.variable(name) {
        None => {
            let constant = unit.constant(name);
            out.push(push(constant_word(constant)))?;
            out.push(show(is_logical_constant(constant)))
        }
        Some((_, variable)) => show_variable(variable, out),
    }
}

fn show_value(
    unit: &UnitView<'_>,
    tree: &Expr,
    next: usize,
    out: &mut Seq<Instr>,
) -> Result<usize, NoMemory>
    ensures code { OnOk result
        (out.new ≡ out.old ++ value_shown unit.now.program.now (unit_of unit.now) tree.now next) }
    ensures next { IfOk result (λ k. k ≡ next + refs_in (names_in unit.now.program.now (unit_of unit.now)) tree.now) }
{
    let behind = emit(unit, tree, next, out)?;
    out.push(show(is_logical(unit, tree)))?;
    Ok(behind)
}

fn show_tree(
    unit: &UnitView<'_>,
    tree: &Expr,
    next: usize,
    out: &mut Seq<Instr>,
) -> Result<usize, NoMemory>
    ensures code { OnOk result (out.new ≡ out.old ++ tree_shown unit.now.program.now (unit_of unit.now) tree.now next) }
    ensures next { IfOk result (λ k. k ≡ next + refs_in (names_in unit.now.program.now (unit_of unit.now)) tree.now) }
{
    if let ExprNode::Named(name) = &tree.node {
        show_named(unit, name, out)?;
        return Ok(next);
    }
    show_value(unit, tree, next, out)
}

fn show_item(
    unit: &UnitView<'_>,
    item: &Item,
    next: usize,
    out: &mut Seq<Instr>,
) -> Result<usize, NoMemory>
    ensures code { OnOk result (out.new ≡ out.old ++ item_code unit.now.program.now (unit_of unit.now) item.now next) }
    ensures next { IfOk result (λ k. k ≡ next + refs_in_item unit.now.program.now (unit_of unit.now) item.now) }
{
    match item {
        Item::Constant(bytes) => {
            letters(bytes.as_slice(), out)?;
            out.push(Instr::Build(Build::ShowText))?;
            Ok(next)
        }
        Item::Expr(tree) => show_tree(unit, tree, next, out),
    }
}

fn show_items(unit: &UnitView<'_>, items: &[Item], out: &mut Seq<Instr>) -> Result<(), NoMemory>
    ensures { OnOk result (out.new ≡ out.old ++ items_code unit.now.program.now (unit_of unit.now) items.now 0) }
{
    let mut next = 0;
    'items: for item in items {
        next = show_item(unit, item, next, out)?;
    }
    Ok(())
}

/// Adds the code of a PRINT, behind which the statement at an address is next.
pub(crate) fn print(
    unit: &UnitView<'_>,
    items: &[Item],
    next: u32,
    out: &mut Seq<Instr>,
) -> Result<(), NoMemory>
    ensures { OnOk result (out.new ≡ out.old ++ print_code unit.now.program.now (unit_of unit.now) items.now next) }
{
    show_items(unit, items, out)?;
    out.push(Instr::End(End::Print(next)))
}
