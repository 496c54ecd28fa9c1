//! The code of arguments, of items, and of places that are to be filled.

ghost use Rattle.std.specs.Prelude.{◌≡◌, ◌+◌, ◌++◌, ◌∷◌, [], ℕ, Some, IfOk, OnOk};
ghost use Rattle.fm_tree.specs.Tree.{Ref, trees_from};
ghost use Rattle.fm_mean.specs.Names.{variable_of};
ghost use Rattle.fm_mean.specs.Evaluate.{refs_in, refs_in_all, refs_in_var, refs_in_vars};
ghost use Rattle.fm_plain_frame.specs.Units.{unit_of, variable_read};
ghost use Rattle.fm_mean.specs.Referring.{names_in};
ghost use Rattle.fm_gen_operands.specs.Places.{argument_code, arguments_code, named_argument, pass_at, pass_value, pass_whole, reference_argument, target_by, target_code, targets_code, value_argument, whole_span};

use crate::counting::references;
use crate::expressions::emit;
use crate::places::located;
use crate::reference::referent;
use crate::variables::{constant_word, push};
use fm_base::{Name, NoMemory, Seq};
use fm_code::{Build, Instr, Span};
use fm_plain_frame::{Reference, UnitView};
use fm_symbols::Variable;
use fm_tree::{Expr, ExprNode, Kind, Var};

fn pass_whole(variable: &Variable) -> Instr
    ensures { result ≡ pass_whole variable.now.kind (whole_span variable.now) }
{
    let span = Span {
        first: variable.first,
        count: variable.words,
    };
    match &variable.kind {
        Kind::Integer => Instr::Build(Build::PassWords(span)),
        Kind::Logical => Instr::Build(Build::PassWords(span)),
        Kind::In(_) => Instr::Build(Build::PassPorts(span)),
        Kind::Out(_) => Instr::Build(Build::PassPorts(span)),
    }
}

fn pass_at(kind: &Kind) -> Instr
    ensures { result ≡ pass_at kind.now }
{
    match kind {
        Kind::Integer => Instr::Build(Build::PassWordAt),
        Kind::Logical => Instr::Build(Build::PassWordAt),
        Kind::In(_) => Instr::Build(Build::PassPortAt),
        Kind::Out(_) => Instr::Build(Build::PassPortAt),
    }
}

fn pass_value() -> Instr
    ensures { result ≡ pass_value }
{
    Instr::Build(Build::PassValue)
}

/// Adds what passes a name that stands alone: a variable whole, or the value of a constant.
fn named(unit: &UnitView<'_>, name: &Name, out: &mut Seq<Instr>) -> Result<(), NoMemory>
    ensures { OnOk result
        (out.new ≡ out.old ++ named_argument (unit_of unit.now) name.now (variable_of (unit_of unit.now) name.now)) }
{
    match unit.variable(name) {
        None => {
            out.push(push(constant_word(unit.constant(name))))?;
            out.push(pass_value())
        }
        Some((_, variable)) => out.push(pass_whole(variable)),
    }
}

/// Adds what passes the value of an expression.
fn value(
    unit: &UnitView<'_>,
    tree: &Expr,
    next: usize,
    out: &mut Seq<Instr>,
) -> Result<usize, NoMemory>
    ensures code { OnOk result
        (out.new ≡ out.old ++ value_argument unit.now.program.now (unit_of unit.now) tree.now next) }
    ensures next { IfOk result (λ k. k ≡ next + refs_in (names_in unit.now.program.now (unit_of unit.now)) tree.now) }
{
    let next = emit(unit, tree, next, out)?;
    out.push(pass_value())?;
    Ok(next)
}

/// A name with a list behind it, with the expression that it is.
#[derive(Clone, Copy)]
struct Application<'a> {
    tree: &'a Expr,
    name: &'a Name,
    arguments: &'a [Expr],
}

fn applied(
    unit: &UnitView<'_>,
    it: Application<'_>,
    next: usize,
    out: &mut Seq<Instr>,
) -> Result<usize, NoMemory>
    requires { it.tree.now ≡ Ref it.name.now (trees_from it.arguments.now) }
    ensures code { OnOk result
        (out.new ≡ out.old ++ argument_code unit.now.program.now (unit_of unit.now) it.entry.tree.now next) }
    ensures next { IfOk result
        (λ k. k ≡ next + refs_in (names_in unit.now.program.now (unit_of unit.now)) it.entry.tree.now) }
{
    match referent(unit, it.name) {
        Reference::Element(_, variable) => {
            let passed = pass_at(&variable.kind);
            located(unit, variable, it.arguments, next, Some(passed), out)
        }
        Reference::Call(_, _) => value(unit, it.tree, next, out),
        Reference::Built(_) => value(unit, it.tree, next, out),
        Reference::Unknown => value(unit, it.tree, next, out),
    }
}

fn argument(
    unit: &UnitView<'_>,
    tree: &Expr,
    next: usize,
    out: &mut Seq<Instr>,
) -> Result<usize, NoMemory>
    ensures code { OnOk result
        (out.new ≡ out.old ++ argument_code unit.now.program.now (unit_of unit.now) tree.now next) }
    ensures next { IfOk result (λ k. k ≡ next + refs_in (names_in unit.now.program.now (unit_of unit.now)) tree.now) }
{
    match &tree.node {
        ExprNode::Named(name) => {
            named(unit, name, out)?;
            Ok(next)
        }
        ExprNode::Ref(name, arguments) => {
            let it = Application {
                tree,
                name,
                arguments,
            };
            applied(unit, it, next, out)
        }
        ExprNode::Number(_) => value(unit, tree, next, out),
        ExprNode::Truth(_) => value(unit, tree, next, out),
        ExprNode::Paren(_) => value(unit, tree, next, out),
        ExprNode::Signed(_, _) => value(unit, tree, next, out),
        ExprNode::Not(_) => value(unit, tree, next, out),
        ExprNode::Binary(_, _, _) => value(unit, tree, next, out),
    }
}

/// Adds the code of arguments, or of the items of a message, before which `next` references of their entry stand: from
/// left to right each is the next operand. The number of references that stand before what comes behind them.
pub fn arguments(
    unit: &UnitView<'_>,
    trees: &[Expr],
    next: usize,
    out: &mut Seq<Instr>,
) -> Result<usize, NoMemory>
    ensures code { OnOk result
        (out.new ≡ out.old ++ arguments_code unit.now.program.now (unit_of unit.now) (trees_from trees.now) next) }
    ensures next { IfOk result
        (λ k. k ≡ next + refs_in_all (names_in unit.now.program.now (unit_of unit.now)) (trees_from trees.now)) }
{
    let mut next = next;
    'trees: for tree in trees {
        next = argument(unit, tree, next, out)?;
    }
    Ok(next)
}

/// Adds what makes a variable or an element the next operand, to be filled.
fn variable_target(
    unit: &UnitView<'_>,
    variable: &Variable,
    subscripts: &[Expr],
    next: usize,
    out: &mut Seq<Instr>,
) -> Result<usize, NoMemory>
    ensures code { (place : ℕ)
        → OnOk result (out.new
        ≡ out.old
        ++ target_by unit.now.program.now (unit_of unit.now) (Some (place, variable.now)) (trees_from subscripts.now)
        next) }
    ensures next { IfOk result
        (λ k. k ≡ next + refs_in_all (names_in unit.now.program.now (unit_of unit.now)) (trees_from subscripts.now)) }
{
    match subscripts.split_first() {
        None => {
            out.push(pass_whole(variable))?;
            Ok(next)
        }
        Some(_) => {
            let passed = pass_at(&variable.kind);
            located(unit, variable, subscripts, next, Some(passed), out)
        }
    }
}

fn target(
    unit: &UnitView<'_>,
    var: &Var,
    next: usize,
    out: &mut Seq<Instr>,
) -> Result<usize, NoMemory>
    ensures code { OnOk result (out.new ≡ out.old ++ target_code unit.now.program.now (unit_of unit.now) var.now next) }
    ensures next { IfOk result
        (λ k. k ≡ next + refs_in_var (names_in unit.now.program.now (unit_of unit.now)) var.now) }
{
    let subscripts = var.subscripts.as_slice();
    match unit.variable(&var.name) {
        None => references(unit, subscripts, next),
        Some((_, variable)) => variable_target(unit, variable, subscripts, next, out),
    }
}

/// Adds the code of places that are to be filled: from left to right each is the next operand. The number of references
/// that stand before what comes behind them.
pub fn targets(
    unit: &UnitView<'_>,
    vars: &[Var],
    next: usize,
    out: &mut Seq<Instr>,
) -> Result<usize, NoMemory>
    ensures code { OnOk result
        (out.new ≡ out.old ++ targets_code unit.now.program.now (unit_of unit.now) vars.now next) }
    ensures next { IfOk result
        (λ k. k ≡ next + refs_in_vars (names_in unit.now.program.now (unit_of unit.now)) vars.now) }
{
    let mut next = next;
    'vars: for var in vars {
        next = target(unit, var, next, out)?;
    }
    Ok(next)
}
