//! The judgement of expressions.

ghost use Rattle.std.specs.Prelude.{◌≡◌};
ghost use Rattle.std.specs.List.{slice_get};
ghost use Rattle.fm_tree.specs.Tree.{trees_from};
ghost use Rattle.fm_rules.specs.Expressions.{array_or, arguments_judged, fits_wanted, formal_in, formals_in, function_referent, in_parentheses, intrinsic_or, is_stray_port, judged, operated, reference_judged, referent_of, wanted};
ghost use Rattle.fm_types_expr.specs.Behind.{argument_behind};

use crate::flags::{both, e40, e41, e42, e43, e50, no_flags};
use crate::typing::{
    fits, is_port, operand, operator_kind, plain, result_of, symbol_type, with_flags,
};
use fm_base::Name;
use fm_rules::{Arguments, ExprType, Flags, Judgement, OperatorKind, Referent};
use fm_symbols::{Context, Formal, Scalar, Scope, Symbol, function_named, symbol_in};
use fm_tree::{Expr, ExprNode};
use fm_values::Intrinsic;

fn intrinsic_or(intrinsic: Option<Intrinsic>, other: Referent) -> Referent
    ensures { result ≡ intrinsic_or intrinsic other }
{
    match intrinsic {
        None => other,
        Some(intrinsic) => Referent::Intrinsic(intrinsic),
    }
}

fn function_referent(symbol: Option<Symbol>) -> Referent
    ensures { result ≡ function_referent symbol }
{
    match symbol {
        None => Referent::Unknown,
        Some(Symbol::Constant(_)) => Referent::Unknown,
        Some(Symbol::Variable(_, _)) => Referent::Unknown,
        Some(Symbol::Array(_, _, _)) => Referent::Unknown,
        Some(Symbol::Port(_, _)) => Referent::Unknown,
        Some(Symbol::Ports(_, _, _)) => Referent::Unknown,
        Some(Symbol::Function(unit)) => Referent::Unit(unit),
    }
}

pub(crate) fn array_or(symbol: Option<Symbol>, other: Referent) -> Referent
    ensures { result ≡ array_or symbol other }
{
    match symbol {
        None => other,
        Some(Symbol::Constant(_)) => other,
        Some(Symbol::Variable(_, _)) => other,
        Some(Symbol::Array(scalar, _, extent)) => Referent::Element(scalar, extent.dimensions),
        Some(Symbol::Port(_, _)) => other,
        Some(Symbol::Ports(_, place, extent)) => Referent::PortElement(place, extent.dimensions),
        Some(Symbol::Function(_)) => other,
    }
}

fn referent_of(context: &Context, scope: &Scope, name: &Name) -> Referent
    ensures { result ≡ referent_of context.now scope.now name.now }
{
    let function = function_referent(function_named(context, name));
    let intrinsic = Intrinsic::from_name(name.as_bytes());
    array_or(
        scope.symbols.get(name).copied(),
        intrinsic_or(intrinsic, function),
    )
}

fn formal_in(context: &Context, unit: u32, index: usize) -> Option<Formal>
    ensures { result ≡ formal_in (slice_get context.now.scopes unit) index }
{
    match context.scopes.as_slice().get(unit as usize) {
        Some(scope) => scope.formals.as_slice().get(index).copied(),
        None => None,
    }
}

fn formals_in(context: &Context, unit: u32) -> usize
    ensures { result ≡ formals_in (slice_get context.now.scopes unit) }
{
    match context.scopes.as_slice().get(unit as usize) {
        Some(scope) => scope.formals.len(),
        None => 0,
    }
}

fn wanted(context: &Context, referent: Referent, index: usize) -> Option<Formal>
    ensures { result ≡ wanted context.now referent index }
{
    match referent {
        Referent::Element(_, _) => Some(Formal::Value(Scalar::Integer)),
        Referent::PortElement(_, _) => Some(Formal::Value(Scalar::Integer)),
        Referent::Intrinsic(_) => Some(Formal::Value(Scalar::Integer)),
        Referent::Unit(unit) => formal_in(context, unit, index),
        Referent::Unknown => None,
    }
}

fn fits_wanted(wanted: Option<Formal>, expr_type: ExprType) -> bool
    ensures { result ≡ fits_wanted wanted expr_type }
{
    match wanted {
        Some(formal) => fits(formal, expr_type),
        None => true,
    }
}

fn is_stray_port(wanted: Option<Formal>, expr_type: ExprType) -> bool
    ensures { result ≡ is_stray_port wanted expr_type }
{
    match wanted {
        None => false,
        Some(Formal::Value(_)) => is_port(expr_type),
        Some(Formal::Array(_, _)) => is_port(expr_type),
        Some(Formal::Port(_)) => false,
    }
}

fn argument_behind(before: Arguments, wanted: Option<Formal>, judgement: Judgement) -> Arguments
    ensures { result ≡ argument_behind before wanted judgement }
{
    let stray = e50(is_stray_port(wanted, judgement.expr_type));
    Arguments {
        flags: both(before.flags, both(judgement.flags, stray)),
        fit: before.fit && fits_wanted(wanted, judgement.expr_type),
        count: before.count,
    }
}

/// The type of a name with a list in parentheses, and which rules are broken there.
pub fn judge_reference(context: &Context, referent: Referent, arguments: Arguments) -> Judgement
    ensures { result ≡ reference_judged context.now referent arguments }
{
    let Arguments { flags, fit, count } = arguments;
    match referent {
        Referent::Element(scalar, dimensions) => {
            let fits = fit && count == dimensions;
            with_flags(ExprType::Value(scalar), flags, e41(!fits))
        }
        Referent::PortElement(place, dimensions) => {
            let fits = fit && count == dimensions;
            with_flags(ExprType::Port(place), flags, e41(!fits))
        }
        Referent::Intrinsic(intrinsic) => {
            let fits = fit && intrinsic.takes(count);
            with_flags(ExprType::Value(Scalar::Integer), flags, e42(!fits))
        }
        Referent::Unit(unit) => {
            let fits = fit && count == formals_in(context, unit);
            with_flags(result_of(context, unit), flags, e42(!fits))
        }
        Referent::Unknown => with_flags(ExprType::Nothing, flags, e43(true)),
    }
}

fn in_parentheses(expr_type: ExprType, flags: Flags) -> Judgement
    ensures { result ≡ in_parentheses expr_type flags }
{
    match expr_type {
        ExprType::Value(_) => Judgement { expr_type, flags },
        ExprType::Array(_, _) => with_flags(ExprType::Nothing, flags, e40(true)),
        ExprType::Port(_) => with_flags(ExprType::Nothing, flags, e50(true)),
        ExprType::Ports(_) => with_flags(ExprType::Nothing, flags, e50(true)),
        ExprType::Function => with_flags(ExprType::Nothing, flags, e40(true)),
        ExprType::Nothing => Judgement { expr_type, flags },
    }
}

fn operated(kind: OperatorKind, left: Judgement, right: Judgement) -> Judgement
    ensures { result ≡ operated kind left right }
{
    match kind {
        OperatorKind::Arithmetic => with_flags(
            ExprType::Value(Scalar::Integer),
            operand(Scalar::Integer, left),
            operand(Scalar::Integer, right),
        ),
        OperatorKind::Relational => with_flags(
            ExprType::Value(Scalar::Logical),
            operand(Scalar::Integer, left),
            operand(Scalar::Integer, right),
        ),
        OperatorKind::Logical => with_flags(
            ExprType::Value(Scalar::Logical),
            operand(Scalar::Logical, left),
            operand(Scalar::Logical, right),
        ),
    }
}

/// The type of an expression in the unit of a scope, and which rules it breaks.
#[cycle(judge)]
pub fn judge(context: &Context, scope: &Scope, expr: &Expr) -> Judgement
    ensures { result ≡ judged context.now scope.now expr.now }
{
    match &expr.node {
        ExprNode::Number(_) => plain(ExprType::Value(Scalar::Integer)),
        ExprNode::Truth(_) => plain(ExprType::Value(Scalar::Logical)),
        ExprNode::Named(name) => plain(symbol_type(symbol_in(context, scope, name))),
        ExprNode::Ref(name, args) => {
            let referent = referent_of(context, scope, name);
            judge_reference(
                context,
                referent,
                judge_arguments(context, scope, referent, args),
            )
        }
        ExprNode::Paren(inner) => {
            let judgement = judge(context, scope, inner);
            in_parentheses(judgement.expr_type, judgement.flags)
        }
        ExprNode::Signed(_, inner) => Judgement {
            expr_type: ExprType::Value(Scalar::Integer),
            flags: operand(Scalar::Integer, judge(context, scope, inner)),
        },
        ExprNode::Not(inner) => Judgement {
            expr_type: ExprType::Value(Scalar::Logical),
            flags: operand(Scalar::Logical, judge(context, scope, inner)),
        },
        ExprNode::Binary(op, left, right) => operated(
            operator_kind(*op),
            judge(context, scope, left),
            judge(context, scope, right),
        ),
    }
}

/// What is known of the list in parentheses behind a name that means `referent`.
#[cycle(judge)]
pub fn judge_arguments(
    context: &Context,
    scope: &Scope,
    referent: Referent,
    args: &[Expr],
) -> Arguments
    ensures { result ≡ arguments_judged context.now scope.now referent 0 (trees_from args.now) }
{
    let mut known = Arguments {
        flags: no_flags(),
        fit: true,
        count: 0,
    };
    let mut index: usize = 0;
    for arg in args {
        let judgement = judge(context, scope, arg);
        known = argument_behind(known, wanted(context, referent, index), judgement);
        index += 1;
    }
    Arguments {
        flags: known.flags,
        fit: known.fit,
        count: args.len(),
    }
}
