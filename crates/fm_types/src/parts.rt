//! What is broken in the parts of a statement, and in lists of them: `any_` stands for what is broken in one of a list.

ghost use Rattle.std.specs.Prelude.{◌≡◌};
ghost use Rattle.fm_rules.specs.TypeStatements.{declaration_flags, extra_flags, in_any, integer_flags, is_other_type, is_wrongly_declared, item_flags, logical_flags, optional_flags, port_flags, printed, target_flags, expr_flags};

use fm_rules::{ExprType, Flags};
use fm_symbols::{Context, Scalar, Scope, Symbol, symbol_in};
use fm_tree::{Decl, Expr, Extra, Item, Var};
use fm_types_expr::{
    both, e40, e42, e50, judge, judge_target, judge_variable, no_flags, operand, result_of,
    same_scalar,
};

pub(crate) fn integer_flags(context: &Context, scope: &Scope, expr: &Expr) -> Flags
    ensures { result ≡ integer_flags context.now scope.now expr.now }
{
    operand(Scalar::Integer, judge(context, scope, expr))
}

pub(crate) fn logical_flags(context: &Context, scope: &Scope, expr: &Expr) -> Flags
    ensures { result ≡ logical_flags context.now scope.now expr.now }
{
    operand(Scalar::Logical, judge(context, scope, expr))
}

pub(crate) fn optional_flags(context: &Context, scope: &Scope, expr: &Option<Expr>) -> Flags
    ensures { result ≡ optional_flags context.now scope.now expr.now }
{
    match expr {
        Some(expr) => integer_flags(context, scope, expr),
        None => no_flags(),
    }
}

pub(crate) fn any_integer_flags(context: &Context, scope: &Scope, exprs: &[Expr]) -> Flags
    ensures { result ≡ in_any (integer_flags context.now scope.now) exprs.now }
{
    let mut flags = no_flags();
    for expr in exprs {
        flags = both(flags, integer_flags(context, scope, expr));
    }
    flags
}

/// A variable that is to hold a port.
pub(crate) fn port_flags(context: &Context, scope: &Scope, variable: &Var) -> Flags
    ensures { result ≡ port_flags context.now scope.now variable.now }
{
    judge_variable(context, scope, variable).flags
}

pub(crate) fn any_port_flags(context: &Context, scope: &Scope, variables: &[Var]) -> Flags
    ensures { result ≡ in_any (port_flags context.now scope.now) variables.now }
{
    let mut flags = no_flags();
    for variable in variables {
        flags = both(flags, port_flags(context, scope, variable));
    }
    flags
}

fn printed(expr_type: ExprType) -> Flags
    ensures { result ≡ printed expr_type }
{
    match expr_type {
        ExprType::Value(_) => no_flags(),
        ExprType::Array(_, _) => no_flags(),
        ExprType::Port(_) => e50(true),
        ExprType::Ports(_) => e50(true),
        ExprType::Function => e40(true),
        ExprType::Nothing => no_flags(),
    }
}

fn item_flags(context: &Context, scope: &Scope, item: &Item) -> Flags
    ensures { result ≡ item_flags context.now scope.now item.now }
{
    match item {
        Item::Expr(expr) => {
            let judgement = judge(context, scope, expr);
            both(judgement.flags, printed(judgement.expr_type))
        }
        Item::Constant(_) => no_flags(),
    }
}

pub(crate) fn any_item_flags(context: &Context, scope: &Scope, items: &[Item]) -> Flags
    ensures { result ≡ in_any (item_flags context.now scope.now) items.now }
{
    let mut flags = no_flags();
    for item in items {
        flags = both(flags, item_flags(context, scope, item));
    }
    flags
}

fn expr_flags(context: &Context, scope: &Scope, item: &Expr) -> Flags
    ensures { result ≡ expr_flags context.now scope.now item.now }
{
    judge(context, scope, item).flags
}

pub(crate) fn any_expr_flags(context: &Context, scope: &Scope, items: &[Expr]) -> Flags
    ensures { result ≡ in_any (expr_flags context.now scope.now) items.now }
{
    let mut flags = no_flags();
    for item in items {
        flags = both(flags, expr_flags(context, scope, item));
    }
    flags
}

fn extra_flags(context: &Context, scope: &Scope, extra: &Extra) -> Flags
    ensures { result ≡ extra_flags context.now scope.now extra.now }
{
    match extra {
        Extra::End(_) => no_flags(),
        Extra::Iostat(variable) => {
            operand(Scalar::Integer, judge_target(context, scope, variable))
        }
    }
}

pub(crate) fn any_extra_flags(context: &Context, scope: &Scope, extras: &[Extra]) -> Flags
    ensures { result ≡ in_any (extra_flags context.now scope.now) extras.now }
{
    let mut flags = no_flags();
    for extra in extras {
        flags = both(flags, extra_flags(context, scope, extra));
    }
    flags
}

fn target_flags(context: &Context, scope: &Scope, item: &Var) -> Flags
    ensures { result ≡ target_flags context.now scope.now item.now }
{
    judge_target(context, scope, item).flags
}

pub(crate) fn any_target_flags(context: &Context, scope: &Scope, items: &[Var]) -> Flags
    ensures { result ≡ in_any (target_flags context.now scope.now) items.now }
{
    let mut flags = no_flags();
    for item in items {
        flags = both(flags, target_flags(context, scope, item));
    }
    flags
}

fn is_other_type(scalar: Scalar, expr_type: ExprType) -> bool
    ensures { result ≡ is_other_type scalar expr_type }
{
    match expr_type {
        ExprType::Value(found) => !same_scalar(found, scalar),
        ExprType::Array(_, _) => false,
        ExprType::Port(_) => false,
        ExprType::Ports(_) => false,
        ExprType::Function => false,
        ExprType::Nothing => false,
    }
}

fn is_wrongly_declared(context: &Context, scalar: Scalar, symbol: Option<Symbol>) -> bool
    ensures { result ≡ is_wrongly_declared context.now scalar symbol }
{
    match symbol {
        None => false,
        Some(Symbol::Constant(_)) => false,
        Some(Symbol::Variable(_, _)) => false,
        Some(Symbol::Array(_, _, _)) => false,
        Some(Symbol::Port(_, _)) => false,
        Some(Symbol::Ports(_, _, _)) => false,
        Some(Symbol::Function(unit)) => is_other_type(scalar, result_of(context, unit)),
    }
}

fn declaration_flags(context: &Context, scope: &Scope, scalar: Scalar, declaration: &Decl) -> Flags
    ensures { result ≡ declaration_flags context.now scope.now scalar declaration.now }
{
    let symbol = symbol_in(context, scope, &declaration.name);
    e42(is_wrongly_declared(context, scalar, symbol))
}

/// The names of a type statement.
pub(crate) fn any_declaration_flags(
    context: &Context,
    scope: &Scope,
    scalar: Scalar,
    declarations: &[Decl],
) -> Flags
    ensures { result ≡ in_any (declaration_flags context.now scope.now scalar) declarations.now }
{
    let mut flags = no_flags();
    for declaration in declarations {
        let more = declaration_flags(context, scope, scalar, declaration);
        flags = both(flags, more);
    }
    flags
}
