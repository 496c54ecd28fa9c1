//! The judgement of variables, as places of ports and as targets.

ghost use Rattle.std.specs.Prelude.{◌≡◌};
ghost use Rattle.fm_rules.specs.VariableTypes.{element_of, is_bare, is_fixed, subscripted, target_judged, target_named, target_type, variable_judged};

use crate::expressions::{array_or, judge_arguments, judge_reference};
use crate::flags::{e41, e44};
use crate::typing::{plain, result_of, symbol_type, with_flags};
use fm_rules::{Arguments, ExprType, Judgement, Referent};
use fm_symbols::{Context, Scope, Symbol, symbol_in};
use fm_tree::{Expr, Var};

fn subscripted(context: &Context, referent: Referent, subscripts: Arguments) -> Judgement
    ensures { result ≡ subscripted context.now referent subscripts }
{
    match referent {
        Referent::Element(_, _) => judge_reference(context, referent, subscripts),
        Referent::PortElement(_, _) => judge_reference(context, referent, subscripts),
        Referent::Intrinsic(_) => with_flags(ExprType::Nothing, subscripts.flags, e41(true)),
        Referent::Unit(_) => with_flags(ExprType::Nothing, subscripts.flags, e41(true)),
        Referent::Unknown => with_flags(ExprType::Nothing, subscripts.flags, e41(true)),
    }
}

fn element_of(context: &Context, scope: &Scope, variable: &Var) -> Judgement
    ensures { result ≡ element_of context.now scope.now variable.now }
{
    let symbol = scope.symbols.get(&variable.name).copied();
    let referent = array_or(symbol, Referent::Unknown);
    let subscripts = judge_arguments(context, scope, referent, variable.subscripts.as_slice());
    subscripted(context, referent, subscripts)
}

/// Whether a variable stands without subscripts.
pub fn is_bare(subscripts: &[Expr]) -> bool
    ensures { result ≡ is_bare subscripts.now }
{
    subscripts.is_empty()
}

/// The type of a variable or an element where a port is needed, and which rules are broken there.
pub fn judge_variable(context: &Context, scope: &Scope, variable: &Var) -> Judgement
    ensures { result ≡ variable_judged context.now scope.now variable.now }
{
    if is_bare(variable.subscripts.as_slice()) {
        plain(symbol_type(symbol_in(context, scope, &variable.name)))
    } else {
        element_of(context, scope, variable)
    }
}

fn is_fixed(symbol: Option<Symbol>) -> bool
    ensures { result ≡ is_fixed symbol }
{
    match symbol {
        None => false,
        Some(Symbol::Constant(_)) => true,
        Some(Symbol::Variable(_, _)) => false,
        Some(Symbol::Array(_, _, _)) => false,
        Some(Symbol::Port(_, _)) => false,
        Some(Symbol::Ports(_, _, _)) => false,
        Some(Symbol::Function(_)) => true,
    }
}

fn target_type(context: &Context, symbol: Option<Symbol>) -> ExprType
    ensures { result ≡ target_type context.now symbol }
{
    match symbol {
        None => ExprType::Nothing,
        Some(Symbol::Constant(scalar)) => ExprType::Value(scalar),
        Some(Symbol::Variable(scalar, _)) => ExprType::Value(scalar),
        Some(Symbol::Array(scalar, _, extent)) => ExprType::Array(scalar, extent.elements),
        Some(Symbol::Port(_, place)) => ExprType::Port(place),
        Some(Symbol::Ports(_, place, _)) => ExprType::Ports(place),
        Some(Symbol::Function(unit)) => result_of(context, unit),
    }
}

/// The type of a name that stands alone as a target, and whether it can't be changed.
pub fn target_named(context: &Context, symbol: Option<Symbol>) -> Judgement
    ensures { result ≡ target_named context.now symbol }
{
    Judgement {
        expr_type: target_type(context, symbol),
        flags: e44(is_fixed(symbol)),
    }
}

/// The type of a variable or an element that is given a value, and which rules are broken there.
pub fn judge_target(context: &Context, scope: &Scope, variable: &Var) -> Judgement
    ensures { result ≡ target_judged context.now scope.now variable.now }
{
    if is_bare(variable.subscripts.as_slice()) {
        target_named(context, symbol_in(context, scope, &variable.name))
    } else {
        element_of(context, scope, variable)
    }
}
