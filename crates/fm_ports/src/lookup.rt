//! The parts of statements.

ghost use Rattle.std.specs.Prelude.{◌≡◌, option_map, [], length};
ghost use Rattle.fm_rules.specs.PortRules.{actuals_in, actuals_or, call_in, call_in_simple, location_by, location_in, rank, simple_in, values_in};

use fm_base::{Name, Seq};
use fm_tree::{CallPart, Expr, Simple, Stmt, Where};

// The statement of an entry that may stand behind a logical IF.
#[tactic(auto, unfolding(fm_rules::specs::PortRules::simple_in))]
pub(crate) fn simple_in(stmt: &Stmt) -> Option<&Simple>
    ensures { option_map (λ x. x.now) result ≡ simple_in stmt.now }
{
    match stmt {
        Stmt::Simple(simple) => Some(simple),
        _ => None,
    }
}

fn actuals_or(arguments: &Option<Seq<Expr>>) -> &[Expr]
    ensures { result.now ≡ actuals_or arguments.now }
{
    match arguments {
        Some(arguments) => arguments.as_slice(),
        None => &[],
    }
}

fn actuals_in(part: &Option<CallPart>) -> &[Expr]
    ensures { result.now ≡ actuals_in part.now }
{
    match part {
        Some(part) => part.arguments.as_slice(),
        None => &[],
    }
}

#[tactic(auto, unfolding(fm_rules::specs::PortRules::call_in_simple))]
fn call_in_simple(simple: &Simple) -> Option<(&Name, &[Expr])>
    ensures { option_map (λ x. (x.0.now, x.1.now)) result ≡ call_in_simple simple.now }
{
    match simple {
        Simple::Call(name, arguments) => Some((name, actuals_or(arguments))),
        _ => None,
    }
}

// The subroutine or the process that is called, with its actuals.
#[tactic(auto, unfolding(fm_rules::specs::PortRules::call_in))]
pub(crate) fn call_in(stmt: &Stmt) -> Option<(&Name, &[Expr])>
    ensures { option_map (λ x. (x.0.now, x.1.now)) result ≡ call_in stmt.now }
{
    match stmt {
        Stmt::Simple(simple) => call_in_simple(simple),
        Stmt::ProcessCall(name, part) => Some((name, actuals_in(part))),
        _ => None,
    }
}

fn values_in(place: &Option<Where>) -> Option<&[Expr]>
    ensures { option_map (λ x. x.now) result ≡ values_in place.now }
{
    match place {
        Some(Where::Location(values)) => Some(values.as_slice()),
        Some(Where::Submachine(_, _)) => None,
        None => None,
    }
}

fn location_by(part: &Option<CallPart>) -> Option<&[Expr]>
    ensures { option_map (λ x. x.now) result ≡ location_by part.now }
{
    match part {
        Some(part) => values_in(&part.place),
        None => None,
    }
}

// The values of a LOCATION.
#[tactic(auto, unfolding(fm_rules::specs::PortRules::location_in))]
pub(crate) fn location_in(stmt: &Stmt) -> Option<&[Expr]>
    ensures { option_map (λ x. x.now) result ≡ location_in stmt.now }
{
    match stmt {
        Stmt::ProcessCall(_, part) => location_by(part),
        _ => None,
    }
}

// How many values LOCATION has where PROCESSORS has these extents.
pub(crate) fn rank(extents: &[u32]) -> usize
    ensures { result ≡ rank extents.now }
{
    if extents.is_empty() { 1 } else { extents.len() }
}
