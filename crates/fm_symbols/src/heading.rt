//! What the heading of a unit says.

ghost use Rattle.std.specs.Prelude.{◌≡◌, [], unwrap_or};
ghost use Rattle.std.specs.Option.{option_map};
ghost use Rattle.fm_symbols.specs.Headings.{heading_formals, heading_kind, heading_name, is_function};

use fm_base::{Name, Seq};
use fm_tree::{Stmt, UnitKind};

/// The name of a heading. Another statement has none.
#[tactic(auto, unfolding(crate::specs::Headings::heading_name))]
pub fn heading_name(stmt: &Stmt) -> Option<&Name>
    ensures { option_map (λ n. n.now) result ≡ heading_name stmt.now }
{
    match stmt {
        Stmt::Program(name) => Some(name),
        Stmt::Process(name, _) => Some(name),
        Stmt::Subroutine(name, _) => Some(name),
        Stmt::Function(name, _) => Some(name),
        Stmt::IntegerFunction(name, _) => Some(name),
        Stmt::LogicalFunction(name, _) => Some(name),
        _ => None,
    }
}

fn listed(formals: &Option<Seq<Name>>) -> &[Name]
    ensures { result.now ≡ unwrap_or formals.now [] }
{
    match formals {
        Some(names) => names.as_slice(),
        None => &[],
    }
}

/// The formal arguments of a heading, in their order.
#[tactic(auto, unfolding(crate::specs::Headings::heading_formals))]
pub fn heading_formals(stmt: &Stmt) -> &[Name]
    ensures { result.now ≡ heading_formals stmt.now }
{
    match stmt {
        Stmt::Process(_, formals) => listed(formals),
        Stmt::Subroutine(_, formals) => listed(formals),
        Stmt::Function(_, formals) => formals.as_slice(),
        Stmt::IntegerFunction(_, formals) => formals.as_slice(),
        Stmt::LogicalFunction(_, formals) => formals.as_slice(),
        _ => &[],
    }
}

/// The kind of unit that a heading begins; a statement that is no heading begins a PROGRAM.
#[tactic(auto, unfolding(crate::specs::Headings::heading_kind))]
pub fn heading_kind(stmt: &Stmt) -> UnitKind
    ensures { result ≡ heading_kind stmt.now }
{
    match stmt {
        Stmt::Process(_, _) => UnitKind::Process,
        Stmt::Subroutine(_, _) => UnitKind::Subroutine,
        Stmt::Function(_, _) => UnitKind::Function,
        Stmt::IntegerFunction(_, _) => UnitKind::Function,
        Stmt::LogicalFunction(_, _) => UnitKind::Function,
        _ => UnitKind::Program,
    }
}

/// Whether units of this kind are FUNCTIONs.
pub fn is_function(kind: UnitKind) -> bool
    ensures { result ≡ is_function kind }
{
    matches!(kind, UnitKind::Function)
}
