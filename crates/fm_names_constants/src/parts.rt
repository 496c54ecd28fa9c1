//! The parts of specification statements.

ghost use Rattle.std.specs.Prelude.{◌≡◌};
ghost use Rattle.std.specs.Option.{option_map};
ghost use Rattle.fm_rules.specs.ConstantParts.{decls_of, definitions_in, is_implicit_none, machine_in, port_type_in, scalar_in};

use fm_symbols::Scalar;
use fm_tree::{Decl, Defined, Expr, PortType, Stmt};

/// The names that a statement declares, with the bounds behind them.
#[tactic(auto, unfolding(fm_rules::specs::ConstantParts::decls_of))]
pub fn decls_of(stmt: &Stmt) -> &[Decl]
    ensures { result.now ≡ decls_of stmt.now }
{
    match stmt {
        Stmt::Integer(decls) => decls.as_slice(),
        Stmt::Logical(decls) => decls.as_slice(),
        Stmt::Dimension(decls) => decls.as_slice(),
        Stmt::Inport(_, decls) => decls.as_slice(),
        Stmt::Outport(_, decls) => decls.as_slice(),
        _ => &[],
    }
}

/// The type of values that a statement gives the names that it declares.
#[tactic(auto, unfolding(fm_rules::specs::ConstantParts::scalar_in))]
pub fn scalar_in(stmt: &Stmt) -> Option<Scalar>
    ensures { result ≡ scalar_in stmt.now }
{
    match stmt {
        Stmt::Integer(_) => Some(Scalar::Integer),
        Stmt::Logical(_) => Some(Scalar::Logical),
        _ => None,
    }
}

/// The type of messages that a statement gives the ports that it declares.
#[tactic(auto, unfolding(fm_rules::specs::ConstantParts::port_type_in))]
pub fn port_type_in(stmt: &Stmt) -> Option<&PortType>
    ensures { option_map (λ p. p.now) result ≡ port_type_in stmt.now }
{
    match stmt {
        Stmt::Inport(port_type, _) => Some(port_type),
        Stmt::Outport(port_type, _) => Some(port_type),
        _ => None,
    }
}

/// The constants that a statement defines.
#[tactic(auto, unfolding(fm_rules::specs::ConstantParts::definitions_in))]
pub fn definitions_in(stmt: &Stmt) -> &[Defined]
    ensures { result.now ≡ definitions_in stmt.now }
{
    match stmt {
        Stmt::Parameter(definitions) => definitions.as_slice(),
        _ => &[],
    }
}

/// The extents of the machine that a statement gives.
#[tactic(auto, unfolding(fm_rules::specs::ConstantParts::machine_in))]
pub fn machine_in(stmt: &Stmt) -> &[Expr]
    ensures { result.now ≡ machine_in stmt.now }
{
    match stmt {
        Stmt::Processors(extents) => extents.as_slice(),
        _ => &[],
    }
}

/// Whether a statement is IMPLICIT NONE.
#[tactic(auto, unfolding(fm_rules::specs::ConstantParts::is_implicit_none))]
pub fn is_implicit_none(stmt: &Stmt) -> bool
    ensures { result ≡ is_implicit_none stmt.now }
{
    match stmt {
        Stmt::ImplicitNone => true,
        _ => false,
    }
}
