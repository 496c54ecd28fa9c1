//! What is judged of a statement before its ports are.

ghost use Rattle.std.specs.Prelude.{◌≡◌};
ghost use Rattle.fm_rules.specs.JudgedStatements.{has_stray_port, type_of, variable_type};

use fm_rules::ExprType;
use fm_symbols::{Context, Names, Scope, UnitNames};
use fm_tree::{Expr, Stmt, Var};
use fm_types::judge_statement;
use fm_types_expr::{judge, judge_variable};

/// A unit in its program: its names and scope, and those of all units.
#[derive(Clone, Copy)]
pub(crate) struct Site<'a> {
    pub all: &'a Names,
    pub names: &'a UnitNames,
    pub context: &'a Context,
    pub scope: &'a Scope,
}

#[tactic(auto, unfolding(fm_rules::specs::JudgedStatements::type_of))]
pub(crate) fn type_of(site: &Site, expr: &Expr) -> ExprType
    ensures { result ≡ type_of site.now.context.now site.now.scope.now expr.now }
{
    judge(site.context, site.scope, expr).expr_type
}

#[tactic(auto, unfolding(fm_rules::specs::JudgedStatements::variable_type))]
pub(crate) fn variable_type(site: &Site, variable: &Var) -> ExprType
    ensures { result ≡ variable_type site.now.context.now site.now.scope.now variable.now }
{
    judge_variable(site.context, site.scope, variable).expr_type
}

// Whether a port stands where a value is wanted.
#[tactic(auto, unfolding(fm_rules::specs::JudgedStatements::has_stray_port))]
pub(crate) fn has_stray_port(site: &Site, stmt: &Stmt) -> bool
    ensures { result ≡ has_stray_port site.now.names.now site.now.context.now site.now.scope.now stmt.now }
{
    judge_statement(
        site.context,
        site.scope,
        site.names.variables.as_slice(),
        stmt,
    )
    .e50
}
