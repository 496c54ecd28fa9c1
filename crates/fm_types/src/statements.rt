//! The judgement of statements.

ghost use Rattle.std.specs.Prelude.{◌≡◌};
ghost use Rattle.std.specs.List.{slice_get};
ghost use Rattle.fm_rules.specs.TypeStatements.{assignment_flags, changes_formal, flags_of, is_barred, is_barred_simple, is_formal, is_formal_at, loop_flags, loop_variable_flags, simple_flags, typed_flags, value_for};

use crate::calls::{call_flags, process_call_flags, written};
use crate::messages::{merger_flags, probe_flags, receive_flags, send_flags, two_ports_flags};
use crate::parts::{
    any_declaration_flags, any_item_flags, integer_flags, logical_flags, optional_flags, port_flags,
};
use fm_base::Name;
use fm_rules::{CallKind, ExprType, Flags, Judgement};
use fm_symbols::{Context, Scalar, Scope, Variable, is_function, symbol_in, symbol_place};
use fm_tree::{Expr, LoopHead, Simple, Stmt, Var};
use fm_types_expr::{
    both, e40, e46, e50, judge, judge_target, needed_value, no_flags, operand, target_named,
};

fn is_formal(variables: &[Variable], place: u32) -> bool
    ensures { result ≡ is_formal (slice_get variables.now place) }
{
    match variables.get(place as usize) {
        None => false,
        Some(variable) => variable.formal != 0,
    }
}

fn is_formal_at(variables: &[Variable], place: Option<u32>) -> bool
    ensures { result ≡ is_formal_at variables.now place }
{
    match place {
        None => false,
        Some(place) => is_formal(variables, place),
    }
}

fn changes_formal(scope: &Scope, variables: &[Variable], name: &Name) -> bool
    ensures { result ≡ changes_formal scope.now variables.now name.now }
{
    let place = symbol_place(scope.symbols.get(name).copied());
    is_function(scope.kind) && is_formal_at(variables, place)
}

fn value_for(target: ExprType, value: Judgement) -> Flags
    ensures { result ≡ value_for target value }
{
    match target {
        ExprType::Value(scalar) => operand(scalar, value),
        ExprType::Array(_, _) => both(value.flags, e40(true)),
        ExprType::Port(_) => both(both(value.flags, needed_value(value.expr_type)), e50(true)),
        ExprType::Ports(_) => both(both(value.flags, needed_value(value.expr_type)), e50(true)),
        ExprType::Function => both(value.flags, e40(true)),
        ExprType::Nothing => both(value.flags, needed_value(value.expr_type)),
    }
}

fn assignment_flags(
    context: &Context,
    scope: &Scope,
    variables: &[Variable],
    variable: &Var,
    value: &Expr,
) -> Flags
    ensures { result ≡ assignment_flags context.now scope.now variables.now variable.now value.now }
{
    let target = judge_target(context, scope, variable);
    let formal = e46(changes_formal(scope, variables, &variable.name));
    let value = value_for(target.expr_type, judge(context, scope, value));
    both(both(target.flags, formal), value)
}

fn loop_variable_flags(
    context: &Context,
    scope: &Scope,
    variables: &[Variable],
    name: &Name,
) -> Flags
    ensures { result ≡ loop_variable_flags context.now scope.now variables.now name.now }
{
    let target = target_named(context, symbol_in(context, scope, name));
    both(
        operand(Scalar::Integer, target),
        e46(changes_formal(scope, variables, name)),
    )
}

fn loop_flags(context: &Context, scope: &Scope, variables: &[Variable], head: &LoopHead) -> Flags
    ensures { result ≡ loop_flags context.now scope.now variables.now head.now }
{
    let variable = loop_variable_flags(context, scope, variables, &head.variable);
    let from = integer_flags(context, scope, &head.from);
    let to = integer_flags(context, scope, &head.to);
    let step = optional_flags(context, scope, &head.step);
    both(variable, both(both(from, to), step))
}

#[tactic(auto, unfolding(fm_rules::specs::TypeStatements::simple_flags))]
fn simple_flags(context: &Context, scope: &Scope, variables: &[Variable], simple: &Simple) -> Flags
    ensures { result ≡ simple_flags context.now scope.now variables.now simple.now }
{
    match simple {
        Simple::Assignment(variable, value) => {
            assignment_flags(context, scope, variables, variable, value)
        }
        Simple::Goto(_) | Simple::Continue | Simple::Return | Simple::Stop => no_flags(),
        Simple::Call(name, args) => {
            call_flags(context, scope, CallKind::Call, name, written(args))
        }
        Simple::Print(items) => any_item_flags(context, scope, items.as_slice()),
        Simple::Write(_, items) => any_item_flags(context, scope, items.as_slice()),
        Simple::Channel {
            inport,
            outport,
            ..
        } => two_ports_flags(context, scope, inport, outport),
        Simple::Merger(inport, outports) => merger_flags(
            context,
            scope,
            inport,
            outports.as_slice(),
        ),
        Simple::Send { port, items, .. } => send_flags(context, scope, port, items.as_slice()),
        Simple::Receive {
            port,
            extras,
            items,
            ..
        } => receive_flags(context, scope, port, extras.as_slice(), items.as_slice()),
        Simple::EndChannel { port, .. } => port_flags(context, scope, port),
        Simple::MovePort { from, to } => two_ports_flags(context, scope, from, to),
        Simple::Probe { port, empty, .. } => probe_flags(context, scope, port, empty),
    }
}

#[tactic(auto, unfolding(fm_rules::specs::TypeStatements::typed_flags))]
fn typed_flags(context: &Context, scope: &Scope, variables: &[Variable], stmt: &Stmt) -> Flags
    ensures { result ≡ typed_flags context.now scope.now variables.now stmt.now }
{
    match stmt {
        Stmt::Integer(names) => {
            any_declaration_flags(context, scope, Scalar::Integer, names.as_slice())
        }
        Stmt::Logical(names) => {
            any_declaration_flags(context, scope, Scalar::Logical, names.as_slice())
        }
        Stmt::Simple(simple) => simple_flags(context, scope, variables, simple),
        Stmt::LogicalIf(test, _) => logical_flags(context, scope, test),
        Stmt::BlockIf(test) => logical_flags(context, scope, test),
        Stmt::ElseIf(test) => logical_flags(context, scope, test),
        Stmt::Do(head) => loop_flags(context, scope, variables, head),
        Stmt::DoWhile(test) => logical_flags(context, scope, test),
        Stmt::ProcessCall(name, part) => process_call_flags(context, scope, name, part),
        Stmt::ProcessDo(head) => loop_flags(context, scope, variables, head),
        _ => no_flags(),
    }
}

#[tactic(auto, unfolding(fm_rules::specs::TypeStatements::is_barred_simple))]
fn is_barred_simple(simple: &Simple) -> bool
    ensures { result ≡ is_barred_simple simple.now }
{
    match simple {
        Simple::Assignment(_, _) => false,
        Simple::Goto(_) => false,
        Simple::Continue => false,
        Simple::Return => false,
        _ => true,
    }
}

#[tactic(auto, unfolding(fm_rules::specs::TypeStatements::is_barred))]
fn is_barred(stmt: &Stmt) -> bool
    ensures { result ≡ is_barred stmt.now }
{
    match stmt {
        Stmt::Inport(_, _) => true,
        Stmt::Outport(_, _) => true,
        Stmt::Simple(simple) => is_barred_simple(simple),
        Stmt::Processes => true,
        Stmt::EndProcesses => true,
        Stmt::ProcessCall(_, _) => true,
        Stmt::ProcessDo(_) => true,
        Stmt::EndProcessDo => true,
        _ => false,
    }
}

/// Which rules a statement breaks in the unit of a scope, which has these variables.
pub fn judge_statement(
    context: &Context,
    scope: &Scope,
    variables: &[Variable],
    stmt: &Stmt,
) -> Flags
    ensures { result ≡ flags_of context.now scope.now variables.now stmt.now }
{
    let barred = is_function(scope.kind) && is_barred(stmt);
    both(typed_flags(context, scope, variables, stmt), e46(barred))
}
