//! Calls of SUBROUTINEs and of PROCESSes.

ghost use Rattle.std.specs.Prelude.{◌≡◌, [], unwrap_or};
ghost use Rattle.std.specs.List.{slice_get};
ghost use Rattle.fm_rules.specs.TypeStatements.{call_flags, callee_at, callee_in, callee_of, calls, position_flags, process_call_flags};

use crate::parts::{any_integer_flags, integer_flags};
use fm_base::{Name, Seq};
use fm_rules::{CallKind, Flags, Referent};
use fm_symbols::{Context, Scope};
use fm_tree::{CallPart, Expr, UnitKind, Where};
use fm_types_expr::{both, judge_arguments, judge_reference, no_flags};

fn calls(kind: CallKind, unit: UnitKind) -> bool
    ensures { result ≡ calls kind unit }
{
    match kind {
        CallKind::Call => matches!(unit, UnitKind::Subroutine),
        CallKind::ProcessCall => matches!(unit, UnitKind::Process),
    }
}

fn callee_in(context: &Context, kind: CallKind, unit: u32) -> Referent
    ensures { result ≡ callee_in kind unit (slice_get context.now.scopes unit) }
{
    match context.scopes.as_slice().get(unit as usize) {
        None => Referent::Unknown,
        Some(scope) => {
            if calls(kind, scope.kind) {
                Referent::Unit(unit)
            } else {
                Referent::Unknown
            }
        }
    }
}

fn callee_at(context: &Context, kind: CallKind, unit: Option<u32>) -> Referent
    ensures { result ≡ callee_at context.now kind unit }
{
    match unit {
        None => Referent::Unknown,
        Some(unit) => callee_in(context, kind, unit),
    }
}

/// The SUBROUTINE or the PROCESS with a name.
pub fn callee_of(context: &Context, kind: CallKind, name: &Name) -> Referent
    ensures { result ≡ callee_of context.now kind name.now }
{
    callee_at(context, kind, context.units.get(name).copied())
}

pub(crate) fn call_flags(
    context: &Context,
    scope: &Scope,
    kind: CallKind,
    name: &Name,
    args: &[Expr],
) -> Flags
    ensures { result ≡ call_flags context.now scope.now kind name.now args.now }
{
    let callee = callee_of(context, kind, name);
    let arguments = judge_arguments(context, scope, callee, args);
    judge_reference(context, callee, arguments).flags
}

/// The arguments that are written; none where no parentheses are.
pub(crate) fn written(args: &Option<Seq<Expr>>) -> &[Expr]
    ensures { result.now ≡ unwrap_or args.now [] }
{
    match args {
        Some(args) => args.as_slice(),
        None => &[],
    }
}

fn position_flags(context: &Context, scope: &Scope, position: &Option<Where>) -> Flags
    ensures { result ≡ position_flags context.now scope.now position.now }
{
    match position {
        None => no_flags(),
        Some(Where::Location(values)) => any_integer_flags(context, scope, values.as_slice()),
        Some(Where::Submachine(first, last)) => both(
            integer_flags(context, scope, first),
            integer_flags(context, scope, last),
        ),
    }
}

pub(crate) fn process_call_flags(
    context: &Context,
    scope: &Scope,
    name: &Name,
    part: &Option<CallPart>,
) -> Flags
    ensures { result ≡ process_call_flags context.now scope.now name.now part.now }
{
    let kind = CallKind::ProcessCall;
    match part {
        None => call_flags(context, scope, kind, name, &[]),
        Some(part) => both(
            call_flags(context, scope, kind, name, part.arguments.as_slice()),
            position_flags(context, scope, &part.place),
        ),
    }
}
