//! The judgement of statements that make channels, send and receive.

ghost use Rattle.std.specs.Prelude.{◌≡◌};
ghost use Rattle.fm_rules.specs.TypeStatements.{merger_flags, probe_flags, receive_flags, send_flags, two_ports_flags};

use crate::parts::{any_expr_flags, any_extra_flags, any_port_flags, any_target_flags, port_flags};
use fm_rules::Flags;
use fm_symbols::{Context, Scalar, Scope};
use fm_tree::{Expr, Extra, Var};
use fm_types_expr::{both, judge_target, operand};

pub(crate) fn two_ports_flags(context: &Context, scope: &Scope, first: &Var, second: &Var) -> Flags
    ensures { result ≡ two_ports_flags context.now scope.now first.now second.now }
{
    both(
        port_flags(context, scope, first),
        port_flags(context, scope, second),
    )
}

pub(crate) fn merger_flags(
    context: &Context,
    scope: &Scope,
    inport: &Var,
    outports: &[Var],
) -> Flags
    ensures { result ≡ merger_flags context.now scope.now inport.now outports.now }
{
    both(
        port_flags(context, scope, inport),
        any_port_flags(context, scope, outports),
    )
}

pub(crate) fn send_flags(context: &Context, scope: &Scope, port: &Var, items: &[Expr]) -> Flags
    ensures { result ≡ send_flags context.now scope.now port.now items.now }
{
    both(
        port_flags(context, scope, port),
        any_expr_flags(context, scope, items),
    )
}

pub(crate) fn receive_flags(
    context: &Context,
    scope: &Scope,
    port: &Var,
    extras: &[Extra],
    items: &[Var],
) -> Flags
    ensures { result ≡ receive_flags context.now scope.now port.now extras.now items.now }
{
    let port = port_flags(context, scope, port);
    let extras = any_extra_flags(context, scope, extras);
    both(both(port, extras), any_target_flags(context, scope, items))
}

pub(crate) fn probe_flags(context: &Context, scope: &Scope, port: &Var, empty: &Var) -> Flags
    ensures { result ≡ probe_flags context.now scope.now port.now empty.now }
{
    let empty = judge_target(context, scope, empty);
    both(
        port_flags(context, scope, port),
        operand(Scalar::Logical, empty),
    )
}
