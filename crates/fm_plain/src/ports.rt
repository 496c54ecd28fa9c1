//! ENDCHANNEL and MOVEPORT.

ghost use Rattle.std.specs.Prelude.{◌≡◌, ◌∷◌, [], Ok, None, IfOk, OnErr};
ghost use Rattle.fm_mean.specs.Actions.{closes, moves, two_places};
ghost use Rattle.fm_mean.specs.Evaluate.{place_of};
ghost use Rattle.fm_plain_eval.specs.Outcomes.{IsDone};
ghost use Rattle.fm_plain.specs.Standing.{ActsOn, StandsIn, frame_in, point_in, scope_in};

use crate::here::{Here, go_to};
use crate::step::{Step, failed, fails, lets_go};
use fm_base::{Fault, NoMemory, PortValue};
use fm_mean::Span;
use fm_plain_eval::{Failure, place};
use fm_plain_frame::{Frame, LetGo};
use fm_tree::Var;
use std::alloc::Global;

fn place_of(alloc: Global, here: &Here<'_>, top: &Frame, variable: &Var) -> Result<Span, Failure>
    requires { StandsIn here.now top.now }
    ensures { IsDone (place_of (scope_in here.now top.now) variable.now 0) result }
{
    let (place, _) = place(alloc, &here.scope(top), variable, 0)?;
    Ok(place)
}

/// The places of two variables, from left to right.
pub(crate) fn two_places(
    alloc: Global,
    here: &Here<'_>,
    top: &Frame,
    first: &Var,
    second: &Var,
) -> Result<(Span, Span), Failure>
    requires { StandsIn here.now top.now }
    ensures { IsDone (two_places (scope_in here.now top.now) first.now second.now) result }
{
    let scope = here.scope(top);
    let (one, next) = place(alloc, &scope, first, 0)?;
    let (other, _) = place(alloc, &scope, second, next)?;
    Ok((one, other))
}

// A place for a port that is let go.
fn room(alloc: Global) -> Result<Vec<Option<PortValue>>, NoMemory>
    ensures { IfOk result (λ v. v.items ≡ None ∷ []) }
{
    let mut room = Vec::new(alloc);
    room.push(None)?;
    Ok(room)
}

// A port is put into its place. Takes no memory.
fn fill(room: &mut Vec<Option<PortValue>>, port: Option<PortValue>)
    requires { room.old.items ≡ None ∷ [] }
    ensures { room.new.items ≡ port ∷ [] }
{
    room[0] = port;
}

fn closed(alloc: Global, here: &Here<'_>, top: &mut Frame, place: Span) -> Result<Step, NoMemory>
    requires { StandsIn here.now top.old }
    ensures acts { IfOk result (λ r. ActsOn here.now
        (λ w below. closes w (point_in here.now) (frame_in here.now top.old) below (Ok place)) top.old r top.new) }
    ensures err { OnErr result (frame_in here.now top.new ≡ frame_in here.now top.old) }
{
    if here.port(top, place).is_none() {
        return Ok(fails(here.line(), Fault::NullPort));
    }
    let mut replaced = room(alloc)?;
    fill(&mut replaced, here.exchange(top, place, None));
    go_to(top, here.entry.after);
    let ports = LetGo::of_replaced(alloc, replaced);
    Ok(lets_go(here, ports, 1))
}

/// ENDCHANNEL.
pub(crate) fn closes(
    alloc: Global,
    here: &Here<'_>,
    top: &mut Frame,
    port: &Var,
) -> Result<Step, NoMemory>
    requires { StandsIn here.now top.old }
    ensures acts { IfOk result (λ r. ActsOn here.now (λ w below. closes w (point_in here.now)
        (frame_in here.now top.old) below (place_of (scope_in here.now top.old) port.now 0)) top.old r top.new) }
    ensures err { OnErr result (frame_in here.now top.new ≡ frame_in here.now top.old) }
{
    match place_of(alloc, here, top, port) {
        Err(failure) => failed(here.line(), failure),
        Ok(place) => closed(alloc, here, top, place),
    }
}

fn moved(
    alloc: Global,
    here: &Here<'_>,
    top: &mut Frame,
    from: Span,
    to: Span,
) -> Result<Step, NoMemory>
    requires { StandsIn here.now top.old }
    ensures acts { IfOk result (λ r. ActsOn here.now
        (λ w below. moves w (point_in here.now) (frame_in here.now top.old) below (Ok (from, to))) top.old r top.new) }
    ensures err { OnErr result (frame_in here.now top.new ≡ frame_in here.now top.old) }
{
    let mut replaced = room(alloc)?;
    let port = here.exchange(top, from, None);
    fill(&mut replaced, here.exchange(top, to, port));
    go_to(top, here.entry.after);
    let ports = LetGo::of_replaced(alloc, replaced);
    Ok(lets_go(here, ports, 1))
}

/// MOVEPORT.
pub(crate) fn moves(
    alloc: Global,
    here: &Here<'_>,
    top: &mut Frame,
    from: &Var,
    to: &Var,
) -> Result<Step, NoMemory>
    requires { StandsIn here.now top.old }
    ensures acts { IfOk result (λ r. ActsOn here.now (λ w below. moves w (point_in here.now) (frame_in here.now top.old)
        below (two_places (scope_in here.now top.old) from.now to.now)) top.old r top.new) }
    ensures err { OnErr result (frame_in here.now top.new ≡ frame_in here.now top.old) }
{
    match two_places(alloc, here, top, from, to) {
        Err(failure) => failed(here.line(), failure),
        Ok((from, to)) => moved(alloc, here, top, from, to),
    }
}
