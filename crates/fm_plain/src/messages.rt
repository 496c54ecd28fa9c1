//! Events on channels: SEND, RECEIVE, PROBE, CHANNEL and MERGER, with their operands evaluated.

ghost use Rattle.std.specs.Prelude.{◌≡◌, ◌++◌, ◌∷◌, [], Ok, Some, List, IfOk, OnOk, length};
ghost use Rattle.std.specs.Option.{option_copied};
ghost use Rattle.fm_tree.specs.PortReading.{fields_of};
ghost use Rattle.fm_tree.specs.Tree.{trees_from};
ghost use Rattle.fm_mean.specs.Actions.{channel_places, elements_from, elements_of, fields_at, iostat_of, makes, merger_places, merges, probes, probes_at, receive_places, receives, receives_at, sends, sent, two_places};
ghost use Rattle.fm_mean.specs.Evaluate.{actuals_of, place_of, refs_in_var};
ghost use Rattle.fm_plain_frame.specs.Units.{unit_of};
ghost use Rattle.fm_plain_eval.specs.Outcomes.{IsDone};
ghost use Rattle.fm_plain_eval.specs.Scopes.{scope_of};
ghost use Rattle.fm_plain.specs.Operands.{port_and_items};
ghost use Rattle.fm_plain.specs.Standing.{ActsOn, StandsIn, frame_in, point_in, scope_in};

use crate::cutting::{cut_items, fields_at};
use crate::event::Event;
use crate::here::Here;
use crate::ports::two_places;
use crate::step::{Step, failed, fails};
use fm_base::{Fault, NoMemory, PortValue, Seq};
use fm_mean::{Actual, Span};
use fm_plain_eval::{Failure, Scope, actuals, place, places};
use fm_plain_frame::Frame;
use fm_tree::{Expr, Extra, Field, Var};
use std::alloc::Global;

fn send_operands(
    alloc: Global,
    here: &Here<'_>,
    top: &Frame,
    port: &Var,
    items: &[Expr],
) -> Result<(Span, Seq<Actual>), Failure>
    requires { StandsIn here.now top.now }
    ensures { IsDone (port_and_items (scope_in here.now top.now) port.now items.now) result }
{
    let scope = here.scope(top);
    let (place, next) = place(alloc, &scope, port, 0)?;
    let (items, _) = actuals(alloc, &scope, items, next)?;
    Ok((place, items))
}

fn sent(
    alloc: Global,
    here: &Here<'_>,
    top: &Frame,
    fields: &[Field],
    port: Option<&PortValue>,
    items: Seq<Actual>,
) -> Result<Step, NoMemory>
    ensures { IfOk result (λ r. ActsOn here.now
        (λ w below. sent (point_in here.now) (fields_of fields.now) (option_copied port.entry) items) top.now r
        top.now) }
{
    let _frame = top;
    match port {
        Some(PortValue::Writer(channel, writer)) => match cut_items(alloc, fields, items) {
            Err(failure) => failed(here.line(), failure),
            Ok(items) => Ok(Step::Event(Event::Send {
                channel: channel.copy(alloc)?,
                writer: *writer,
                items,
                next: here.entry.after,
            })),
        },
        Some(PortValue::Reader(_)) => Ok(fails(here.line(), Fault::NullPort)),
        None => Ok(fails(here.line(), Fault::NullPort)),
    }
}

/// SEND. The port is looked at when all items are evaluated, and then the sizes of items.
pub(crate) fn sends(
    alloc: Global,
    here: &Here<'_>,
    top: &Frame,
    port: &Var,
    items: &[Expr],
) -> Result<Step, NoMemory>
    requires { StandsIn here.now top.now }
    ensures { IfOk result (λ r. ActsOn here.now (λ w below. sends (point_in here.now)
        (fields_at (unit_of here.now.unit) port.now) (frame_in here.now top.now)
        (place_of (scope_in here.now top.now) port.now 0) (actuals_of (scope_in here.now top.now) (trees_from items.now)
        (refs_in_var (scope_in here.now top.now) port.now))) top.now r top.now) }
{
    match send_operands(alloc, here, top, port, items) {
        Err(failure) => failed(here.line(), failure),
        Ok((place, items)) => {
            let fields = fields_at(here, port);
            sent(alloc, here, top, fields, here.port(top, place), items)
        }
    }
}

// The place of IOSTAT, and the number of references up to it.
fn iostat(
    alloc: Global,
    scope: &Scope<'_>,
    extras: &[Extra],
    next: usize,
) -> Result<(Option<Span>, usize), Failure>
    ensures { IsDone (iostat_of (scope_of scope.now) extras.now next) result }
{
    match extras.split_first() {
        None => Ok((None, next)),
        Some((Extra::End(_), rest)) => iostat(alloc, scope, rest, next),
        Some((Extra::Iostat(variable), rest)) => {
            let (place, next) = place(alloc, scope, variable, next)?;
            let (_, next) = iostat(alloc, scope, rest, next)?;
            Ok((Some(place), next))
        }
    }
}

fn receive_places(
    alloc: Global,
    here: &Here<'_>,
    top: &Frame,
    port: &Var,
    extras: &[Extra],
    items: &[Var],
) -> Result<(Span, Option<Span>, Seq<Span>), Failure>
    requires { StandsIn here.now top.now }
    ensures { IsDone (receive_places (scope_in here.now top.now) port.now extras.now items.now) result }
{
    let scope = here.scope(top);
    let (port, next) = place(alloc, &scope, port, 0)?;
    let (iostat, next) = iostat(alloc, &scope, extras, next)?;
    let (items, _) = places(alloc, &scope, items, next)?;
    Ok((port, iostat, items))
}

fn received(
    alloc: Global,
    here: &Here<'_>,
    port: Option<&PortValue>,
    receiving: (Span, Option<Span>, Seq<Span>),
) -> Result<Step, NoMemory>
    ensures { IfOk result (λ r. (f : Frame)
        → ActsOn here.now (λ w below. receives_at (point_in here.now) receiving (option_copied port.entry)) f r f) }
{
    match port {
        Some(PortValue::Reader(channel)) => Ok(Step::Event(Event::Receive {
            channel: channel.copy(alloc)?,
            line: here.line(),
            items: receiving.2,
            iostat: receiving.1,
            at_end: here.links.jump,
            next: here.entry.after,
        })),
        Some(PortValue::Writer(_, _)) => Ok(fails(here.line(), Fault::NullPort)),
        None => Ok(fails(here.line(), Fault::NullPort)),
    }
}

/// RECEIVE.
pub(crate) fn receives(
    alloc: Global,
    here: &Here<'_>,
    top: &Frame,
    port: &Var,
    extras: &[Extra],
    items: &[Var],
) -> Result<Step, NoMemory>
    requires { StandsIn here.now top.now }
    ensures { IfOk result (λ r. ActsOn here.now (λ w below. receives (point_in here.now) (frame_in here.now top.now)
        (receive_places (scope_in here.now top.now) port.now extras.now items.now)) top.now r top.now) }
{
    match receive_places(alloc, here, top, port, extras, items) {
        Err(failure) => failed(here.line(), failure),
        Ok(receiving) => {
            let port = here.port(top, receiving.0);
            received(alloc, here, port, receiving)
        }
    }
}

fn probed(
    alloc: Global,
    here: &Here<'_>,
    port: Option<&PortValue>,
    empty: Span,
) -> Result<Step, NoMemory>
    ensures { IfOk result (λ r. (f : Frame)
        → ActsOn here.now (λ w below. probes_at (point_in here.now) empty (option_copied port.entry)) f r f) }
{
    match port {
        Some(PortValue::Reader(channel)) => Ok(Step::Event(Event::Probe {
            channel: channel.copy(alloc)?,
            empty,
            next: here.entry.after,
        })),
        Some(PortValue::Writer(_, _)) => Ok(fails(here.line(), Fault::NullPort)),
        None => Ok(fails(here.line(), Fault::NullPort)),
    }
}

/// PROBE.
pub(crate) fn probes(
    alloc: Global,
    here: &Here<'_>,
    top: &Frame,
    port: &Var,
    empty: &Var,
) -> Result<Step, NoMemory>
    requires { StandsIn here.now top.now }
    ensures { IfOk result (λ r. ActsOn here.now (λ w below. probes (point_in here.now) (frame_in here.now top.now)
        (two_places (scope_in here.now top.now) port.now empty.now)) top.now r top.now) }
{
    match two_places(alloc, here, top, port, empty) {
        Err(failure) => failed(here.line(), failure),
        Ok((place, empty)) => { probed(alloc, here, here.port(top, place), empty) }
    }
}

// In order of text.
fn channel_places(
    alloc: Global,
    here: &Here<'_>,
    top: &Frame,
    in_first: bool,
    inport: &Var,
    outport: &Var,
) -> Result<(Span, Span), Failure>
    requires { StandsIn here.now top.now }
    ensures { IsDone (channel_places (scope_in here.now top.now) in_first inport.now outport.now) result }
{
    if in_first {
        two_places(alloc, here, top, inport, outport)
    } else {
        let (outport, inport) = two_places(alloc, here, top, outport, inport)?;
        Ok((inport, outport))
    }
}

/// CHANNEL.
pub(crate) fn makes(
    alloc: Global,
    here: &Here<'_>,
    top: &Frame,
    in_first: bool,
    inport: &Var,
    outport: &Var,
) -> Result<Step, NoMemory>
    requires { StandsIn here.now top.now }
    ensures { IfOk result (λ r. ActsOn here.now (λ w below. makes (point_in here.now)
        (channel_places (scope_in here.now top.now) in_first inport.now outport.now)) top.now r top.now) }
{
    match channel_places(alloc, here, top, in_first, inport, outport) {
        Err(failure) => failed(here.line(), failure),
        Ok((inport, outport)) => {
            let mut places = Seq::new(alloc);
            places.push(inport)?;
            places.push(outport)?;
            Ok(Step::Event(Event::Make {
                places,
                writers: 1,
                cost: 1,
                next: here.entry.after,
            }))
        }
    }
}

fn push_elements(places: &mut Seq<Span>, span: Span) -> Result<(), NoMemory>
    ensures { OnOk result (places.new ≡ places.old ++ elements_from span.variable span.first span.count) }
{
    'elements: for element in 0..span.count {
        let first = span.first.checked_add(element as usize).ok_or(NoMemory)?;
        places.push(Span {
            variable: span.variable,
            first,
            count: 1,
        })?;
    }
    Ok(())
}

fn push_all_elements(places: &mut Seq<Span>, spans: &[Span]) -> Result<(), NoMemory>
    ensures { OnOk result (places.new ≡ places.old ++ elements_of spans.now) }
{
    'spans: for span in spans {
        push_elements(places, *span)?;
    }
    Ok(())
}

fn merged(alloc: Global, here: &Here<'_>, inport: Span, outports: &[Span]) -> Result<Step, NoMemory>
    ensures { IfOk result
        (λ r. (f : Frame) → ActsOn here.now (λ w below. merges (point_in here.now) (Ok (inport, outports.now))) f r f) }
{
    let mut places = Seq::new(alloc);
    places.push(inport)?;
    push_all_elements(&mut places, outports)?;
    let writers = places.len().checked_sub(1).ok_or(NoMemory)?;
    let writers = u32::try_from(writers).map_err(|_| NoMemory)?;
    Ok(Step::Event(Event::Make {
        places,
        writers,
        cost: writers as u64 + 1,
        next: here.entry.after,
    }))
}

fn merger_places(
    alloc: Global,
    here: &Here<'_>,
    top: &Frame,
    inport: &Var,
    outports: &[Var],
) -> Result<(Span, Seq<Span>), Failure>
    requires { StandsIn here.now top.now }
    ensures { IsDone (merger_places (scope_in here.now top.now) inport.now outports.now) result }
{
    let scope = here.scope(top);
    let (inport, next) = place(alloc, &scope, inport, 0)?;
    let (outports, _) = places(alloc, &scope, outports, next)?;
    Ok((inport, outports))
}

/// MERGER. It costs its writers besides.
pub(crate) fn merges(
    alloc: Global,
    here: &Here<'_>,
    top: &Frame,
    inport: &Var,
    outports: &[Var],
) -> Result<Step, NoMemory>
    requires { StandsIn here.now top.now }
    ensures { IfOk result (λ r. ActsOn here.now
        (λ w below. merges (point_in here.now) (merger_places (scope_in here.now top.now) inport.now outports.now))
        top.now r top.now) }
{
    match merger_places(alloc, here, top, inport, outports) {
        Err(failure) => failed(here.line(), failure),
        Ok((inport, outports)) => merged(alloc, here, inport, outports.as_slice()),
    }
}
