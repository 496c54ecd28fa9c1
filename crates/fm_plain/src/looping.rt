//! DO loops.

ghost use Rattle.std.specs.Prelude.{◌≡◌, pred, slice_get, IfOk, OnErr};
ghost use Rattle.std.specs.FinMap as finite;
ghost use Rattle.fm_mean.specs.Actions.{adds, end_by, end_of, ends_loop, loop_bounds, loop_end, loop_of, loop_trips, loops, scalar_place};
ghost use Rattle.fm_mean.specs.Names.{variable_of};
ghost use Rattle.fm_plain_frame.specs.Frames.{trips_left, trips_of};
ghost use Rattle.fm_plain_frame.specs.Units.{unit_of, variable_read};
ghost use Rattle.fm_plain_eval.specs.Outcomes.{IsDone};
ghost use Rattle.fm_plain.specs.Standing.{ActsOn, StandsIn, frame_in, loop_read, point_in, scope_in};

use crate::control::goes_to;
use crate::here::Here;
use crate::step::{Step, failed, fails};
use fm_base::{Name, NoMemory};
use fm_mean::Span;
use fm_plain_eval::{Failure, loop_bounds};
use fm_plain_frame::memory::number_at;
use fm_plain_frame::{Frame, Trips};
use fm_symbols::Variable;
use fm_tree::{Entry, LoopHead, Stmt};
use fm_values::{add, trips_behind};
use std::alloc::Global;

/// The place of a scalar variable.
pub(crate) fn scalar_place(variable: Option<(u32, &Variable)>) -> Span
    ensures { result ≡ scalar_place (variable_read variable.entry) }
{
    match variable {
        None => Span {
            variable: 0,
            first: 0,
            count: 1,
        },
        Some((place, variable)) => Span {
            variable: place,
            first: 0,
            count: variable.words,
        },
    }
}

// The loop begins with its first value; without trips it is left.
fn begin(
    here: &Here<'_>,
    top: &mut Frame,
    place: Span,
    bounds: (i64, i64, i64),
) -> Result<Step, NoMemory>
    requires { StandsIn here.now top.old }
    ensures acts { IfOk result (λ r. ActsOn here.now
        (λ w below. loops w (point_in here.now) (frame_in here.now top.old) below place (Ok bounds)) top.old r
        top.new) }
    ensures err { OnErr result (frame_in here.now top.new ≡ frame_in here.now top.old) }
{
    match trips_behind(bounds.0, bounds.1, bounds.2) {
        Err(fault) => Ok(fails(here.line(), fault)),
        Ok(behind) => {
            let next = if behind.is_some() {
                here.entry.after
            } else {
                here.links.other
            };
            let by = bounds.2;
            top.set_trips(top.entry, Trips { behind, by })?;
            here.put_number(top, place, bounds.0, next);
            Ok(Step::Made(1))
        }
    }
}

fn bounds(
    alloc: Global,
    here: &Here<'_>,
    top: &Frame,
    head: &LoopHead,
) -> Result<(i64, i64, i64), Failure>
    requires { StandsIn here.now top.now }
    ensures { IsDone (loop_bounds (scope_in here.now top.now) head.now) result }
{
    loop_bounds(alloc, &here.scope(top), head)
}

/// DO and PROCESSDO.
pub(crate) fn loops(
    alloc: Global,
    here: &Here<'_>,
    top: &mut Frame,
    head: &LoopHead,
) -> Result<Step, NoMemory>
    requires { StandsIn here.now top.old }
    ensures acts { IfOk result (λ r. ActsOn here.now (λ w below. loops w (point_in here.now) (frame_in here.now top.old)
        below (scalar_place (variable_of (unit_of here.now.unit) head.now.variable))
        (loop_bounds (scope_in here.now top.old) head.now)) top.old r top.new) }
    ensures err { OnErr result (frame_in here.now top.new ≡ frame_in here.now top.old) }
{
    let place = scalar_place(here.unit.variable(&head.variable));
    match bounds(alloc, here, top, head) {
        Err(failure) => failed(here.line(), failure),
        Ok(bounds) => begin(here, top, place, bounds),
    }
}

/// Which loop an opener opens.
pub(crate) enum Loop<'p> {
    /// A DO or PROCESSDO by this variable.
    Counted(&'p Name),
    /// A DOWHILE.
    While,
    /// None.
    NoLoop,
}

pub(crate) fn loop_of(stmt: &Stmt) -> Loop<'_>
    ensures { loop_read result ≡ loop_of stmt.now }
{
    match stmt {
        Stmt::Do(head) => Loop::Counted(&head.variable),
        Stmt::ProcessDo(head) => Loop::Counted(&head.variable),
        Stmt::DoWhile(_) => Loop::While,
        _ => Loop::NoLoop,
    }
}

// One trip less.
fn one_less(behind: Option<u64>) -> Option<u64>
    ensures { trips_left result ≡ pred (trips_left behind) }
{
    behind?.checked_sub(1)
}

// A loop end: its opener, and the first entry of the body.
#[derive(Clone, Copy)]
struct LoopEnd {
    opener: u32,
    body: u32,
}

// Adds to the variable, and goes back into the body while trips are left.
fn adds(
    here: &Here<'_>,
    top: &mut Frame,
    end: LoopEnd,
    place: Span,
    trips: Trips,
) -> Result<Step, NoMemory>
    requires { StandsIn here.now top.old }
    ensures acts { IfOk result (λ r. ActsOn here.now (λ w below. loop_trips w (point_in here.now)
        (frame_in here.now top.old) below end.opener end.body place (Some (trips_of trips))) top.old r top.new) }
    ensures err { OnErr result (frame_in here.now top.new ≡ frame_in here.now top.old) }
{
    let word = number_at(top.memory.as_slice(), here.unit.variables(), place);
    match add(word, trips.by) {
        Err(fault) => Ok(fails(here.line(), fault)),
        Ok(sum) => {
            let behind = one_less(trips.behind);
            let next = if behind.is_some() {
                end.body
            } else {
                here.entry.after
            };
            let by = trips.by;
            top.set_trips(end.opener, Trips { behind, by })?;
            here.put_number(top, place, sum, next);
            Ok(Step::Made(1))
        }
    }
}

fn loop_trips(here: &Here<'_>, top: &mut Frame, end: LoopEnd, place: Span) -> Result<Step, NoMemory>
    requires { StandsIn here.now top.old }
    ensures acts { IfOk result (λ r. ActsOn here.now (λ w below. loop_trips w (point_in here.now)
        (frame_in here.now top.old) below end.opener end.body place
        (finite.get (frame_in here.now top.old).loops end.opener)) top.old r top.new) }
    ensures err { OnErr result (frame_in here.now top.new ≡ frame_in here.now top.old) }
{
    match top.trips_at(end.opener) {
        None => Ok(goes_to(here, top, here.entry.after)),
        Some(trips) => adds(here, top, end, place, trips),
    }
}

fn ends_loop(
    here: &Here<'_>,
    top: &mut Frame,
    end: LoopEnd,
    opened: Loop<'_>,
) -> Result<Step, NoMemory>
    requires { StandsIn here.now top.old }
    ensures acts { IfOk result (λ r. ActsOn here.now (λ w below. ends_loop w (unit_of here.now.unit) (point_in here.now)
        (frame_in here.now top.old) below end.opener end.body (loop_read opened.entry)) top.old r top.new) }
    ensures err { OnErr result (frame_in here.now top.new ≡ frame_in here.now top.old) }
{
    match opened {
        Loop::Counted(name) => {
            let place = scalar_place(here.unit.variable(name));
            loop_trips(here, top, end, place)
        }
        Loop::While => Ok(goes_to(here, top, end.opener)),
        Loop::NoLoop => Ok(Step::Rest),
    }
}

/// The end of a loop ends a trip of it, or goes back to the test of a DOWHILE.
pub(crate) fn loop_end(here: &Here<'_>, top: &mut Frame) -> Result<Step, NoMemory>
    requires { StandsIn here.now top.old }
    ensures acts { IfOk result (λ r. ActsOn here.now
        (λ w below. loop_end w (unit_of here.now.unit) (point_in here.now) (frame_in here.now top.old) below) top.old r
        top.new) }
    ensures err { OnErr result (frame_in here.now top.new ≡ frame_in here.now top.old) }
{
    let Some(opener) = here.entry.mate else {
        return Ok(Step::Rest);
    };
    match here.unit.tree().body.as_slice().get(opener as usize) {
        None => Ok(Step::Rest),
        Some(entry) => {
            let body = entry.after;
            ends_loop(here, top, LoopEnd { opener, body }, loop_of(&entry.stmt))
        }
    }
}
