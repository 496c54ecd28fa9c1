//! How the frame of a unit that is called gets its arguments.

ghost use Rattle.std.specs.Prelude.{◌≡◌, ◌+◌, ◌<◌, ◌≤◌, ◌^◌, IfOk, OnOk, OnErr, length, vec_len, vec_capacity};
ghost use Rattle.fm_mean.specs.Calls.{entered, entered_one, entered_all};
ghost use Rattle.fm_mean.specs.Layout.{AreLaidOut};
ghost use Rattle.fm_mean.specs.Places.{live};
ghost use Rattle.fm_plain_frame.specs.Memory.{values_of};
ghost use Rattle.fm_plain_frame.specs.Units.{unit_of};
ghost use Rattle.fm_plain_passing.specs.Between.{between, passed};
ghost use Rattle.fm_plain_passing.specs.Rooms.{all_taken, taken_by};

use crate::moving::exchange_behind;
use crate::room::{Room, fits, make_room, put};
use fm_base::{NoMemory, PortValue};
use fm_mean::{Actual, Span};
use fm_plain_frame::memory::{exchange, unset, write};
use fm_plain_frame::{UnitView, Word, formal_place};
use fm_symbols::Variable;
use std::alloc::Global;

/// The memory of a frame that opens, and the ports that were put out of it on the way.
#[derive(Drop)]
pub struct Entered {
    /// The memory.
    pub memory: Vec<Word>,
    /// The ports, and NULLs.
    pub replaced: Vec<Option<PortValue>>,
}

pub(crate) fn taken_by(argument: &Actual) -> usize
    ensures { result ≡ taken_by argument.now }
{
    match argument {
        Actual::Given(_, _) => 0,
        Actual::Taken(span) => span.count as usize,
    }
}

/// How many ports are taken for these.
pub(crate) fn all_taken(arguments: &[Actual]) -> Result<usize, NoMemory>
    ensures { IfOk result (λ n. n ≡ all_taken arguments.now) }
{
    let mut ports: usize = 0;
    'arguments: for argument in arguments {
        ports = ports.checked_add(taken_by(argument)).ok_or(NoMemory)?;
    }
    Ok(ports)
}

/// Leaves the ports of a span to a formal. What was there goes into the room.
fn pass(
    room: &mut Room,
    caller: &[Variable],
    mine: &mut [Word],
    span: Span,
    callee: &[Variable],
    theirs: &mut [Word],
    formal: u32,
)
    requires caller { AreLaidOut 0 caller.now }
    requires callee { AreLaidOut 0 callee.now }
    requires room { vec_len room.old + span.count ≤ vec_capacity room.old }
    ensures frames { between caller.now mine.new callee.now theirs.new room.new.items
        ≡ passed span formal (between caller.now mine.old callee.now theirs.old room.old.items) }
    ensures len { vec_len room.new ≡ vec_len room.old + span.count }
    ensures capacity { vec_capacity room.old ≤ vec_capacity room.new }
{
    'elements: for index in 0..span.count as usize {
        let port = exchange_behind(mine, caller, span.variable, span.first, index, None);
        let replaced = exchange(theirs, callee, formal, index, port);
        put(room, replaced);
    }
}

/// Gives the formal with this number what the argument is.
fn enter_one(
    room: &mut Room,
    caller: &[Variable],
    mine: &mut [Word],
    callee: &UnitView,
    theirs: &mut [Word],
    number: u32,
    argument: &Actual,
)
    requires caller { AreLaidOut 0 caller.now }
    requires fits { length (unit_of callee.now).names.variables < 2 ^ 32 }
    requires room { vec_len room.old + taken_by argument.now ≤ vec_capacity room.old }
    ensures frames { between caller.now mine.new (unit_of callee.now).names.variables theirs.new room.new.items
        ≡ entered_one (unit_of callee.now) number argument.now
        (between caller.now mine.old (unit_of callee.now).names.variables theirs.old room.old.items) }
    ensures len { vec_len room.new ≡ vec_len room.old + taken_by argument.now }
    ensures capacity { vec_capacity room.old ≤ vec_capacity room.new }
{
    let variables = callee.variables();
    let formal = formal_place(variables, number) as u32;
    match argument {
        Actual::Given(words, _) => {
            let span = Span {
                variable: formal,
                first: 0,
                count: 0,
            };
            write(theirs, variables, span, words.as_slice());
        }
        Actual::Taken(span) => pass(room, caller, mine, *span, variables, theirs, formal),
    }
}

fn enter_all(
    room: &mut Room,
    caller: &[Variable],
    mine: &mut [Word],
    callee: &UnitView,
    theirs: &mut [Word],
    arguments: &[Actual],
)
    requires caller { AreLaidOut 0 caller.now }
    requires fits { length (unit_of callee.now).names.variables < 2 ^ 32 }
    requires arguments_fit { length arguments.now < 2 ^ 32 }
    requires room { vec_len room.old + all_taken arguments.now ≤ vec_capacity room.old }
    ensures { between caller.now mine.new (unit_of callee.now).names.variables theirs.new room.new.items
        ≡ entered_all (unit_of callee.now) 1 arguments.now
        (between caller.now mine.old (unit_of callee.now).names.variables theirs.old room.old.items) }
{
    'arguments: for (index, argument) in arguments.iter().enumerate() {
        enter_one(
            room,
            caller,
            mine,
            callee,
            theirs,
            index as u32 + 1,
            argument,
        );
    }
}

/// Opens the frame of a unit that is called: its formals get the arguments, from left to right, and what the caller
/// passes on of ports leaves NULL behind. The only error is want of memory; the caller's memory is then as it was.
pub fn enter(
    alloc: Global,
    callee: &UnitView,
    caller: &[Variable],
    memory: &mut [Word],
    arguments: &[Actual],
) -> Result<Entered, NoMemory>
    requires { AreLaidOut 0 caller.now }
    ensures mine { OnOk result (values_of caller.now memory.new
        ≡ (entered (unit_of callee.now) (values_of caller.now memory.old) arguments.now).mine) }
    ensures theirs { IfOk result (λ e. values_of (unit_of callee.now).names.variables e.memory.items
        ≡ (entered (unit_of callee.now) (values_of caller.now memory.old) arguments.now).theirs) }
    ensures drops { IfOk result (λ e. live e.replaced.items
        ≡ (entered (unit_of callee.now) (values_of caller.now memory.old) arguments.now).drops) }
    ensures err { OnErr result (values_of caller.now memory.new ≡ values_of caller.now memory.old) }
{
    let variables = callee.variables();
    fits(variables.len())?;
    fits(arguments.len())?;
    let mut replaced = make_room(alloc, all_taken(arguments)?)?;
    let mut theirs = unset(alloc, variables)?;
    enter_all(
        &mut replaced,
        caller,
        memory,
        callee,
        theirs.as_mut_slice(),
        arguments,
    );
    Ok(Entered {
        memory: theirs,
        replaced,
    })
}
