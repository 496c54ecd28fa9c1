//! Copying back: what a unit that was called gives back to its caller.

ghost use Rattle.std.specs.Prelude.{◌≡◌, ◌+◌, ◌<◌, ◌≤◌, None, [], ◌∷◌, IfOk, OnOk, OnErr, replicate, slice_get, take, vec_len, vec_capacity};
ghost use Rattle.fm_mean.specs.Layout.{AreLaidOut};
ghost use Rattle.fm_mean.specs.Places.{all_back, items_at, live, one_back, port_back, ports_back, words_in, written, written_from};
ghost use Rattle.fm_plain_frame.specs.Memory.{values_of};
ghost use Rattle.fm_plain_passing.specs.Between.{between};
ghost use Rattle.fm_plain_passing.specs.Rooms.{all_given, given_by, is_of_ports};

use crate::moving::{exchange_behind, ports_at};
use crate::room::{Room, nulls, put};
use fm_base::{NoMemory, PortValue};
use fm_mean::{Back, Span};
use fm_plain_frame::Word;
use fm_plain_frame::memory::{exchange, number_at, put_number, variable_len};
use fm_symbols::Variable;
use fm_tree::Kind;
use std::alloc::Global;

fn is_of_ports(variables: &[Variable], place: u32) -> bool
    ensures { result ≡ is_of_ports (slice_get variables.now place) }
{
    match variables.get(place as usize) {
        None => false,
        Some(variable) => match &variable.kind {
            Kind::Integer => false,
            Kind::Logical => false,
            Kind::In(_) => true,
            Kind::Out(_) => true,
        },
    }
}

fn given_by(callee: &[Variable], back: &Back) -> usize
    ensures { result ≡ given_by callee.now back.now }
{
    match callee.get(back.formal as usize) {
        None => 0,
        Some(variable) => ports_at(&variable.kind, back.place.count) as usize,
    }
}

fn all_given(callee: &[Variable], backs: &[Back]) -> Result<usize, NoMemory>
    ensures { IfOk result (λ n. n ≡ all_given callee.now backs.now) }
{
    let mut ports: usize = 0;
    'backs: for back in backs {
        ports = ports.checked_add(given_by(callee, back)).ok_or(NoMemory)?;
    }
    Ok(ports)
}

/// Copies the words of a formal back.
fn words_back(
    caller: &[Variable],
    mine: &mut [Word],
    callee: &[Variable],
    theirs: &[Word],
    back: &Back,
)
    requires { AreLaidOut 0 caller.now }
    ensures { values_of caller.now mine.new
        ≡ written (values_of caller.now mine.old) back.now.place
        (take back.now.place.count (words_in (items_at (values_of callee.now theirs.now) back.now.formal))) }
{
    let words = variable_len(theirs, callee, back.formal).min(back.place.count as usize);
    'words: for index in 0..words {
        let from = Span {
            variable: back.formal,
            first: index,
            count: 1,
        };
        let number = number_at(theirs, callee, from);
        put_behind(caller, mine, back.place, index, number);
    }
}

/// Puts a word so many elements behind the first one of a span, if there is such an element.
fn put_behind(variables: &[Variable], memory: &mut [Word], span: Span, behind: usize, number: i64)
    requires { AreLaidOut 0 variables.now }
    ensures { values_of variables.now memory.new
        ≡ written_from (values_of variables.now memory.old) span.variable (span.first + behind) (number ∷ []) }
{
    let words = memory.len();
    if span.first < words && behind < words - span.first {
        let to = Span {
            variable: span.variable,
            first: span.first + behind,
            count: 1,
        };
        put_number(memory, variables, to, number);
    }
}

/// Gives the port at an element of a formal back, unless it is NULL.
fn port_back(
    room: &mut Room,
    caller: &[Variable],
    mine: &mut [Word],
    callee: &[Variable],
    theirs: &mut [Word],
    back: &Back,
    index: usize,
)
    requires caller { AreLaidOut 0 caller.now }
    requires callee { AreLaidOut 0 callee.now }
    requires room { vec_len room.old < vec_capacity room.old }
    ensures frames { between caller.now mine.new callee.now theirs.new room.new.items
        ≡ port_back (between caller.now mine.old callee.now theirs.old room.old.items) back.now.formal index
        back.now.place.variable (back.now.place.first + index) }
    ensures len { vec_len room.new ≤ vec_len room.old + 1 }
    ensures capacity { vec_capacity room.old ≤ vec_capacity room.new }
{
    let place = back.place;
    match exchange(theirs, callee, back.formal, index, None) {
        None => {}
        Some(port) => {
            let replaced = exchange_behind(
                mine,
                caller,
                place.variable,
                place.first,
                index,
                Some(port),
            );
            put(room, replaced);
        }
    }
}

/// Gives the ports of a formal back.
fn ports_back(
    room: &mut Room,
    caller: &[Variable],
    mine: &mut [Word],
    callee: &[Variable],
    theirs: &mut [Word],
    back: &Back,
)
    requires caller { AreLaidOut 0 caller.now }
    requires callee { AreLaidOut 0 callee.now }
    requires room { vec_len room.old + back.now.place.count ≤ vec_capacity room.old }
    ensures frames { between caller.now mine.new callee.now theirs.new room.new.items
        ≡ ports_back (between caller.now mine.old callee.now theirs.old room.old.items) back.now.formal 0
        back.now.place.variable back.now.place.first back.now.place.count }
    ensures len { vec_len room.new ≤ vec_len room.old + back.now.place.count }
    ensures capacity { vec_capacity room.old ≤ vec_capacity room.new }
{
    'elements: for index in 0..back.place.count as usize {
        port_back(room, caller, mine, callee, theirs, back, index);
    }
}

fn one_back(
    room: &mut Room,
    caller: &[Variable],
    mine: &mut [Word],
    callee: &[Variable],
    theirs: &mut [Word],
    back: &Back,
)
    requires caller { AreLaidOut 0 caller.now }
    requires callee { AreLaidOut 0 callee.now }
    requires room { vec_len room.old + given_by callee.now back.now ≤ vec_capacity room.old }
    ensures frames { between caller.now mine.new callee.now theirs.new room.new.items
        ≡ one_back (between caller.now mine.old callee.now theirs.old room.old.items) back.now
        (items_at (values_of callee.now theirs.old) back.now.formal) }
    ensures len { vec_len room.new ≤ vec_len room.old + given_by callee.now back.now }
    ensures capacity { vec_capacity room.old ≤ vec_capacity room.new }
{
    if is_of_ports(callee, back.formal) {
        ports_back(room, caller, mine, callee, theirs, back);
    } else {
        words_back(caller, mine, callee, theirs, back);
    }
}

fn each_back(
    room: &mut Room,
    caller: &[Variable],
    mine: &mut [Word],
    callee: &[Variable],
    theirs: &mut [Word],
    backs: &[Back],
)
    requires caller { AreLaidOut 0 caller.now }
    requires callee { AreLaidOut 0 callee.now }
    requires room { vec_len room.old + all_given callee.now backs.now ≤ vec_capacity room.old }
    ensures { between caller.now mine.new callee.now theirs.new room.new.items
        ≡ all_back (between caller.now mine.old callee.now theirs.old room.old.items) backs.now }
{
    'backs: for back in backs {
        one_back(room, caller, mine, callee, theirs, back);
    }
}

/// The room that copying back wants: a NULL for each port that may be put out of its place. The only error is want of
/// memory.
pub fn back_room(
    alloc: Global,
    callee: &[Variable],
    backs: &[Back],
) -> Result<Vec<Option<PortValue>>, NoMemory>
    ensures { IfOk result (λ v. v.items ≡ replicate (all_given callee.now backs.now) None) }
{
    nulls(alloc, all_given(callee, backs)?)
}

/// Copies back what the callee's formals have, in the order of the arguments. What was put out of its place is in the
/// room then. Takes no memory.
pub fn give_back_into(
    room: &mut Vec<Option<PortValue>>,
    caller: &[Variable],
    mine: &mut [Word],
    callee: &[Variable],
    theirs: &mut [Word],
    backs: &[Back],
)
    requires room { room.old.items ≡ replicate (all_given callee.now backs.now) None }
    requires caller { AreLaidOut 0 caller.now }
    requires callee { AreLaidOut 0 callee.now }
    ensures mine { values_of caller.now mine.new
        ≡ (all_back
        (record { mine = values_of caller.now mine.old; theirs = values_of callee.now theirs.old; drops = [] })
        backs.now).mine }
    ensures theirs { values_of callee.now theirs.new
        ≡ (all_back
        (record { mine = values_of caller.now mine.old; theirs = values_of callee.now theirs.old; drops = [] })
        backs.now).theirs }
    ensures drops { live room.new.items
        ≡ (all_back
        (record { mine = values_of caller.now mine.old; theirs = values_of callee.now theirs.old; drops = [] })
        backs.now).drops }
{
    room.clear();
    each_back(room, caller, mine, callee, theirs, backs);
}

/// Copies back what the callee's formals have, in the order of the arguments, and answers what was put out of its
/// place. The only error is want of memory; both frames are then as they were.
pub fn give_back(
    alloc: Global,
    caller: &[Variable],
    mine: &mut [Word],
    callee: &[Variable],
    theirs: &mut [Word],
    backs: &[Back],
) -> Result<Vec<Option<PortValue>>, NoMemory>
    requires caller { AreLaidOut 0 caller.now }
    requires callee { AreLaidOut 0 callee.now }
    ensures mine { OnOk result (values_of caller.now mine.new
        ≡ (all_back
        (record { mine = values_of caller.now mine.old; theirs = values_of callee.now theirs.old; drops = [] })
        backs.now).mine) }
    ensures theirs { OnOk result (values_of callee.now theirs.new
        ≡ (all_back
        (record { mine = values_of caller.now mine.old; theirs = values_of callee.now theirs.old; drops = [] })
        backs.now).theirs) }
    ensures drops { IfOk result (λ d. live d.items
        ≡ (all_back
        (record { mine = values_of caller.now mine.old; theirs = values_of callee.now theirs.old; drops = [] })
        backs.now).drops) }
    ensures err_mine { OnErr result (values_of caller.now mine.new ≡ values_of caller.now mine.old) }
    ensures err_theirs { OnErr result (values_of callee.now theirs.new ≡ values_of callee.now theirs.old) }
{
    let mut room = back_room(alloc, callee, backs)?;
    give_back_into(&mut room, caller, mine, callee, theirs, backs);
    Ok(room)
}
