//! Ports that move between the places of a frame and lists.

ghost use Rattle.std.specs.Prelude.{◌≡◌, ◌+◌, ◌≤◌, ◌++◌, length, vec_len, vec_capacity};
ghost use Rattle.fm_mean.specs.Layout.{AreLaidOut};
ghost use Rattle.fm_mean.specs.Places.{exchange, exchange_all, taken_ports};
ghost use Rattle.fm_plain_frame.specs.Memory.{values_of};
ghost use Rattle.fm_plain_passing.specs.Rooms.{ports_at};

use crate::room::{Room, put};
use fm_base::PortValue;
use fm_mean::Span;
use fm_plain_frame::Word;
use fm_plain_frame::memory::exchange;
use fm_symbols::Variable;
use fm_tree::Kind;
use std::collections::VecDeque;

/// So many elements of a variable of this kind, or none if it isn't of ports.
pub(crate) fn ports_at(kind: &Kind, elements: u32) -> u32
    ensures { result ≡ ports_at kind.now elements }
{
    match kind {
        Kind::Integer => 0,
        Kind::Logical => 0,
        Kind::In(_) => elements,
        Kind::Out(_) => elements,
    }
}

/// Exchanges the port that stands so many elements behind another one. Where there is no such element, the port comes
/// out.
pub(crate) fn exchange_behind(
    memory: &mut [Word],
    variables: &[Variable],
    variable: u32,
    first: usize,
    behind: usize,
    port: Option<PortValue>,
) -> Option<PortValue>
    requires { AreLaidOut 0 variables.now }
    ensures memory { values_of variables.now memory.new
        ≡ (exchange (values_of variables.now memory.old) variable (first + behind) port).0 }
    ensures port { result ≡ (exchange (values_of variables.now memory.old) variable (first + behind) port).1 }
{
    let words = memory.len();
    if first < words && behind < words - first {
        exchange(memory, variables, variable, first + behind, port)
    } else {
        port
    }
}

/// Takes the ports of a span into the room. They leave NULL.
pub(crate) fn take_into(room: &mut Room, variables: &[Variable], memory: &mut [Word], span: Span)
    requires laid_out { AreLaidOut 0 variables.now }
    requires room { vec_len room.old + span.count ≤ vec_capacity room.old }
    ensures memory { values_of variables.now memory.new ≡ (taken_ports (values_of variables.now memory.old) span).0 }
    ensures ports { room.new.items ≡ room.old.items ++ (taken_ports (values_of variables.now memory.old) span).1 }
    ensures len { vec_len room.new ≡ vec_len room.old + span.count }
    ensures capacity { vec_capacity room.old ≤ vec_capacity room.new }
{
    'elements: for index in 0..span.count as usize {
        let port = exchange_behind(memory, variables, span.variable, span.first, index, None);
        put(room, port);
    }
}

/// Puts ports into a span, from its first element on. What was there goes into the room.
pub(crate) fn put_from(
    room: &mut Room,
    variables: &[Variable],
    memory: &mut [Word],
    span: Span,
    ports: Vec<Option<PortValue>>,
)
    requires laid_out { AreLaidOut 0 variables.now }
    requires room { vec_len room.old + length ports.items ≤ vec_capacity room.old }
    ensures memory { values_of variables.now memory.new
        ≡ (exchange_all (values_of variables.now memory.old) span.variable span.first ports.items).0 }
    ensures ports { room.new.items
        ≡ room.old.items ++ (exchange_all (values_of variables.now memory.old) span.variable span.first ports.items).1 }
    ensures len { vec_len room.new ≡ vec_len room.old + length ports.items }
    ensures capacity { vec_capacity room.old ≤ vec_capacity room.new }
{
    let mut waiting = VecDeque::from_vec(ports);
    let mut index: usize = 0;
    'ports: while let Some(port) = waiting.pop_front() {
        let replaced = exchange_behind(memory, variables, span.variable, span.first, index, port);
        put(room, replaced);
        index += 1;
    }
}
