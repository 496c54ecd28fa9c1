//! Replies of channels, and faults.

ghost use Rattle.std.specs.Prelude.{◌≡◌, ℕ, IfOk, OnErr};
ghost use Rattle.fm_base.specs.declared.path.ChanName.{ChanName};
ghost use Rattle.fm_net.specs.Lawful.{ports_from};
ghost use Rattle.fm_net.specs.Owned.{name_of};
ghost use Rattle.fm_rules.specs.declared.program.Program.{Program};
ghost use Rattle.fm_mean.specs.Layout.{AreLaidOut};
ghost use Rattle.fm_mean.specs.Steps.{faulted, limits_of, with_status};
ghost use Rattle.fm_plain_frame.specs.Frames.{proc_of};
ghost use Rattle.fm_plain_frame.specs.LetGo.{let_go_ports};
ghost use Rattle.fm_plain_frame.specs.Memory.{values_of};
ghost use Rattle.fm_plain_passing.specs.Items.{message_of};
ghost use Rattle.fm_plain_replies.specs.Goes.{after_end_of_channel, after_make, after_message, after_probe, after_send, message_sent};

use crate::frames::{go_to, raise};
use fm_base::{ChanName, Fault, Line, NoMemory, Path, PortValue, Seq};
use fm_mean::{Actual, Span};
use fm_plain_frame::memory::put_number;
use fm_plain_frame::{LetGo, Phase, PlainProc, Word, variables_of};
use fm_plain_passing::{Item, place_ports, store_items, take_items};
use fm_rules::Program;
use fm_symbols::Variable;
use fm_values::truth_word;
use std::alloc::Global;

/// The name of the channel that a process makes next.
pub fn next_name(alloc: Global, path: &Path, process: &PlainProc) -> Result<ChanName, NoMemory>
    ensures { IfOk result (λ c. (p : Program) → c ≡ name_of path.now (proc_of p process.now).next_channel) }
{
    Ok(ChanName {
        maker: path.copy(alloc)?,
        number: process.next_channel,
    })
}

/// The most elements that a receive into these places takes for each of them.
pub fn limits_of(alloc: Global, places: &[Span]) -> Result<Vec<Option<u32>>, NoMemory>
    ensures { IfOk result (λ limits. limits.items ≡ limits_of places.now) }
{
    let mut limits = Vec::new(alloc);
    'places: for place in places {
        limits.push(Some(place.count))?;
    }
    Ok(limits)
}

/// It faults at a line.
pub fn fail(process: &mut PlainProc, line: Line, fault: Fault)
    ensures { (p : Program) → proc_of p process.new ≡ (faulted (proc_of p process.old) line.0 fault).self }
{
    process.phase = Phase::Faulted(line, fault);
}

/// The channel was made that it asked for: puts its ports, the inport first and then the outports by their numbers,
/// into these places, and goes on at the entry `next`. Answers what stood there.
///
/// NoMemory comes also where the next channel has no number.
pub fn put_ports(
    alloc: Global,
    program: &Program,
    process: &mut PlainProc,
    places: &[Span],
    ports: Vec<PortValue>,
    next: u32,
) -> Result<LetGo, NoMemory>
    ensures ok { IfOk result (λ l. (c : ChanName) (n cost : ℕ)
        → ports.items ≡ ports_from c n
        → (proc_of program.now process.new
        ≡ (after_make (proc_of program.now process.old) next places.now n cost c).self)
        × (let_go_ports program.now l
        ≡ (after_make (proc_of program.now process.old) next places.now n cost c).drops)) }
    ensures err { OnErr result (proc_of program.now process.new ≡ proc_of program.now process.old) }
{
    raise(&mut process.top, &mut process.below);
    let following = process.next_channel.checked_add(1).ok_or(NoMemory)?;
    match &mut process.top {
        Some(frame) => {
            let variables = variables_of(program, frame.unit);
            let replaced = place_ports(alloc, variables, &mut frame.memory, places, ports)?;
            go_to(frame, next);
            process.next_channel = following;
            Ok(LetGo::of_replaced(alloc, replaced))
        }
        None => Ok(LetGo::of_replaced(alloc, Vec::new(alloc))),
    }
}

/// Takes the items of the message that it sends, from left to right, and goes on at the entry `next`. Answers the
/// message.
pub fn take_message(
    alloc: Global,
    program: &Program,
    process: &mut PlainProc,
    items: Seq<Actual>,
    next: u32,
) -> Result<Seq<Item>, NoMemory>
    ensures ok { IfOk result (λ m. (proc_of program.now process.new
        ≡ (after_send (proc_of program.now process.old) next items).self)
        × (message_of m ≡ message_sent (proc_of program.now process.old) items)) }
    ensures err { OnErr result (proc_of program.now process.new ≡ proc_of program.now process.old) }
{
    raise(&mut process.top, &mut process.below);
    match &mut process.top {
        Some(frame) => {
            let variables = variables_of(program, frame.unit);
            let message = take_items(alloc, variables, &mut frame.memory, items)?;
            go_to(frame, next);
            Ok(message)
        }
        None => Ok(Seq::new(alloc)),
    }
}

/// A message came: stores its items into these places, from left to right, sets IOSTAT to 0 where it is given, and goes
/// on at the entry `next`. Answers what stood in the places.
pub fn store_message(
    alloc: Global,
    program: &Program,
    process: &mut PlainProc,
    places: &[Span],
    iostat: Option<Span>,
    message: Seq<Item>,
    next: u32,
) -> Result<LetGo, NoMemory>
    ensures ok { IfOk result (λ l. (proc_of program.now process.new
        ≡ (after_message (proc_of program.now process.old) next places.now iostat (message_of message)).self)
        × (let_go_ports program.now l
        ≡ (after_message (proc_of program.now process.old) next places.now iostat (message_of message)).drops)) }
    ensures err { OnErr result (proc_of program.now process.new ≡ proc_of program.now process.old) }
{
    raise(&mut process.top, &mut process.below);
    match &mut process.top {
        Some(frame) => {
            let variables = variables_of(program, frame.unit);
            let replaced = store_items(alloc, variables, &mut frame.memory, places, message)?;
            put_status(variables, &mut frame.memory, iostat, 0);
            go_to(frame, next);
            Ok(LetGo::of_replaced(alloc, replaced))
        }
        None => Ok(LetGo::of_replaced(alloc, Vec::new(alloc))),
    }
}

/// The word of IOSTAT, where it is asked for.
fn put_status(variables: &[Variable], memory: &mut [Word], iostat: Option<Span>, status: i64)
    requires { AreLaidOut 0 variables.now }
    ensures { values_of variables.now memory.new ≡ with_status (values_of variables.now memory.old) iostat status }
{
    if let Some(place) = iostat {
        put_number(memory, variables, place, status);
    }
}

/// The channel is at its end: sets IOSTAT to -1 and goes on at END's entry, where they are given, else at the entry
/// `next`. With neither it faults. Takes no memory, and lets nothing go.
pub fn meet_end(
    program: &Program,
    process: &mut PlainProc,
    line: Line,
    iostat: Option<Span>,
    at_end: Option<u32>,
    next: u32,
)
    ensures { proc_of program.now process.new
        ≡ (after_end_of_channel (proc_of program.now process.old) line.0 next iostat at_end).self }
{
    raise(&mut process.top, &mut process.below);
    match &mut process.top {
        Some(frame) => {
            if iostat.is_none() && at_end.is_none() {
                process.phase = Phase::Faulted(line, Fault::EndOfChannel);
            } else {
                let variables = variables_of(program, frame.unit);
                put_status(variables, &mut frame.memory, iostat, -1);
                go_to(frame, at_end.unwrap_or(next));
            }
        }
        None => {}
    }
}

/// Puts whether a receive would wait, and goes on at the entry `next`. Takes no memory, and lets nothing go.
pub fn put_probe(program: &Program, process: &mut PlainProc, empty: Span, waits: bool, next: u32)
    ensures { proc_of program.now process.new ≡ (after_probe (proc_of program.now process.old) next empty waits).self }
{
    raise(&mut process.top, &mut process.below);
    match &mut process.top {
        Some(frame) => {
            let variables = variables_of(program, frame.unit);
            put_number(&mut frame.memory, variables, empty, truth_word(waits));
            go_to(frame, next);
        }
        None => {}
    }
}
