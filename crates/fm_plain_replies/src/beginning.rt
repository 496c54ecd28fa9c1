//! The begin of a process block.

ghost use Rattle.std.specs.Prelude.{◌≡◌, ◌≤◌, IfOk, OnErr, [], map, length, vec_capacity};
ghost use Rattle.fm_rules.specs.declared.program.Program.{Program};
ghost use Rattle.fm_mean.specs.Calls.{child_of};
ghost use Rattle.fm_mean.specs.Steps.{kid_of as kid_from};
ghost use Rattle.fm_plain_frame.specs.Frames.{kid_of, proc_of, start_of};
ghost use Rattle.fm_plain_replies.specs.Goes.{after_begin};

use crate::frames::raise;
use fm_base::{NoMemory, Seq};
use fm_plain_frame::{Frame, Kid, Phase, PlainProc, Start};
use std::alloc::Global;
use std::collections::VecDeque;
use std::mem::replace;

fn kid_of(alloc: Global, start: &Start) -> Result<Kid, NoMemory>
    ensures { IfOk result (λ kid. (p : Program) → kid_of kid ≡ kid_from (start_of p start.now)) }
{
    Ok(Kid {
        unit: start.unit,
        backs: Seq::from_slice(alloc, start.backs.as_slice())?,
    })
}

fn kids_of(alloc: Global, starts: &[Start]) -> Result<Seq<Kid>, NoMemory>
    ensures { IfOk result (λ kids. (p : Program) → map kid_of kids ≡ map kid_from (map (start_of p) starts.now)) }
{
    let mut kids = Seq::new(alloc);
    'starts: for start in starts {
        kids.push(kid_of(alloc, start)?)?;
    }
    Ok(kids)
}

fn child_of(alloc: Global, start: Start) -> PlainProc
    ensures { (p : Program) → proc_of p result ≡ child_of (start_of p start) }
{
    PlainProc {
        phase: Phase::Running,
        top: Some(Frame::new(alloc, start.unit, start.memory, start.backs)),
        below: Vec::new(alloc),
        machine: start.machine,
        node: start.node,
        lines: Vec::new(alloc),
        next_block: 1,
        next_channel: 1,
    }
}

// Puts the children into a vector that has room for them.
fn put_children(alloc: Global, starts: Vec<Start>, children: &mut Vec<PlainProc>)
    requires empty { children.old.items ≡ [] }
    requires room { length starts.items ≤ vec_capacity children.old }
    ensures { (p : Program) → map (proc_of p) children.new.items ≡ map child_of (map (start_of p) starts.items) }
{
    let mut waiting = VecDeque::from_vec(starts);
    'starts: while let Some(start) = waiting.pop_front() {
        children.push_reserved(child_of(alloc, start));
    }
}

/// All starts of its open block begin as its next block, and it waits for them. Answers the children, in order. The
/// cost in turns is 1 and 1 more for each child.
///
/// NoMemory comes also where the block behind it has no number.
pub fn begin(alloc: Global, process: &mut PlainProc) -> Result<Vec<PlainProc>, NoMemory>
    ensures process { IfOk result
        (λ children. (p : Program) → proc_of p process.new ≡ (after_begin (proc_of p process.old)).self) }
    ensures starts { IfOk result
        (λ children. (p : Program) → map (proc_of p) children.items ≡ (after_begin (proc_of p process.old)).starts) }
    ensures err { OnErr result ((p : Program) → proc_of p process.new ≡ proc_of p process.old) }
{
    raise(&mut process.top, &mut process.below);
    let following = process.next_block.checked_add(1).ok_or(NoMemory)?;
    match &mut process.top {
        Some(frame) => {
            let kids = kids_of(alloc, frame.starts.as_slice())?;
            let mut children = Vec::with_capacity(alloc, frame.starts.len())?;
            let starts = replace(&mut frame.starts, Vec::new(alloc));
            put_children(alloc, starts, &mut children);
            process.phase = Phase::Joining(process.next_block, kids);
            process.next_block = following;
            Ok(children)
        }
        None => Ok(Vec::new(alloc)),
    }
}
