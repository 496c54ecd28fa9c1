//! The join of a process with its children.

ghost use Rattle.std.specs.Prelude.{◌≡◌, ◌+◌, IfOk, OnErr, List, map};
ghost use Rattle.std.specs.List.{flat_map};
ghost use Rattle.fm_rules.specs.declared.program.Program.{Program};
ghost use Rattle.fm_mean.specs.Actions.{at_entry};
ghost use Rattle.fm_mean.specs.Layout.{AreLaidOut};
ghost use Rattle.fm_mean.specs.Places.{live};
ghost use Rattle.fm_mean.specs.Process.{Proc, emptied};
ghost use Rattle.fm_mean.specs.Steps.{joining_words, kid_back};
ghost use Rattle.fm_plain_frame.specs.Frames.{frame_of, kid_of, phase_of, proc_of};
ghost use Rattle.fm_plain_frame.specs.LetGo.{let_go_ports};
ghost use Rattle.fm_plain_frame.specs.Memory.{values_of};
ghost use Rattle.fm_plain_replies.specs.Joins.{AreReady, HasRoom, IsReady, after_join, first_kid, frames_back, frames_in, given_from, kid_or_nobody, kids_in, leaving, left_frames, other_kids, with_values};

use crate::frames::{go_to, raise};
use fm_base::{NoMemory, PortValue};
use fm_plain_frame::{Frame, Kid, LetGo, Phase, PlainProc, Word, variables_of};
use fm_plain_passing::{back_room, back_words, give_back_into};
use fm_rules::Program;
use fm_symbols::Variable;
use std::alloc::Global;
use std::collections::VecDeque;
use std::mem::replace;

/// What a child that has ended leaves: its frames.
#[derive(Drop)]
pub struct Ended {
    /// The innermost frame.
    pub top: Option<Frame>,
    /// The other frames, the outermost first.
    pub below: Vec<Frame>,
}

/// Takes the frames out of a process. All else of it stays. Takes no memory.
pub fn leave(process: &mut PlainProc, alloc: Global) -> Ended
    ensures child { (p : Program) → proc_of p process.new ≡ emptied (proc_of p process.old) }
    ensures left { (p : Program) → left_frames p result ≡ frames_in (proc_of p process.old) }
{
    Ended {
        top: process.top.take(),
        below: replace(&mut process.below, Vec::new(alloc)),
    }
}

/// The children that a process waits for.
pub fn kids_in(phase: &Phase) -> &[Kid]
    ensures { map kid_of result.now ≡ kids_in (phase_of phase.now) }
{
    match phase {
        Phase::Joining(_, kids) => kids.as_slice(),
        Phase::Running => &[],
        Phase::Ended => &[],
        Phase::Faulted(_, _) => &[],
    }
}

/// The words that children may copy back.
fn joining_words(kids: &[Kid]) -> Result<u64, NoMemory>
    ensures { IfOk result (λ n. n ≡ joining_words (map kid_of kids.now)) }
{
    let mut words: u64 = 0;
    'kids: for kid in kids {
        let more = back_words(kid.backs.as_slice())?;
        words = words.checked_add(more).ok_or(NoMemory)?;
    }
    Ok(words)
}

/// All but the first of the children.
fn other_kids(kids: &[Kid]) -> &[Kid]
    ensures { map kid_of result.now ≡ other_kids (map kid_of kids.now) }
{
    match kids.split_first() {
        Some((_, others)) => others,
        None => &[],
    }
}

/// Room for the ports that copying back from the first child puts out.
fn room_for(
    alloc: Global,
    program: &Program,
    kids: &[Kid],
) -> Result<Vec<Option<PortValue>>, NoMemory>
    ensures { IfOk result (λ v. HasRoom program.now (first_kid (map kid_of kids.now)) v.items) }
{
    match kids.split_first() {
        Some((kid, _)) => back_room(alloc, variables_of(program, kid.unit), kid.backs.as_slice()),
        None => Ok(Vec::new(alloc)),
    }
}

/// What the children leave, each with the room that it needs.
fn leaving(
    alloc: Global,
    program: &Program,
    kids: &[Kid],
    children: Vec<Ended>,
) -> Result<Vec<LetGo>, NoMemory>
    ensures frames { IfOk result
        (λ v. map (leaving program.now) v.items ≡ map (left_frames program.now) children.items) }
    ensures ready { IfOk result (λ v. AreReady program.now (map kid_of kids.now) v.items) }
{
    let mut all = Vec::new(alloc);
    let mut kids = kids;
    let mut waiting = VecDeque::from_vec(children);
    'children: while let Some(child) = waiting.pop_front() {
        let room = room_for(alloc, program, kids)?;
        all.push(LetGo {
            replaced: room,
            top: child.top,
            below: child.below,
            taken: Vec::new(alloc),
        })?;
        kids = other_kids(kids);
    }
    Ok(all)
}

/// A child gives back by its outermost frame to its parent, if it is in the unit that was started.
fn give_from(
    program: &Program,
    variables: &[Variable],
    memory: &mut [Word],
    kid: &Kid,
    frame: &mut Frame,
    room: &mut Vec<Option<PortValue>>,
)
    requires laid_out { AreLaidOut 0 variables.now }
    requires room { HasRoom program.now (Some (kid_of kid.now)) room.old.items }
    ensures memory { values_of variables.now memory.new
        ≡ (given_from
        (values_of variables.now memory.old)
        (kid_of kid.now)
        (frame_of program.now frame.old)).mine }
    ensures frame { frame_of program.now frame.new
        ≡ record (frame_of program.now frame.old) {
          values =
              (given_from
              (values_of variables.now memory.old)
              (kid_of kid.now)
              (frame_of program.now frame.old)).theirs;
        } }
    ensures drops { live room.new.items
        ≡ (given_from
        (values_of variables.now memory.old)
        (kid_of kid.now)
        (frame_of program.now frame.old)).drops }
{
    if frame.unit == kid.unit {
        give_back_into(
            room,
            variables,
            memory,
            variables_of(program, frame.unit),
            &mut frame.memory,
            kid.backs.as_slice(),
        );
    }
}

/// A child gives back to its parent; what it still has is let go.
fn child_back(
    program: &Program,
    variables: &[Variable],
    memory: &mut [Word],
    kids: &[Kid],
    child: &mut LetGo,
)
    requires laid_out { AreLaidOut 0 variables.now }
    requires ready { IsReady program.now (first_kid (map kid_of kids.now)) child.old }
    ensures memory { values_of variables.now memory.new
        ≡ (kid_back
        (with_values (values_of variables.now memory.old))
        (kid_or_nobody (first_kid (map kid_of kids.now)))
        (leaving program.now child.old)).mine }
    ensures drops { let_go_ports program.now child.new
        ≡ (kid_back
        (with_values (values_of variables.now memory.old))
        (kid_or_nobody (first_kid (map kid_of kids.now)))
        (leaving program.now child.old)).drops }
{
    raise(&mut child.top, &mut child.below);
    if let Some(frame) = &mut child.top {
        if let Some((kid, _)) = kids.split_first() {
            give_from(program, variables, memory, kid, frame, &mut child.replaced);
        }
    }
}

/// The children give back in turn.
fn children_back(
    program: &Program,
    variables: &[Variable],
    memory: &mut [Word],
    kids: &[Kid],
    children: &mut [LetGo],
)
    requires laid_out { AreLaidOut 0 variables.now }
    requires ready { AreReady program.now (map kid_of kids.now) children.old }
    ensures memory { values_of variables.now memory.new
        ≡ (frames_back
        (with_values (values_of variables.now memory.old))
        (map kid_of kids.now)
        (map (leaving program.now) children.old)).mine }
    ensures drops { flat_map (let_go_ports program.now) children.new
        ≡ (frames_back
        (with_values (values_of variables.now memory.old))
        (map kid_of kids.now)
        (map (leaving program.now) children.old)).drops }
{
    let mut kids = kids;
    'children: for child in children.iter_mut() {
        child_back(program, variables, memory, kids, child);
        kids = other_kids(kids);
    }
}

/// The frame of the parent is joined with these children.
fn join_frame(
    alloc: Global,
    program: &Program,
    frame: &mut Frame,
    kids: &[Kid],
    children: Vec<Ended>,
    next: u32,
) -> Result<(Vec<LetGo>, u64), NoMemory>
    ensures frame { IfOk result (λ r. frame_of program.now frame.new
        ≡ at_entry (record (frame_of program.now frame.old) {
          values =
              (frames_back
              (with_values (frame_of program.now frame.old).values)
              (map kid_of kids.now)
              (map (left_frames program.now) children.items)).mine;
        })
        next) }
    ensures drops { IfOk result (λ r. flat_map (let_go_ports program.now) r.0.items
        ≡ (frames_back
        (with_values (frame_of program.now frame.old).values)
        (map kid_of kids.now)
        (map (left_frames program.now) children.items)).drops) }
    ensures cost { IfOk result (λ r. r.1 ≡ 1 + joining_words (map kid_of kids.now)) }
    ensures err { OnErr result (frame_of program.now frame.new ≡ frame_of program.now frame.old) }
{
    let cost = joining_words(kids)?.checked_add(1).ok_or(NoMemory)?;
    let mut going = leaving(alloc, program, kids, children)?;
    let variables = variables_of(program, frame.unit);
    children_back(program, variables, &mut frame.memory, kids, &mut going);
    go_to(frame, next);
    Ok((going, cost))
}

/// The children of its block have ended: they give back in the order of their starts, each by what its start was given,
/// and what they still have is let go. It goes on at the entry `next`. Answers what is let go with each child, in
/// order, and the cost in turns.
pub fn join(
    alloc: Global,
    program: &Program,
    process: &mut PlainProc,
    children: Vec<Ended>,
    next: u32,
) -> Result<(Vec<LetGo>, u64), NoMemory>
    ensures process { IfOk result (λ r. (ys : List Proc)
        → map frames_in ys ≡ map (left_frames program.now) children.items
        → proc_of program.now process.new ≡ (after_join (proc_of program.now process.old) next ys).self) }
    ensures drops { IfOk result (λ r. (ys : List Proc) → map frames_in ys ≡ map (left_frames program.now) children.items
        → flat_map (let_go_ports program.now) r.0.items
        ≡ (after_join (proc_of program.now process.old) next ys).drops) }
    ensures cost { IfOk result (λ r. (ys : List Proc) → map frames_in ys ≡ map (left_frames program.now) children.items
        → r.1 ≡ (after_join (proc_of program.now process.old) next ys).cost) }
    ensures err { OnErr result (proc_of program.now process.new ≡ proc_of program.now process.old) }
{
    raise(&mut process.top, &mut process.below);
    match &mut process.top {
        Some(frame) => {
            let kids = kids_in(&process.phase);
            let answer = join_frame(alloc, program, frame, kids, children, next)?;
            process.phase = Phase::Running;
            Ok(answer)
        }
        None => Ok((Vec::new(alloc), 0)),
    }
}
