//! What room a join needs.

ghost use Rattle.std.specs.Prelude.{◌≡◌, ◌+◌, IfOk, map};
ghost use Rattle.fm_proc_language.specs.Processes.{joining_words};
ghost use Rattle.fm_proc_events.specs.Phases.{kid_of, proc_of};
ghost use Rattle.fm_procs.specs.Rooms.{body_room, frame_room, frames_room, left_room, unit_room};

use fm_base::NoMemory;
use fm_code::{Body, Frame, SharedCode, back_words};
use fm_proc_events::{Kid, Process, ports_at};
use fm_proc_slots::span_words;

/// How many words these give back.
pub(crate) fn joining_words(kids: &[Kid]) -> Result<u64, NoMemory>
    ensures { IfOk result (λ n. n ≡ joining_words (map kid_of kids.now)) }
{
    let mut words: u64 = 0;
    'kids: for kid in kids {
        words = words
            .checked_add(back_words(kid.backs.as_slice())?)
            .ok_or(NoMemory)?;
    }
    Ok(words)
}

/// As many ports as the words of a unit name at most.
fn unit_room(code: &SharedCode, unit: u32) -> Result<usize, NoMemory>
    ensures { IfOk result (λ n. n ≡ unit_room code.now unit) }
{
    span_words(ports_at(code, unit))
}

fn frame_room(code: &SharedCode, frame: &Frame) -> Result<usize, NoMemory>
    ensures { IfOk result (λ n. n ≡ frame_room code.now frame.now) }
{
    let mut room = unit_room(code, frame.unit)?;
    let starts = frame.starts.as_slice();
    'starts: for start in starts {
        room = room
            .checked_add(unit_room(code, start.unit)?)
            .ok_or(NoMemory)?;
    }
    Ok(room)
}

fn frames_room(code: &SharedCode, frames: &[Frame]) -> Result<usize, NoMemory>
    ensures { IfOk result (λ n. n ≡ frames_room code.now frames.now) }
{
    let mut room: usize = 0;
    'frames: for frame in frames {
        room = room.checked_add(frame_room(code, frame)?).ok_or(NoMemory)?;
    }
    Ok(room)
}

#[tactic(auto, using(crate::proofs::FrameRooms::frames_room_reverse))]
fn body_room(body: &Body) -> Result<usize, NoMemory>
    ensures { IfOk result (λ n. n ≡ body_room body.now) }
{
    let room = frame_room(&body.code, &body.frame)?;
    let below = frames_room(&body.code, body.below.outermost_first())?;
    room.checked_add(below).ok_or(NoMemory)
}

/// As many ports as a process still has at most, by the words of its frames.
pub fn left_room(process: &Process) -> Result<usize, NoMemory>
    ensures { IfOk result (λ n. n ≡ left_room (proc_of process.now).body) }
{
    match &process.body {
        Some(body) => body_room(body),
        None => Ok(0),
    }
}

/// The room for so many words that are given back, and for so many ports.
pub(crate) fn room_with(backs: u64, ports: usize) -> Result<usize, NoMemory>
    ensures { IfOk result (λ n. n ≡ backs + ports) }
{
    let room = usize::try_from(backs).map_err(|_| NoMemory)?;
    room.checked_add(ports).ok_or(NoMemory)
}
