//! The end of a process.

ghost use Rattle.std.specs.Prelude.{◌≡◌, ◌++◌, IfOk, OnErr, [], map};
ghost use Rattle.fm_rules.specs.declared.program.Program.{Program};
ghost use Rattle.fm_mean.specs.Calls.{ended_frames};
ghost use Rattle.fm_mean.specs.Places.{live};
ghost use Rattle.fm_mean.specs.Process.{frames_ports, started_ports};
ghost use Rattle.fm_mean.specs.Steps.{ended};
ghost use Rattle.fm_plain_frame.specs.Frames.{frame_of, frames_of, proc_of, start_of};
ghost use Rattle.fm_plain_frame.specs.LetGo.{let_go_ports};
ghost use Rattle.fm_plain_replies.specs.Ends.{own_end, own_ports};

use fm_base::{NoMemory, PortValue, Seq};
use fm_plain_frame::{Frame, LetGo, Phase, PlainProc, Start, variables_of};
use fm_plain_passing::keep_formals;
use fm_rules::Program;
use std::alloc::Global;
use std::mem::replace;

/// What a frame doesn't keep at the end of its process.
#[derive(Drop)]
struct Lost {
    /// The ports of its variables.
    ports: Vec<Option<PortValue>>,
    /// The starts that didn't begin.
    starts: Vec<Start>,
}

/// The own frame of a process keeps its formals alone.
fn end_frame(alloc: Global, program: &Program, frame: &mut Frame) -> Result<Lost, NoMemory>
    ensures frame { IfOk result
        (λ l. frame_of program.now frame.new ≡ own_end program.now (frame_of program.now frame.old)) }
    ensures ports { IfOk result (λ l. live l.ports.items ≡ own_ports program.now (frame_of program.now frame.old)) }
    ensures starts { IfOk result
        (λ l. map (start_of program.now) l.starts.items ≡ (frame_of program.now frame.old).starts) }
    ensures err { OnErr result (frame_of program.now frame.new ≡ frame_of program.now frame.old) }
{
    let variables = variables_of(program, frame.unit);
    let ports = keep_formals(alloc, variables, &mut frame.memory)?;
    frame.results.clear();
    Ok(Lost {
        ports,
        starts: replace(&mut frame.starts, Vec::new(alloc)),
    })
}

/// Starts as they are let go: with a frame that has no words.
fn let_starts_go(alloc: Global, starts: Vec<Start>) -> LetGo
    ensures { (p : Program) → let_go_ports p result ≡ started_ports (map (start_of p) starts.items) }
{
    let mut frame = Frame::new(alloc, 0, Vec::new(alloc), Seq::new(alloc));
    frame.starts = starts;
    LetGo {
        replaced: Vec::new(alloc),
        top: Some(frame),
        below: Vec::new(alloc),
        taken: Vec::new(alloc),
    }
}

/// The frames of calls go, and what the own frame doesn't keep.
fn let_all_go(alloc: Global, top: Option<Frame>, below: Vec<Frame>, lost: Lost) -> (LetGo, LetGo)
    ensures { (p : Program)
        → let_go_ports p result.0 ++ let_go_ports p result.1
        ≡ frames_ports (frames_of p top below.items)
        ++ (live lost.ports.items ++ started_ports (map (start_of p) lost.starts.items)) }
{
    let frames = LetGo {
        replaced: Vec::new(alloc),
        top,
        below,
        taken: lost.ports,
    };
    (frames, let_starts_go(alloc, lost.starts))
}

/// The end of a process that has no frame of a call.
fn end_alone(
    alloc: Global,
    program: &Program,
    top: &mut Option<Frame>,
) -> Result<(LetGo, LetGo), NoMemory>
    ensures frames { IfOk result
        (λ l. frames_of program.now top.new [] ≡ (ended_frames program.now (frames_of program.now top.old [])).0) }
    ensures drops { IfOk result (λ l. let_go_ports program.now l.0 ++ let_go_ports program.now l.1
        ≡ (ended_frames program.now (frames_of program.now top.old [])).1) }
    ensures err { OnErr result (frames_of program.now top.new [] ≡ frames_of program.now top.old []) }
{
    let lost = match top {
        Some(frame) => end_frame(alloc, program, frame)?,
        None => Lost {
            ports: Vec::new(alloc),
            starts: Vec::new(alloc),
        },
    };
    Ok(let_all_go(alloc, None, Vec::new(alloc), lost))
}

/// The end of a process with this outermost frame and others.
fn end_frames(
    alloc: Global,
    program: &Program,
    top: &mut Option<Frame>,
    below: &mut Vec<Frame>,
) -> Result<(LetGo, LetGo), NoMemory>
    ensures frames { IfOk result (λ l. frames_of program.now top.new below.new.items
        ≡ (ended_frames program.now (frames_of program.now top.old below.old.items)).0) }
    ensures drops { IfOk result (λ l. let_go_ports program.now l.0 ++ let_go_ports program.now l.1
        ≡ (ended_frames program.now (frames_of program.now top.old below.old.items)).1) }
    ensures err { OnErr result
        (frames_of program.now top.new below.new.items ≡ frames_of program.now top.old below.old.items) }
{
    if below.is_empty() {
        return end_alone(alloc, program, top);
    }
    let lost = end_frame(alloc, program, &mut below[0])?;
    let own = below.remove(0);
    let others = replace(below, Vec::new(alloc));
    let innermost = replace(top, Some(own));
    Ok(let_all_go(alloc, innermost, others, lost))
}

/// It ends: frames of calls go, and its own frame keeps its formals without INTENT(IN) alone. Answers what is let go:
/// first the ports of frames and variables, then those of starts that didn't begin.
pub fn end(
    alloc: Global,
    program: &Program,
    process: &mut PlainProc,
) -> Result<(LetGo, LetGo), NoMemory>
    ensures process { IfOk result
        (λ l. proc_of program.now process.new ≡ (ended program.now (proc_of program.now process.old)).self) }
    ensures drops { IfOk result (λ l. let_go_ports program.now l.0 ++ let_go_ports program.now l.1
        ≡ (ended program.now (proc_of program.now process.old)).drops) }
    ensures err { OnErr result (proc_of program.now process.new ≡ proc_of program.now process.old) }
{
    let lost = end_frames(alloc, program, &mut process.top, &mut process.below)?;
    process.phase = Phase::Ended;
    Ok(lost)
}
