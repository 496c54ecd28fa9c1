//! The frames of a process once more.

ghost use Rattle.std.specs.Prelude.{◌≡◌, [], map, option_map, IfOk};
ghost use Rattle.fm_mean.specs.Process as mean;
ghost use Rattle.fm_plain_frame.specs.Frames.{frame_of, loops_of, proc_of, start_of};

use crate::frame::{Frame, Start, Trips};
use crate::process::{Phase, PlainProc};
use crate::word::Word;
use fm_base::{NoMemory, Seq};
use fm_rules::Program;
use std::alloc::Global;
use std::collections::BTreeMap;

fn copy_word(alloc: Global, word: &Word) -> Result<Word, NoMemory>
    ensures { IfOk result (λ w. w ≡ word.now) }
{
    match word {
        Word::Number(number) => Ok(Word::Number(*number)),
        Word::Null => Ok(Word::Null),
        Word::Port(port) => Ok(Word::Port(port.copy(alloc)?)),
    }
}

fn copy_words(alloc: Global, words: &[Word]) -> Result<Vec<Word>, NoMemory>
    ensures { IfOk result (λ v. v.items ≡ words.now) }
{
    let mut all = Vec::new(alloc);
    'words: for word in words {
        all.push(copy_word(alloc, word)?)?;
    }
    Ok(all)
}

fn copy_start(alloc: Global, program: &Program, start: &Start) -> Result<Start, NoMemory>
    ensures { IfOk result (λ s. start_of program.now s ≡ start_of program.now start.now) }
{
    Ok(Start {
        unit: start.unit,
        memory: copy_words(alloc, start.memory.as_slice())?,
        backs: Seq::from_slice(alloc, start.backs.as_slice())?,
        machine: start.machine,
        node: start.node,
    })
}

fn copy_starts(alloc: Global, program: &Program, starts: &[Start]) -> Result<Vec<Start>, NoMemory>
    ensures { IfOk result (λ v. map (start_of program.now) v.items ≡ map (start_of program.now) starts.now) }
{
    let mut all = Vec::new(alloc);
    'starts: for start in starts {
        all.push(copy_start(alloc, program, start)?)?;
    }
    Ok(all)
}

fn copy_loops(loops: &BTreeMap<u32, Trips>) -> Result<BTreeMap<u32, Trips>, NoMemory>
    ensures { IfOk result (λ m. loops_of m ≡ loops_of loops.now) }
{
    Ok(loops.clone()?)
}

fn copy_frame(alloc: Global, program: &Program, frame: &Frame) -> Result<Frame, NoMemory>
    ensures { IfOk result (λ f. frame_of program.now f ≡ frame_of program.now frame.now) }
{
    Ok(Frame {
        unit: frame.unit,
        entry: frame.entry,
        memory: copy_words(alloc, frame.memory.as_slice())?,
        loops: copy_loops(&frame.loops)?,
        results: Vec::from_slice(alloc, frame.results.as_slice())?,
        starts: copy_starts(alloc, program, frame.starts.as_slice())?,
        backs: Seq::from_slice(alloc, frame.backs.as_slice())?,
    })
}

fn copy_frames(alloc: Global, program: &Program, frames: &[Frame]) -> Result<Vec<Frame>, NoMemory>
    ensures { IfOk result (λ v. map (frame_of program.now) v.items ≡ map (frame_of program.now) frames.now) }
{
    let mut all = Vec::new(alloc);
    'frames: for frame in frames {
        all.push(copy_frame(alloc, program, frame)?)?;
    }
    Ok(all)
}

fn copy_top(
    alloc: Global,
    program: &Program,
    top: &Option<Frame>,
) -> Result<Option<Frame>, NoMemory>
    ensures { IfOk result (λ t. option_map (frame_of program.now) t ≡ option_map (frame_of program.now) top.now) }
{
    match top {
        Some(frame) => Ok(Some(copy_frame(alloc, program, frame)?)),
        None => Ok(None),
    }
}

impl PlainProc {
    /// A process that stands where this one does, which runs, and has put out nothing.
    pub fn twin(&self, alloc: Global, program: &Program) -> Result<PlainProc, NoMemory>
        ensures { IfOk result
            (λ x. proc_of program.now x ≡ record (proc_of program.now self.now) { phase = mean.Running; lines = [] }) }
    {
        Ok(PlainProc {
            phase: Phase::Running,
            top: copy_top(alloc, program, &self.top)?,
            below: copy_frames(alloc, program, self.below.as_slice())?,
            machine: self.machine,
            node: self.node,
            lines: Vec::new(alloc),
            next_block: self.next_block,
            next_channel: self.next_channel,
        })
    }
}
