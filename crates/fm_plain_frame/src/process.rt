//! Processes.

ghost use Rattle.std.specs.Prelude.{◌≡◌, ◌*◌, IfOk, option_map, option_to_list};
ghost use Rattle.fm_rules.specs.declared.program.Program as declared;
ghost use Rattle.fm_mean.specs.Process.{is_ended};
ghost use Rattle.fm_mean.specs.Steps as mean;
ghost use Rattle.fm_mean.specs.Steps.{first_proc, nodes_of};
ghost use Rattle.fm_plain_frame.specs.Frames.{frame_of, is_running, phase_of, proc_of};

use crate::frame::Frame;
use crate::memory::unset;
use crate::unit_view::UnitView;
use fm_base::{Fault, Line, Machine, NoMemory, Seq};
use fm_mean::Back;
use fm_rules::Program;
use std::alloc::Global;

/// A child that is to be joined.
pub struct Kid {
    /// The number of its unit.
    pub unit: u32,
    /// What it gives back.
    pub backs: Seq<Back>,
}

impl Drop for Kid {
    fn drop(self) {
        let Kid {
            unit: _unit,
            backs: _backs,
        } = self;
    }
}

/// Whether a process runs.
#[derive(Drop)]
pub enum Phase {
    /// It does its next statement.
    Running,
    /// It waits for these children of a block.
    Joining(u32, Seq<Kid>),
    /// It has ended.
    Ended,
    /// It has faulted at a line.
    Faulted(Line, Fault),
}

/// A process. Contracts see it as the meaning's (`proc_of`).
pub struct PlainProc {
    /// Whether it runs.
    pub phase: Phase,
    /// The innermost frame. None where the process was joined.
    pub top: Option<Frame>,
    /// The other frames, the outermost first.
    pub below: Vec<Frame>,
    /// Its machine.
    pub machine: Machine,
    /// Its node.
    pub node: u32,
    /// The lines that it has put out.
    pub lines: Vec<Seq<u8>>,
    /// The number of the block that it starts next.
    pub next_block: u32,
    /// The number of the channel that it makes next.
    pub next_channel: u32,
}

impl Drop for PlainProc {
    fn drop(self) {
        let PlainProc {
            phase: _phase,
            top: _top,
            below: _below,
            machine: _machine,
            node: _node,
            lines: _lines,
            next_block: _next_block,
            next_channel: _next_channel,
        } = self;
    }
}

fn times(count: u32, extent: u32) -> Result<u32, NoMemory>
    ensures { IfOk result (λ n. n ≡ count * extent) }
{
    count.checked_mul(extent).ok_or(NoMemory)
}

/// The nodes of a PROCESSORS statement with these extents, or one.
pub fn nodes_of(extents: &[u32]) -> Result<u32, NoMemory>
    ensures { IfOk result (λ n. n ≡ nodes_of extents.now) }
{
    let mut nodes: u32 = 1;
    'extents: for extent in extents {
        nodes = times(nodes, *extent)?;
    }
    Ok(nodes)
}

impl PlainProc {
    // A process with one frame at most, on the first of so many nodes.
    fn alone(alloc: Global, top: Option<Frame>, count: u32) -> PlainProc
        ensures { (p : declared.Program)
            → proc_of p result
            ≡ mean.proc_of (record {
              frames = option_to_list (option_map (frame_of p) top);
              machine = record { first = 0; count = count };
              node = 0;
            }) }
    {
        PlainProc {
            phase: Phase::Running,
            top,
            below: Vec::new(alloc),
            machine: Machine { first: 0, count },
            node: 0,
            lines: Vec::new(alloc),
            next_block: 1,
            next_channel: 1,
        }
    }

    /// Main of a program, before its first statement.
    pub fn main(alloc: Global, program: &Program) -> Result<PlainProc, NoMemory>
        ensures { IfOk result (λ x. proc_of program.now x ≡ first_proc program.now) }
    {
        let number = program.main();
        match UnitView::new(program, number) {
            None => Ok(PlainProc::alone(alloc, None, 1)),
            Some(view) => {
                let memory = unset(alloc, view.variables())?;
                let count = nodes_of(view.names().extents.as_slice())?;
                let frame = Frame::new(alloc, number, memory, Seq::new(alloc));
                Ok(PlainProc::alone(alloc, Some(frame), count))
            }
        }
    }

    /// Whether it does statements.
    pub fn is_running(&self) -> bool
        ensures { result ≡ is_running (phase_of self.now.phase) }
    {
        match &self.phase {
            Phase::Running => true,
            Phase::Joining(_, _) => false,
            Phase::Ended => false,
            Phase::Faulted(_, _) => false,
        }
    }

    /// Whether it has ended.
    pub fn has_ended(&self) -> bool
        ensures { result ≡ is_ended (phase_of self.now.phase) }
    {
        match &self.phase {
            Phase::Running => false,
            Phase::Joining(_, _) => false,
            Phase::Ended => true,
            Phase::Faulted(_, _) => false,
        }
    }

    /// The lines that it has put out.
    pub fn lines(&self) -> &[Seq<u8>]
        ensures { result.now ≡ self.now.lines.items }
    {
        self.lines.as_slice()
    }

    /// The number of the block that it starts next.
    pub fn next_block(&self) -> u32
        ensures { result ≡ self.now.next_block }
    {
        self.next_block
    }
}
