//! Copies of bodies.

ghost use Rattle.std.specs.Prelude.{◌≡◌, IfOk};

use crate::body::{Body, Frame, Start};
use crate::pile::Pile;
use crate::rare::Rare;
use fm_base::{NoMemory, Seq};
use std::alloc::Global;

fn copy_start(alloc: Global, start: &Start) -> Result<Start, NoMemory>
    ensures { IfOk result (λ s. s ≡ start.now) }
{
    Ok(Start {
        unit: start.unit,
        words: Seq::from_slice(alloc, start.words.as_slice())?,
        backs: Seq::from_slice(alloc, start.backs.as_slice())?,
        machine: start.machine,
        node: start.node,
    })
}

fn copy_starts(alloc: Global, starts: &[Start]) -> Result<Rare<Start>, NoMemory>
    ensures { IfOk result (λ s. s ≡ starts.now) }
{
    let mut copies = Rare::new(alloc);
    'starts: for start in starts {
        copies.push(copy_start(alloc, start)?)?;
    }
    Ok(copies)
}

/// The same frame once more.
fn copy_frame(alloc: Global, frame: &Frame) -> Result<Frame, NoMemory>
    ensures { IfOk result (λ f. f ≡ frame.now) }
{
    Ok(Frame {
        unit: frame.unit,
        address: frame.address,
        words: Seq::from_slice(alloc, frame.words.as_slice())?,
        loops: Seq::from_slice(alloc, frame.loops.as_slice())?,
        results: Seq::from_slice(alloc, frame.results.as_slice())?,
        starts: copy_starts(alloc, frame.starts.as_slice())?,
        backs: Seq::from_slice(alloc, frame.backs.as_slice())?,
    })
}

fn copy_frames(alloc: Global, frames: &Pile<Frame>) -> Result<Pile<Frame>, NoMemory>
    ensures { IfOk result (λ f. f ≡ frames.now) }
{
    let frames = frames.outermost_first();
    let mut copies = Vec::new(alloc);
    'frames: for frame in frames {
        copies.push(copy_frame(alloc, frame)?)?;
    }
    Ok(Pile::from_vec(copies))
}

/// The same body once more, over the same code.
pub fn copy_body(alloc: Global, body: &Body) -> Result<Body, NoMemory>
    ensures { IfOk result (λ b. b ≡ body.now) }
{
    Ok(Body {
        code: body.code.share()?,
        machine: body.machine,
        node: body.node,
        frame: copy_frame(alloc, &body.frame)?,
        below: copy_frames(alloc, &body.below)?,
    })
}
