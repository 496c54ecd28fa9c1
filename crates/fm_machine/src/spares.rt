//! Frames that are used again.

ghost use Rattle.std.specs.Prelude.{◌≡◌, ◌⊎◌, ◌∷◌, drop};

use fm_base::Seq;
use fm_code::{Frame, Pile, Rare};
use std::alloc::Global;

/// How many frames are kept.
const KEPT: usize = 8;

/// A frame that returned is kept, as long as there are few of them.
#[inline(always)]
pub(crate) fn keep(spare: &mut Pile<Frame>, frame: Frame)
    ensures { (spare.new ≡ frame ∷ spare.old) ⊎ (spare.new ≡ spare.old) }
{
    if spare.outermost_first().len() < KEPT {
        // Where there is no memory to keep it, it goes.
        let _ = spare.push(frame);
    }
}

/// A frame that returned, or an empty one where there is none. What is in it means nothing.
#[inline(never)]
pub(crate) fn spare_frame(alloc: Global, spare: &mut Pile<Frame>) -> Frame
    ensures { spare.new ≡ drop 1 spare.old }
{
    if let Some(frame) = spare.pop() {
        return frame;
    }
    Frame {
        unit: 0,
        address: 0,
        words: Seq::new(alloc),
        loops: Seq::new(alloc),
        results: Seq::new(alloc),
        starts: Rare::new(alloc),
        backs: Seq::new(alloc),
    }
}
