//! Ports that are let go.

ghost use Rattle.std.specs.Prelude.{◌≡◌, ◌==◌, [], length, option_map, option_to_list};
ghost use Rattle.fm_rules.specs.declared.program.Program as declared;
ghost use Rattle.fm_mean.specs.Places.{live};
ghost use Rattle.fm_mean.specs.Process.{frames_ports};
ghost use Rattle.fm_plain_frame.specs.Frames.{frame_of};
ghost use Rattle.fm_plain_frame.specs.LetGo.{let_go_ports};

use crate::emptiness::{are_null, frame_has_no_port, frames_have_no_port};
use crate::frame::Frame;
use fm_base::PortValue;
use fm_rules::Program;
use std::alloc::Global;

/// Ports that a step lets go, in order: those that were put out of their places, those of a frame that is gone and of
/// those round it, and those of a frame that stays. They stay where they are, so that letting go takes no memory.
/// `Leaving` hands them out.
#[derive(Drop)]
pub struct LetGo {
    /// Put out by others.
    pub replaced: Vec<Option<PortValue>>,
    /// The innermost frame that is gone.
    pub top: Option<Frame>,
    /// The other frames that are gone, the outermost first.
    pub below: Vec<Frame>,
    /// Taken out of a frame that stays.
    pub taken: Vec<Option<PortValue>>,
}

fn top_has_no_port(program: &Program, top: &Option<Frame>) -> bool
    ensures { result ≡ (length (frames_ports (option_to_list (option_map (frame_of program.now) top.now))) == 0) }
{
    match top {
        None => true,
        Some(frame) => frame_has_no_port(program, frame),
    }
}

impl LetGo {
    /// No port is let go. Takes no memory.
    pub fn new(alloc: Global) -> LetGo
        ensures { (p : declared.Program) → let_go_ports p result ≡ [] }
    {
        LetGo {
            replaced: Vec::new(alloc),
            top: None,
            below: Vec::new(alloc),
            taken: Vec::new(alloc),
        }
    }

    /// Ports that were put out of their places are let go. Takes no memory.
    pub fn of_replaced(alloc: Global, replaced: Vec<Option<PortValue>>) -> LetGo
        ensures { (p : declared.Program) → let_go_ports p result ≡ live replaced.items }
    {
        LetGo {
            replaced,
            top: None,
            below: Vec::new(alloc),
            taken: Vec::new(alloc),
        }
    }

    /// Whether no port is let go.
    pub fn is_empty(&self, program: &Program) -> bool
        ensures { result ≡ (length (let_go_ports program.now self.now) == 0) }
    {
        if !are_null(self.replaced.as_slice()) {
            return false;
        }
        if !top_has_no_port(program, &self.top) {
            return false;
        }
        if !frames_have_no_port(program, self.below.as_slice()) {
            return false;
        }
        are_null(self.taken.as_slice())
    }
}
