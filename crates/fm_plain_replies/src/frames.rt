//! The innermost frame of a process.

ghost use Rattle.std.specs.Prelude.{◌≡◌, None, []};
ghost use Rattle.fm_rules.specs.declared.program.Program.{Program};
ghost use Rattle.fm_mean.specs.Actions.{at_entry};
ghost use Rattle.fm_plain_frame.specs.Frames.{frame_of, frames_of};

use fm_plain_frame::Frame;
use std::mem::swap;

/// Puts the innermost frame, if there is one, into its own place.
pub(crate) fn raise(top: &mut Option<Frame>, below: &mut Vec<Frame>)
    ensures same { (p : Program) → frames_of p top.new below.new.items ≡ frames_of p top.old below.old.items }
    ensures none { top.new ≡ None → below.new.items ≡ [] }
{
    if top.is_none() {
        let mut innermost = below.pop();
        swap(top, &mut innermost);
    }
}

/// The frame goes on at an entry.
pub(crate) fn go_to(frame: &mut Frame, entry: u32)
    ensures { (p : Program) → frame_of p frame.new ≡ at_entry (frame_of p frame.old) entry }
{
    frame.entry = entry;
    frame.results.clear();
}
