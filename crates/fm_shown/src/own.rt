//! The frame whose variables are shown.

ghost use Rattle.std.specs.Prelude.{◌≡◌};
ghost use Rattle.fm_shown.specs.Outcome.{own_frame};

use fm_code::{Body, Frame};

/// The frame of the process itself, below those of calls.
pub fn own_frame(body: &Body) -> &Frame
    ensures { result.now ≡ own_frame body.now.frame body.now.below }
{
    match body.below.outermost_first().first() {
        Some(frame) => frame,
        None => &body.frame,
    }
}
