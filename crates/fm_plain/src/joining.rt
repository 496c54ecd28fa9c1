//! Where a process goes on behind a block.

ghost use Rattle.std.specs.Prelude.{◌≡◌};
ghost use Rattle.fm_mean.specs.Actions.{after_at};
ghost use Rattle.fm_mean.specs.Names.{unit_at};

use fm_plain_frame::{Frame, UnitView};
use fm_rules::Program;

/// The entry behind the one at which a frame is, or 0 where it is at none.
pub fn after_at(program: &Program, top: &Frame) -> u32
    ensures { result ≡ after_at (unit_at program.now top.now.unit) top.now.entry }
{
    match UnitView::new(program, top.unit) {
        None => 0,
        Some(unit) => match unit.entry(top.entry) {
            None => 0,
            Some((entry, _)) => entry.after,
        },
    }
}
