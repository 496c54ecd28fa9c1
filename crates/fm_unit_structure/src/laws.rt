//! What a jump into a block is.

ghost use Rattle.fm_unit_structure.specs.Laws.{JumpsAgree};

/// The test of a jump holds exactly where the block path of its target is no prefix of its own, or the target is ELSE
/// or ELSEIF.
pub fn jumps_agree()
    ensures { JumpsAgree }
{}
