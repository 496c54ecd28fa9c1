//! What blocks and mates are: laws on the marks of a unit's entries. Each function has an empty body: its contract is a
//! law.
#![tactic(auto)]

ghost use Rattle.fm_tree_blocks.specs.Laws.{BlocksNest, ClosersMatch, MatesCount, PathsAgree};

/// The block path of a place is a prefix of that of another one exactly where its innermost branch holds the other.
pub fn paths_agree()
    ensures { PathsAgree }
{}

/// The mate is the first place with as many closers as openers.
pub fn mates_count()
    ensures { MatesCount }
{}

/// An opener inside a block has its mate inside the block.
pub fn blocks_nest()
    ensures { BlocksNest }
{}

/// A closer is the mate of the opener of the block that is innermost before it.
pub fn closers_match()
    ensures { ClosersMatch }
{}
