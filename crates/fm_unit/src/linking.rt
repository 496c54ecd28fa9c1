//! The links between the entries of a body.

ghost use Rattle.std.specs.Prelude.{◌≡◌, ◌<◌, ◌+◌, false, length, IfOk, IfSome};
ghost use Rattle.fm_tree.specs.Blocks.{end_list, head_of, inner_list, innermost, mate_of};
ghost use Rattle.fm_tree.specs.Structure.{is_separator};
ghost use Rattle.fm_tree.specs.Units.{after_of, block_path, branch_in, form_at, mark_at, or_next, other_end, place_in};
ghost use Rattle.fm_unit.specs.Entries.{end_for};

use fm_base::NoMemory;
use fm_tree::{Bracket, EntryMark, Open, bracket_of, is_separator, stands_outside};
use fm_unit_structure::{ends_of, innermost_of};
use std::alloc::Global;

/// The place of a block's opener.
pub(crate) fn place_in(block: Option<Open>) -> Option<usize>
    ensures { result ≡ place_in block }
{
    match block {
        None => None,
        Some(block) => Some(block.at),
    }
}

/// The branch of a block that is open.
pub(crate) fn branch_in(block: Option<Open>) -> usize
    ensures { result ≡ branch_in block }
{
    match block {
        None => 0,
        Some(block) => block.branch,
    }
}

fn end_for(bracket: Bracket, inner: Option<Open>, end: Option<usize>) -> Option<usize>
    ensures { result ≡ end_for bracket inner end }
{
    match bracket {
        Bracket::Opens => end,
        Bracket::Closes => place_in(inner),
        Bracket::Parts => None,
        Bracket::Stays => None,
    }
}

/// The marks of a body, with its blocks.
#[derive(Drop)]
pub(crate) struct Body<'a> {
    marks: &'a [EntryMark],
    /// The innermost block that is open before each entry.
    inner: Vec<Option<Open>>,
    /// The end of what is innermost behind each entry.
    mates: Vec<Option<usize>>,
    ghost inner_is: { inner.items ≡ inner_list marks.now },
    ghost mates_is: { mates.items ≡ end_list false marks.now },
}

impl<'a> Body<'a> {
    /// The body of some marks.
    pub(crate) fn new(alloc: Global, marks: &'a [EntryMark]) -> Result<Body<'a>, NoMemory>
        ensures { IfOk result (λ b. b.marks.now ≡ marks.now) }
    {
        let inner = innermost_of(alloc, marks)?;
        let mates = ends_of(alloc, false, marks)?;
        Ok(Body {
            marks,
            inner,
            mates,
        })
    }

    /// The mark of an entry.
    pub(crate) fn mark_at(&self, place: usize) -> EntryMark
        requires { place < length self.now.marks.now }
        ensures { result ≡ mark_at self.now.marks.now place }
    {
        self.marks[place]
    }

    /// The innermost block that is open before an entry.
    fn inner_at(&self, place: usize) -> Option<Open>
        requires { place < length self.now.marks.now }
        ensures value { result ≡ innermost self.now.marks.now place }
        ensures below { IfSome result (λ o. o.at < place) }
    {
        self.inner[place]
    }

    /// The end of what is innermost behind an entry.
    fn mate_at(&self, place: usize) -> Option<usize>
        requires { place < length self.now.marks.now }
        ensures { result ≡ mate_of self.now.marks.now place }
    {
        self.mates[place]
    }

    /// The innermost block round an entry, with its branch.
    pub(crate) fn block_round(&self, place: usize) -> Option<Open>
        requires { place < length self.now.marks.now }
        ensures { result ≡ head_of (block_path self.now.marks.now place) }
    {
        match self.inner_at(place) {
            Some(block) => {
                if stands_outside(self.mark_at(place).form, block) {
                    self.inner_at(block.at)
                } else {
                    Some(block)
                }
            }
            None => None,
        }
    }

    /// The other end of the block that an entry opens or closes.
    pub(crate) fn other_end(&self, place: usize) -> Option<usize>
        requires { place < length self.now.marks.now }
        ensures { result ≡ other_end self.now.marks.now place }
    {
        let bracket = bracket_of(self.mark_at(place).form);
        end_for(bracket, self.inner_at(place), self.mate_at(place))
    }

    /// Whether a branch begins at a place.
    fn is_separated(&self, place: usize) -> bool
        ensures { result ≡ is_separator (form_at self.now.marks.now place) }
    {
        if place < self.marks.len() {
            is_separator(self.mark_at(place).form)
        } else {
            false
        }
    }

    /// The end of what is innermost behind an entry, or else the next entry.
    fn mate_or(&self, place: usize, next: usize) -> usize
        requires place { place < length self.now.marks.now }
        requires next { next ≡ place + 1 }
        ensures { result ≡ or_next (mate_of self.now.marks.now place) place }
    {
        match self.mate_at(place) {
            Some(end) => end,
            None => next,
        }
    }

    /// The entry that comes after an entry.
    pub(crate) fn after(&self, place: usize) -> usize
        requires { place < length self.now.marks.now }
        ensures { result ≡ after_of self.now.marks.now place }
    {
        let next = place + 1;
        if self.is_separated(next) {
            self.mate_or(place, next)
        } else {
            next
        }
    }
}

/// A place as programs have it.
pub(crate) fn number(place: usize) -> Result<u32, NoMemory>
    ensures { IfOk result (λ number. number ≡ place) }
{
    u32::try_from(place).map_err(|_| NoMemory)
}

/// The same of a place that may be none.
pub(crate) fn number_if(place: Option<usize>) -> Result<Option<u32>, NoMemory>
    ensures { IfOk result (λ number. number ≡ place) }
{
    match place {
        None => Ok(None),
        Some(place) => Ok(Some(number(place)?)),
    }
}
