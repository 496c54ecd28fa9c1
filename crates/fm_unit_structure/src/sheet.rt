//! A unit's entries with all that the rules look up.

ghost use Rattle.std.specs.Prelude.{◌≡◌, ℕ, ◌<◌, true, false, length, IfOk, IfSome};
ghost use Rattle.std.specs.BTreeMap.{get};
ghost use Rattle.std.specs.Ordering.{nat_cmp};
ghost use Rattle.fm_tree.specs.Blocks.{branch_end, end_list, inner_list, innermost, mate_of};
ghost use Rattle.fm_tree.specs.Labels.{first_executable, first_labelled, target};
ghost use Rattle.fm_tree.specs.Units.{form_at};
ghost use Rattle.fm_rules.specs.StructureLookups.{block_round, form_or_end, has_end, label_at, line_at, target_of};

use crate::blocks::{ends_of, innermost_of};
use crate::lookups::{first_executable, first_places, has_end};
use fm_base::{Label, Line, NoMemory};
use fm_tree::{EntryMark, Form, Open, stands_outside};
use std::alloc::Global;
use std::collections::BTreeMap;

/// The entries of a unit, with what the rules look up.
#[derive(Drop)]
pub(crate) struct Sheet<'a> {
    entries: &'a [EntryMark],
    /// The innermost block that is open before each entry.
    inner: Vec<Option<Open>>,
    /// The end of the block that each entry opens.
    mates: Vec<Option<usize>>,
    /// The end of the branch that starts at each entry.
    ends: Vec<Option<usize>>,
    /// The first statement with each label.
    labels: BTreeMap<u32, usize>,
    /// The first executable statement with each label.
    targets: BTreeMap<u32, usize>,
    /// The first executable statement.
    executable: Option<usize>,
    /// Whether the unit has its END.
    is_whole: bool,
    ghost inner_is: { inner.items ≡ inner_list entries.now },
    ghost mates_is: { mates.items ≡ end_list false entries.now },
    ghost ends_is: { ends.items ≡ end_list true entries.now },
    ghost labels_is: { (q : ℕ) → get nat_cmp labels q ≡ first_labelled entries.now (record { 0 = q }) },
    ghost targets_is: { (q : ℕ) → get nat_cmp targets q ≡ target entries.now (record { 0 = q }) },
    ghost executable_is: { executable ≡ first_executable entries.now },
    ghost whole_is: { is_whole ≡ has_end entries.now },
}

impl<'a> Sheet<'a> {
    /// The unit of some entries.
    pub(crate) fn new(alloc: Global, entries: &'a [EntryMark]) -> Result<Sheet<'a>, NoMemory>
        ensures { IfOk result (λ s. s.entries.now ≡ entries.now) }
    {
        let inner = innermost_of(alloc, entries)?;
        let mates = ends_of(alloc, false, entries)?;
        let ends = ends_of(alloc, true, entries)?;
        let labels = first_places(alloc, false, entries)?;
        let targets = first_places(alloc, true, entries)?;
        let executable = first_executable(entries);
        let is_whole = has_end(entries);
        Ok(Sheet {
            entries,
            inner,
            mates,
            ends,
            labels,
            targets,
            executable,
            is_whole,
        })
    }

    pub(crate) fn form_at(&self, k: usize) -> Form
        requires { k < length self.now.entries.now }
        ensures { result ≡ form_at self.now.entries.now k }
    {
        self.entries[k].form
    }

    pub(crate) fn label_at(&self, k: usize) -> Option<Label>
        requires { k < length self.now.entries.now }
        ensures { result ≡ label_at self.now.entries.now k }
    {
        self.entries[k].label
    }

    pub(crate) fn line_at(&self, k: usize) -> Line
        requires { k < length self.now.entries.now }
        ensures { result ≡ line_at self.now.entries.now k }
    {
        self.entries[k].line
    }

    /// The innermost block that is open before an entry.
    pub(crate) fn inner_at(&self, k: usize) -> Option<Open>
        requires { k < length self.now.entries.now }
        ensures value { result ≡ innermost self.now.entries.now k }
        ensures below { IfSome result (λ o. (o.at < k) × (o.start < k)) }
    {
        self.inner[k]
    }

    /// The end of the block that an entry opens.
    pub(crate) fn mate_at(&self, k: usize) -> Option<usize>
        requires { k < length self.now.entries.now }
        ensures value { result ≡ mate_of self.now.entries.now k }
        ensures within { IfSome result (λ j. j < length self.now.entries.now) }
    {
        self.mates[k]
    }

    /// The end of the branch that starts at an entry.
    pub(crate) fn end_at(&self, k: usize) -> Option<usize>
        requires { k < length self.now.entries.now }
        ensures { result ≡ branch_end self.now.entries.now k }
    {
        self.ends[k]
    }

    /// The form of what ends the block that an entry opens; END where nothing does.
    pub(crate) fn form_of_end(&self, k: usize) -> Form
        requires { k < length self.now.entries.now }
        ensures { result ≡ form_or_end self.now.entries.now (mate_of self.now.entries.now k) }
    {
        match self.mate_at(k) {
            Some(end) => self.form_at(end),
            None => Form::End,
        }
    }

    /// The first executable statement.
    pub(crate) fn first_executable(&self) -> Option<usize>
        ensures { result ≡ first_executable self.now.entries.now }
    {
        self.executable
    }

    /// Whether the unit has its END.
    pub(crate) fn has_end(&self) -> bool
        ensures { result ≡ has_end self.now.entries.now }
    {
        self.is_whole
    }

    /// The first statement with a label.
    pub(crate) fn first_labelled(&self, label: Label) -> Option<usize>
        ensures { result ≡ first_labelled self.now.entries.now label }
    {
        self.labels.get(&label.0).copied()
    }

    /// The first executable statement with a label.
    pub(crate) fn target(&self, label: Label) -> Option<usize>
        ensures { result ≡ target self.now.entries.now label }
    {
        self.targets.get(&label.0).copied()
    }

    /// Where the jump to a label, if it is one, goes.
    pub(crate) fn target_of(&self, label: Option<Label>) -> Option<usize>
        ensures value { result ≡ target_of self.now.entries.now label }
        ensures within { IfSome result (λ t. t < length self.now.entries.now) }
    {
        match label {
            Some(label) => self.target(label),
            None => None,
        }
    }

    /// The innermost block round an entry, with its branch.
    pub(crate) fn block_round(&self, k: usize) -> Option<Open>
        requires { k < length self.now.entries.now }
        ensures value { result ≡ block_round self.now.entries.now k }
        ensures below { IfSome result (λ o. o.start < length self.now.entries.now) }
    {
        match self.inner_at(k) {
            Some(block) => {
                if stands_outside(self.form_at(k), block) {
                    self.inner_at(block.at)
                } else {
                    Some(block)
                }
            }
            None => None,
        }
    }
}
