//! The rules of a unit's structure.

ghost use Rattle.std.specs.Prelude.{◌≡◌, ◌<◌, length, IfOk, IfSome};
ghost use Rattle.fm_base.specs.Verdict.{least_from};
ghost use Rattle.fm_rules.specs.BrokenUnit.{broken_at, broken_in_unit};
ghost use Rattle.fm_rules.specs.StructureRules.{holds, is_badly_ended, is_foreign, is_misplaced, is_unmatched, is_upto, jumps_in, jumps_into_block, lacks_target, repeats_label};

use crate::forms::{badly_ended, belongs, misplaced, opener_of, unmatched};
use crate::lookups::is_before;
use crate::sheet::Sheet;
use fm_base::{NoMemory, Refusal, Rule, keep_if};
use fm_tree::{EntryMark, Open, is_closed_by, is_separator, jump_label, makes_processes};
use std::alloc::Global;

fn is_upto(k: usize, end: Option<usize>) -> bool
    ensures { result ≡ is_upto k end }
{
    match end {
        Some(end) => k <= end,
        None => true,
    }
}

impl<'a> Sheet<'a> {
    /// E20: a statement out of place.
    fn is_misplaced(&self, k: usize) -> bool
        requires { k < length self.now.entries.now }
        ensures { result ≡ is_misplaced self.now.entries.now k }
    {
        let late = is_before(self.first_executable(), k);
        let opener = opener_of(self.inner_at(k));
        misplaced(self.form_at(k), k == 0, late, self.form_at(0), opener)
    }

    /// E21: an end or a separator that doesn't fit, or a block that is open at END.
    fn is_unmatched(&self, k: usize) -> bool
        requires { k < length self.now.entries.now }
        ensures { result ≡ is_unmatched self.now.entries.now k }
    {
        let open_at_end = self.has_end() && self.mate_at(k).is_none();
        unmatched(self.form_at(k), opener_of(self.inner_at(k)), open_at_end)
    }

    /// E22: an earlier statement has the label.
    fn repeats_label(&self, k: usize) -> bool
        requires { k < length self.now.entries.now }
        ensures { result ≡ repeats_label self.now.entries.now k }
    {
        match self.label_at(k) {
            Some(label) => is_before(self.first_labelled(label), k),
            None => false,
        }
    }

    /// E23: no executable statement has the label that is jumped to.
    fn lacks_target(&self, k: usize) -> bool
        requires { k < length self.now.entries.now }
        ensures { result ≡ lacks_target self.now.entries.now k }
    {
        match jump_label(self.form_at(k)) {
            Some(label) => self.target(label).is_none(),
            None => false,
        }
    }

    /// Whether a branch, if it is one, holds an entry.
    fn holds(&self, branch: Option<Open>, k: usize) -> bool
        requires { IfSome branch (λ o. o.start < length self.now.entries.now) }
        ensures { result ≡ holds self.now.entries.now branch k }
    {
        match branch {
            Some(block) => block.start < k && is_upto(k, self.end_at(block.start)),
            None => true,
        }
    }

    /// Whether a jump from `k` to `t` goes into a block.
    fn jumps_in(&self, k: usize, t: usize) -> bool
        requires { t < length self.now.entries.now }
        ensures { result ≡ jumps_in self.now.entries.now k t }
    {
        is_separator(self.form_at(t)) || !self.holds(self.block_round(t), k)
    }

    /// E24: a jump into a block, or to ELSE or ELSEIF.
    fn jumps_into_block(&self, k: usize) -> bool
        requires { k < length self.now.entries.now }
        ensures { result ≡ jumps_into_block self.now.entries.now k }
    {
        match self.target_of(jump_label(self.form_at(k))) {
            Some(target) => self.jumps_in(k, target),
            None => false,
        }
    }

    /// E25: a labelled loop without an end that may end it.
    fn is_badly_ended(&self, k: usize) -> bool
        requires { k < length self.now.entries.now }
        ensures { result ≡ is_badly_ended self.now.entries.now k }
    {
        badly_ended(self.form_at(k), self.form_of_end(k))
    }

    /// E29: a statement directly in a process block that may not stand there.
    fn is_foreign(&self, k: usize) -> bool
        requires { k < length self.now.entries.now }
        ensures { result ≡ is_foreign self.now.entries.now k }
    {
        match self.inner_at(k) {
            Some(block) => {
                let ends_block = is_closed_by(self.label_at(k), block);
                makes_processes(block.form) && !belongs(self.form_at(k), ends_block)
            }
            None => false,
        }
    }

    /// The earliest of the best so far and of what an entry breaks.
    fn keep_broken(&self, k: usize, best: Option<Refusal>) -> Option<Refusal>
        requires { k < length self.now.entries.now }
        ensures { result ≡ least_from best (broken_at self.now.entries.now k) }
    {
        let line = self.line_at(k);
        let best = keep_if(best, self.is_misplaced(k), line, Rule::E20);
        let best = keep_if(best, self.is_unmatched(k), line, Rule::E21);
        let best = keep_if(best, self.repeats_label(k), line, Rule::E22);
        let best = keep_if(best, self.lacks_target(k), line, Rule::E23);
        let best = keep_if(best, self.jumps_into_block(k), line, Rule::E24);
        let best = keep_if(best, self.is_badly_ended(k), line, Rule::E25);
        keep_if(best, self.is_foreign(k), line, Rule::E29)
    }
}

/// The earliest of the best so far and of the broken places of a unit of these entries. Fails only for want of memory.
pub fn structure(
    alloc: Global,
    entries: &[EntryMark],
    best: Option<Refusal>,
) -> Result<Option<Refusal>, NoMemory>
    ensures { IfOk result (λ v. v ≡ least_from best (broken_in_unit entries.now)) }
{
    let sheet = Sheet::new(alloc, entries)?;
    let mut best = best;
    'entries: for k in 0..entries.len() {
        best = sheet.keep_broken(k, best);
    }
    Ok(best)
}
