//! What is looked up in the entries of a unit: first places and labels.

ghost use Rattle.std.specs.Prelude.{◌≡◌, ℕ, ◌<◌, length, IfOk};
ghost use Rattle.std.specs.BTreeMap.{get};
ghost use Rattle.std.specs.Ordering.{nat_cmp};
ghost use Rattle.fm_tree.specs.Labels.{first_executable, first_where, target};
ghost use Rattle.fm_tree.specs.Layout.{is_this_label};
ghost use Rattle.fm_tree.specs.Units.{mark_at};
ghost use Rattle.fm_rules.specs.StructureLookups.{has_end, is_before, wanted_label};

use fm_base::{Label, NoMemory};
use fm_tree::{EntryMark, is_end, is_executable};
use std::alloc::Global;
use std::collections::BTreeMap;

/// Whether there is a place, and it comes before `k`.
pub(crate) fn is_before(place: Option<usize>, k: usize) -> bool
    ensures { result ≡ is_before place k }
{
    match place {
        Some(place) => place < k,
        None => false,
    }
}

/// The first executable statement.
pub(crate) fn first_executable(entries: &[EntryMark]) -> Option<usize>
    ensures { result ≡ first_executable entries.now }
{
    let mut first = None;
    'entries: for k in (0..entries.len()).rev() {
        if is_executable(entries[k].form) {
            first = Some(k);
        }
    }
    first
}

/// Whether the unit has its END.
pub(crate) fn has_end(entries: &[EntryMark]) -> bool
    ensures { result ≡ has_end entries.now }
{
    'entries: for entry in entries {
        if is_end(entry.form) {
            return true;
        }
    }
    false
}

/// The entry at a place.
fn mark_at(entries: &[EntryMark], k: usize) -> EntryMark
    requires { k < length entries.now }
    ensures { result ≡ mark_at entries.now k }
{
    entries[k]
}

/// The label of an entry, or only that of an executable one.
fn wanted_label(only_executable: bool, entry: EntryMark) -> Option<Label>
    ensures { result ≡ wanted_label only_executable entry }
{
    if only_executable {
        if is_executable(entry.form) {
            entry.label
        } else {
            None
        }
    } else {
        entry.label
    }
}

/// For each label the first statement, or the first executable one, that has it.
pub(crate) fn first_places(
    alloc: Global,
    only_executable: bool,
    entries: &[EntryMark],
) -> Result<BTreeMap<u32, usize>, NoMemory>
    ensures { IfOk result (λ m. (q : ℕ)
        → get nat_cmp m q
        ≡ first_where (λ e. is_this_label (record { 0 = q }) (wanted_label only_executable e)) entries.now 0) }
{
    let mut places = BTreeMap::new(alloc);
    // From the back, so that the first place is what stays.
    'marks: for k in (0..entries.len()).rev() {
        if let Some(label) = wanted_label(only_executable, mark_at(entries, k)) {
            places.insert(label.0, k)?;
        }
    }
    Ok(places)
}

/// For each label the first executable entry that has it: where a jump to the label goes.
pub fn label_targets(alloc: Global, entries: &[EntryMark]) -> Result<BTreeMap<u32, usize>, NoMemory>
    ensures { IfOk result (λ m. (q : ℕ) → get nat_cmp m q ≡ target entries.now (record { 0 = q })) }
{
    let targets = first_places(alloc, true, entries)?;
    Ok(targets)
}
