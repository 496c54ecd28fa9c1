//! Jumps, failed tests, and loops without trips.

ghost use Rattle.std.specs.Prelude.{◌≡◌, ◌<◌, ◌+◌, ℕ, true, length, slice_get, IfOk};
ghost use Rattle.std.specs.BTreeMap.{get};
ghost use Rattle.std.specs.Ordering.{nat_cmp};
ghost use Rattle.fm_tree.specs.Blocks.{branch_end, end_list};
ghost use Rattle.fm_tree.specs.Labels.{jump_label, target};
ghost use Rattle.fm_tree.specs.Units.{form_at};
ghost use Rattle.fm_rules.specs.Program.{all_links};
ghost use Rattle.fm_rules.specs.Links.{after_at, behind_loop, into_branch, jump_by, links_of, mark_of, marks_of, mate_in, other_by, parted};

use crate::linking::number;
use fm_base::{NoMemory, Seq};
use fm_rules::EntryLinks;
use fm_tree::{Entry, EntryMark, Form, Unit, form_of, is_else, jump_label};
use fm_unit_structure::{ends_of, label_targets};
use std::alloc::Global;
use std::collections::BTreeMap;

#[tactic(auto, unfolding(fm_rules::specs::Links::parted))]
fn parted(form: Form) -> Form
    ensures { result ≡ parted form }
{
    match form {
        Form::ElseIf(_) => Form::ElseIf(true),
        Form::Else(_) => Form::Else(true),
        other => other,
    }
}

fn mark_of(entry: &Entry) -> EntryMark
    ensures { result ≡ mark_of entry.now }
{
    EntryMark {
        line: entry.line,
        label: entry.label,
        form: parted(form_of(&entry.stmt)),
        place: 0,
    }
}

fn marks(alloc: Global, body: &[Entry]) -> Result<Vec<EntryMark>, NoMemory>
    ensures { IfOk result (λ v. v.items ≡ marks_of body.now) }
{
    let mut marks = Vec::new(alloc);
    'entries: for entry in body {
        marks.push(mark_of(entry))?;
    }
    Ok(marks)
}

fn next_of(k: usize) -> Result<u32, NoMemory>
    ensures { IfOk result (λ number. number ≡ k + 1) }
{
    number(k.checked_add(1).ok_or(NoMemory)?)
}

fn after_at(body: &[Entry], k: usize) -> Result<u32, NoMemory>
    ensures { IfOk result (λ number. number ≡ after_at body.now k) }
{
    match body.get(k) {
        Some(entry) => Ok(entry.after),
        None => next_of(k),
    }
}

fn mate_at(body: &[Entry], k: usize) -> Option<u32>
    ensures { result ≡ mate_in (slice_get body.now k) }
{
    match body.get(k) {
        Some(entry) => entry.mate,
        None => None,
    }
}

fn behind_loop(body: &[Entry], k: usize) -> Result<u32, NoMemory>
    ensures { IfOk result (λ number. number ≡ behind_loop body.now k) }
{
    match mate_at(body, k) {
        Some(end) => after_at(body, end as usize),
        None => next_of(k),
    }
}

fn form_at(marks: &[EntryMark], k: usize) -> Form
    ensures { result ≡ form_at marks.now k }
{
    match marks.get(k) {
        Some(mark) => mark.form,
        None => Form::End,
    }
}

fn into_branch(marks: &[EntryMark], k: usize, end: Option<usize>) -> Result<u32, NoMemory>
    ensures { IfOk result (λ number. number ≡ into_branch marks.now k end) }
{
    match end {
        Some(end) => {
            if is_else(form_at(marks, end)) {
                next_of(end)
            } else {
                number(end)
            }
        }
        None => next_of(k),
    }
}

/// Where the entry at `k` goes besides; `end` is where a branch that starts there ends.
#[tactic(auto, unfolding(fm_rules::specs::Links::other_by))]
fn other_at(
    body: &[Entry],
    marks: &[EntryMark],
    k: usize,
    end: Option<usize>,
) -> Result<u32, NoMemory>
    requires { end ≡ branch_end marks.now k }
    ensures { IfOk result (λ number. number ≡ other_by (form_at marks.now k) body.now marks.now k) }
{
    match form_at(marks, k) {
        Form::Test => after_at(body, k.checked_add(1).ok_or(NoMemory)?),
        Form::BlockIf => into_branch(marks, k, end),
        Form::ElseIf(_) => into_branch(marks, k, end),
        Form::DoWhile => behind_loop(body, k),
        Form::Do(_) => behind_loop(body, k),
        Form::ProcessDo(_) => behind_loop(body, k),
        _ => after_at(body, k),
    }
}

fn jump_at(
    marks: &[EntryMark],
    targets: &BTreeMap<u32, usize>,
    k: usize,
) -> Result<Option<u32>, NoMemory>
    requires { (q : ℕ) → get nat_cmp targets.now q ≡ target marks.now (record { 0 = q }) }
    ensures { IfOk result (λ o. o ≡ jump_by marks.now (jump_label (form_at marks.now k))) }
{
    let Some(label) = jump_label(form_at(marks, k)) else {
        return Ok(None);
    };
    match targets.get(&label.0).copied() {
        Some(place) => Ok(Some(number(place)?)),
        None => Ok(None),
    }
}

/// Where the branch that starts at `k` ends.
fn end_at(ends: &[Option<usize>], marks: &[EntryMark], k: usize) -> Option<usize>
    requires ends { ends.now ≡ end_list true marks.now }
    requires within { k < length marks.now }
    ensures { result ≡ branch_end marks.now k }
{
    ends[k]
}

/// Where each entry of a body leads to. The body is that of a unit that breaks no rule; of any other the answer is by
/// the same definition, and of no use.
pub fn links(alloc: Global, body: &[Entry]) -> Result<Seq<EntryLinks>, NoMemory>
    ensures { IfOk result (λ v. v ≡ links_of body.now) }
{
    let marks = marks(alloc, body)?;
    let targets = label_targets(alloc, &marks)?;
    let ends = ends_of(alloc, true, &marks)?;
    let mut links = Seq::new(alloc);
    'entries: for k in 0..marks.len() {
        let jump = jump_at(&marks, &targets, k)?;
        let other = other_at(body, &marks, k, end_at(&ends, &marks, k))?;
        links.push(EntryLinks { jump, other })?;
    }
    Ok(links)
}

/// Where the entries of each unit lead to.
pub fn all_links(alloc: Global, units: &[Unit]) -> Result<Seq<Seq<EntryLinks>>, NoMemory>
    ensures { IfOk result (λ v. v ≡ all_links units.now) }
{
    let mut all = Seq::new(alloc);
    'units: for unit in units {
        all.push(links(alloc, unit.body.as_slice())?)?;
    }
    Ok(all)
}
