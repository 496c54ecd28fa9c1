//! Where the names of a unit break a rule.
#![tactic(auto, using(fm_base::proofs::Least::least_from_append))]

ghost use Rattle.std.specs.Prelude.{◌≡◌, nat_lt, IfOk};
ghost use Rattle.std.specs.List.{flat_map};
ghost use Rattle.fm_base.specs.Verdict.{least_from};
ghost use Rattle.fm_rules.specs.BrokenNames.{broken_with, has_type, is_untyped, untyped_at};
ghost use Rattle.fm_names.specs.Layouts.{words_if};
ghost use Rattle.fm_rules.specs.Variables.{all_words, is_variable, variables_among, words_of};

use crate::variables::{is_variable, words_of};
use fm_base::{Name, NoMemory, Refusal, Rule, keep_if};
use fm_finmap::NameMap;
use fm_names_constants::{begins_integer, judge_constants};
use fm_names_declared::{is_other_function, judge_declarations};
use fm_rules::{Occurrence, Sheet};
use fm_tree::{Stmt, Unit};
use std::alloc::Global;

fn has_type(sheet: &Sheet, name: &Name) -> bool
    ensures { result ≡ has_type sheet.now name.now }
{
    sheet.kinds.contains_key(name) || sheet.types.implicit && begins_integer(name)
}

fn is_untyped(titles: &NameMap<bool>, heading: &Stmt, sheet: &Sheet, name: &Name) -> bool
    ensures { result ≡ is_untyped titles.now heading.now sheet.now name.now }
{
    !(has_type(sheet, name) || is_other_function(titles, heading, name))
}

fn judge_untyped(
    titles: &NameMap<bool>,
    heading: &Stmt,
    sheet: &Sheet,
    first: &[Occurrence],
    best: Option<Refusal>,
) -> Option<Refusal>
    ensures { result ≡ least_from best (flat_map (untyped_at titles.now heading.now sheet.now) first.now) }
{
    let mut best = best;
    'first: for occurrence in first {
        let untyped = is_untyped(titles, heading, sheet, &occurrence.name);
        best = keep_if(best, untyped, occurrence.line, Rule::E31);
    }
    best
}

fn variable_words(titles: &NameMap<bool>, heading: &Stmt, sheet: &Sheet, name: &Name) -> u32
    ensures { result ≡ words_if (is_variable titles.now heading.now sheet.now name.now) (words_of sheet.now name.now) }
{
    if is_variable(titles, heading, sheet, name) {
        words_of(sheet, name)
    } else {
        0
    }
}

fn are_long(titles: &NameMap<bool>, heading: &Stmt, sheet: &Sheet, first: &[Occurrence]) -> bool
    ensures { result ≡ nat_lt 65536 (all_words sheet.now (variables_among titles.now heading.now sheet.now first.now)) }
{
    let mut words: u64 = 0;
    'first: for occurrence in first {
        words += u64::from(variable_words(titles, heading, sheet, &occurrence.name));
        if words > 65536 {
            return true;
        }
    }
    false
}

/// The least of the best so far and of the places where the names of a unit break a rule.
pub(crate) fn judge_unit(
    alloc: Global,
    titles: &NameMap<bool>,
    unit: &Unit,
    sheet: &Sheet,
    best: Option<Refusal>,
) -> Result<Option<Refusal>, NoMemory>
    ensures { IfOk result (λ least. least ≡ least_from best (broken_with titles.now unit.now sheet.now)) }
{
    let heading = &unit.heading.stmt;
    let first = sheet.first.as_slice();
    let best = judge_declarations(alloc, titles, unit, best)?;
    let best = judge_constants(&sheet.known, &sheet.types, unit.specs.as_slice(), best);
    let best = judge_untyped(titles, heading, sheet, first, best);
    let long = are_long(titles, heading, sheet, first);
    Ok(keep_if(best, long, unit.heading.line, Rule::E34))
}
