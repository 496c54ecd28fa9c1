//! The units of a source, or the least rule of structure that it breaks.

ghost use Rattle.std.specs.Prelude.{◌≡◌, IfOk, IfErr, Contains};
ghost use Rattle.std.specs.List.{flat_map};
ghost use Rattle.fm_base.specs.Verdict.{IsClean, IsRefusal, least, least_from};
ghost use Rattle.fm_tree.specs.Units.{cut_of};
ghost use Rattle.fm_rules.specs.BrokenStructure.{broken_in_units, broken_structure};
ghost use Rattle.fm_unit.specs.Entries.{built};
ghost use Rattle.fm_rules.specs.UnitTitles.{is_function_named, titles_of};
ghost use Rattle.fm_rules.specs.Units.{units_of};

use crate::cutting::cut;
use crate::entries::add_unit;
use crate::headings::{missing_end, wrong_programs, wrong_titles};
use crate::titles::make_titles;
use fm_base::{CheckFail, NoMemory, Refusal, Seq, least_law};
use fm_finmap::NameMap;
use fm_rules::Title;
use fm_tree::{Placed, Unit, Units};
use fm_unit_structure::{lay_out, structure};
use std::alloc::Global;

/// The units of these statements, and the least of the best so far and of what one of them breaks.
fn build(
    alloc: Global,
    titles: &NameMap<Title>,
    units: Vec<Seq<Placed>>,
    best: Option<Refusal>,
) -> Result<(Vec<Unit>, Option<Refusal>), NoMemory>
    ensures units { IfOk result (λ r. r.0.items ≡ flat_map (built (is_function_named titles.now)) units.items) }
    ensures best { IfOk result (λ r. r.1 ≡ least_from best (broken_in_units units.items)) }
{
    let mut best = best;
    let mut all = Vec::new(alloc);
    'units: for statements in units {
        let entries = lay_out(alloc, statements.as_slice())?;
        let marks = entries.as_slice();
        best = structure(alloc, marks, best)?;
        add_unit(alloc, titles, statements, marks, &mut all)?;
    }
    Ok((all, best))
}

/// The units of a source that begin with no executable statement, and the least rule of structure that it breaks.
fn judged(alloc: Global, statements: Vec<Placed>) -> Result<(Vec<Unit>, Option<Refusal>), NoMemory>
    ensures units { IfOk result (λ r. r.0.items
        ≡ flat_map (built (is_function_named (titles_of (cut_of statements.items)))) (cut_of statements.items)) }
    ensures best { IfOk result (λ r. r.1 ≡ least (broken_structure statements.items)) }
{
    let source = statements.as_slice();
    let best = wrong_programs(alloc, source)?;
    let ended = missing_end(source, best);
    let cut = cut(alloc, statements)?;
    let units = cut.as_slice();
    let titles = make_titles(alloc, units)?;
    let titled = wrong_titles(&titles, units, ended);
    let (all, best) = build(alloc, &titles, cut, titled)?;
    Ok((all, best))
}

/// The units of a source, of its statements. Refused by the least rule of structure that is broken, or for want of
/// memory.
pub fn units(alloc: Global, statements: Vec<Placed>) -> Result<Units, CheckFail>
    ensures units { IfOk result (λ u. u.units ≡ units_of statements.items) }
    ensures clean { IfOk result (λ _. IsClean (Contains (broken_structure statements.items))) }
    ensures refused { IfErr result (IsRefusal (Contains (broken_structure statements.items))) }
{
    least_law();
    let (all, best) = judged(alloc, statements)?;
    if let Some(refusal) = best {
        return Err(CheckFail::Refused(refusal));
    }
    let units = Seq::from_vec(all);
    Ok(Units { units })
}
