//! The names of a program, or the least rule that they break.

ghost use Rattle.std.specs.Prelude.{◌≡◌, ◌++◌, IfOk, IfErr, OnOk, Contains, map};
ghost use Rattle.std.specs.List.{flat_map};
ghost use Rattle.fm_base.specs.Verdict.{IsClean, IsRefusal, least, least_from};
ghost use Rattle.fm_rules.specs.BrokenNames.{broken_in, broken_names};
ghost use Rattle.fm_names.specs.Layouts.{IsNamed, names_unless};
ghost use Rattle.fm_rules.specs.Names.{names_of, unit_names, unit_names_with};

use crate::judging::judge_unit;
use crate::sheet::make_sheet;
use crate::variables::lay_out;
use fm_base::{CheckFail, NoMemory, Refusal, Seq, least_law};
use fm_finmap::NameMap;
use fm_names_constants::{constant_list, extents};
use fm_names_declared::function_titles;
use fm_rules::Sheet;
use fm_symbols::{Names, UnitNames};
use fm_tree::{Unit, Units};
use std::alloc::Global;

fn unit_names(
    alloc: Global,
    titles: &NameMap<bool>,
    unit: &Unit,
    sheet: &Sheet,
) -> Result<UnitNames, NoMemory>
    ensures { IfOk result (λ n. n ≡ unit_names_with titles.now unit.now sheet.now) }
{
    let specs = unit.specs.as_slice();
    let first = sheet.first.as_slice();
    let layout = lay_out(alloc, titles, &unit.heading.stmt, sheet, first)?;
    Ok(UnitNames {
        variables: layout.variables,
        constants: constant_list(alloc, &sheet.known, specs)?,
        extents: extents(alloc, &sheet.known, specs)?,
        words: layout.words,
    })
}

// The names of a unit, put behind those of others. Nothing is put there where something is broken.
fn push_names(
    alloc: Global,
    titles: &NameMap<bool>,
    unit: &Unit,
    sheet: &Sheet,
    best: Option<Refusal>,
    names: &mut Seq<UnitNames>,
) -> Result<(), NoMemory>
    ensures { OnOk result (names.new ≡ names.old ++ names_unless best (unit_names_with titles.now unit.now sheet.now)) }
{
    if best.is_some() {
        return Ok(());
    }
    names.push(unit_names(alloc, titles, unit, sheet)?)?;
    Ok(())
}

fn add_unit(
    alloc: Global,
    titles: &NameMap<bool>,
    unit: &Unit,
    best: Option<Refusal>,
    names: &mut Seq<UnitNames>,
) -> Result<Option<Refusal>, NoMemory>
    ensures best { IfOk result (λ least. least ≡ least_from best (broken_in titles.now unit.now)) }
    ensures names { IfOk result
        (λ least. names.new ≡ names.old ++ names_unless least (unit_names titles.now unit.now)) }
{
    let sheet = make_sheet(alloc, unit)?;
    let best = judge_unit(alloc, titles, unit, &sheet, best)?;
    push_names(alloc, titles, unit, &sheet, best, names)?;
    Ok(best)
}

// The names of these units, all of them where nothing is broken, and the least place that is.
fn named_units(
    alloc: Global,
    titles: &NameMap<bool>,
    units: &[Unit],
) -> Result<(Seq<UnitNames>, Option<Refusal>), NoMemory>
    ensures best { IfOk result (λ r. r.1 ≡ least (flat_map (broken_in titles.now) units.now)) }
    ensures names { IfOk result (λ r. IsNamed r.1 r.0 (map (unit_names titles.now) units.now)) }
{
    let mut names = Seq::new(alloc);
    let mut best = None;
    'units: for unit in units {
        best = add_unit(alloc, titles, unit, best, &mut names)?;
    }
    Ok((names, best))
}

/// The names of the units of a program, or the least rule on names that is broken.
pub fn names(alloc: Global, units: &Units) -> Result<Names, CheckFail>
    ensures names { IfOk result (λ n. n.units ≡ names_of units.now.units) }
    ensures clean { IfOk result (λ _. IsClean (Contains (broken_names units.now.units))) }
    ensures refused { IfErr result (IsRefusal (Contains (broken_names units.now.units))) }
{
    least_law();
    let units = units.units.as_slice();
    let titles = function_titles(alloc, units)?;
    let (names, best) = named_units(alloc, &titles, units)?;
    if let Some(refusal) = best {
        return Err(CheckFail::Refused(refusal));
    }
    Ok(Names { units: names })
}
