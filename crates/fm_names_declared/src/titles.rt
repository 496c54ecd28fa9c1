//! Which names are those of FUNCTIONs.

ghost use Rattle.std.specs.Prelude.{◌≡◌, IfOk, OnOk};
ghost use Rattle.fm_symbols.specs.ByName.{with_all};
ghost use Rattle.fm_symbols.specs.Headings.{heading_kind, heading_name, is_function};
ghost use Rattle.fm_symbols.specs.Titles.{title_by};
ghost use Rattle.fm_rules.specs.FunctionTitles.{is_function_title, is_other_function, is_own_name, titles_of};

use fm_base::{Name, NoMemory};
use fm_finmap::NameMap;
use fm_rules::same_name;
use fm_symbols::{heading_kind, heading_name, insert_new, is_function};
use fm_tree::{Stmt, Unit};
use std::alloc::Global;

fn add_title(alloc: Global, unit: &Unit, titles: &mut NameMap<bool>) -> Result<(), NoMemory>
    ensures { OnOk result (titles.new
        ≡ with_all titles.old
        (title_by (heading_name unit.now.heading.stmt) (is_function (heading_kind unit.now.heading.stmt)))) }
{
    let heading = &unit.heading.stmt;
    let function = is_function(heading_kind(heading));
    match heading_name(heading) {
        Some(name) => insert_new(alloc, titles, name, function),
        None => Ok(()),
    }
}

/// The names of the units, each with whether it is a FUNCTION's.
#[tactic(auto, using(crate::proofs::Maps::with_all_append))]
pub fn function_titles(alloc: Global, units: &[Unit]) -> Result<NameMap<bool>, NoMemory>
    ensures { IfOk result (λ m. m ≡ titles_of units.now) }
{
    let mut titles = NameMap::new(alloc);
    'units: for unit in units {
        add_title(alloc, unit, &mut titles)?;
    }
    Ok(titles)
}

fn is_own_name(heading: &Stmt, name: &Name) -> bool
    ensures { result ≡ is_own_name (heading_name heading.now) name.now }
{
    match heading_name(heading) {
        Some(own) => same_name(own, name),
        None => false,
    }
}

fn is_function_title(title: Option<bool>) -> bool
    ensures { result ≡ is_function_title title }
{
    match title {
        Some(function) => function,
        None => false,
    }
}

/// Whether a name is, in the unit with this heading, another FUNCTION's.
pub fn is_other_function(titles: &NameMap<bool>, heading: &Stmt, name: &Name) -> bool
    ensures { result ≡ is_other_function titles.now heading.now name.now }
{
    is_function_title(titles.get(name).copied()) && !is_own_name(heading, name)
}
