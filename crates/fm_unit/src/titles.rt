//! The names of units.

ghost use Rattle.std.specs.Prelude.{◌≡◌, IfOk, OnOk};
ghost use Rattle.fm_symbols.specs.ByName.{with_all};
ghost use Rattle.fm_symbols.specs.Headings.{heading_name};
ghost use Rattle.fm_symbols.specs.Titles.{title_by};
ghost use Rattle.fm_rules.specs.UnitTitles.{first_of, is_function_named, is_function_title, title_told, titles_of};

use fm_base::{Name, NoMemory, Seq};
use fm_finmap::NameMap;
use fm_rules::Title;
use fm_symbols::{heading_kind, heading_name, insert_new, is_function};
use fm_tree::Placed;
use std::alloc::Global;

#[tactic(auto, unfolding(fm_symbols::specs::Headings::heading_name))]
fn add_title(
    alloc: Global,
    number: usize,
    unit: &[Placed],
    titles: &mut NameMap<Title>,
) -> Result<(), NoMemory>
    ensures { OnOk result (titles.new
        ≡ with_all titles.old (title_by (heading_name (first_of unit.now)) (title_told number (first_of unit.now)))) }
{
    match unit.first() {
        None => Ok(()),
        Some(first) => {
            let title = Title {
                number,
                kind: heading_kind(&first.stmt),
            };
            match heading_name(&first.stmt) {
                None => Ok(()),
                Some(name) => insert_new(alloc, titles, name, title),
            }
        }
    }
}

/// The first unit with each name.
pub(crate) fn make_titles(alloc: Global, units: &[Seq<Placed>]) -> Result<NameMap<Title>, NoMemory>
    ensures { IfOk result (λ m. m ≡ titles_of units.now) }
{
    let mut titles = NameMap::new(alloc);
    'units: for number in 0..units.len() {
        add_title(alloc, number, units[number].as_slice(), &mut titles)?;
    }
    Ok(titles)
}

fn is_function_title(title: Option<Title>) -> bool
    ensures { result ≡ is_function_title title }
{
    match title {
        None => false,
        Some(title) => is_function(title.kind),
    }
}

/// Whether a FUNCTION has this name.
pub(crate) fn is_function_named(titles: &NameMap<Title>, name: &Name) -> bool
    ensures { result ≡ is_function_named titles.now name.now }
{
    is_function_title(titles.get(name).copied())
}
