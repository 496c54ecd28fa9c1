//! References of functions in a statement.

ghost use Rattle.std.specs.Prelude.{◌≡◌, IfOk};
ghost use Rattle.fm_tree.specs.References.{reference_places};
ghost use Rattle.fm_unit.specs.Finding.{with_name};
ghost use Rattle.fm_rules.specs.UnitTitles.{is_function_named};

use crate::titles::is_function_named;
use fm_base::{Name, NoMemory, Seq};
use fm_finmap::NameMap;
use fm_rules::Title;
use fm_tree::{Expr, Stmt};
use fm_tree_walk::{Visitor, visit_applied};
use std::alloc::Global;

/// The references of functions that a walk over a statement has found.
#[derive(Drop)]
pub struct Finding<'a> {
    /// The names of the units.
    pub titles: &'a NameMap<Title>,
    /// How many names with a list in parentheses it has seen.
    pub next: u32,
    /// The places of those that are references of functions.
    pub places: Seq<u32>,
}

impl<'a> Visitor for Finding<'a> {
    type Error = NoMemory;

    ghost after = { λ found name t. with_name found name };

    fn visit(&mut self, name: &Name, _reference: &Expr) -> Result<(), NoMemory> {
        if is_function_named(self.titles, name) {
            self.places.push(self.next)?;
        }
        self.next = self.next.checked_add(1).ok_or(NoMemory)?;
        Ok(())
    }
}

/// The references of functions in a statement, in the order of evaluation: their places, from 0, among its names with a
/// list in parentheses.
pub(crate) fn references(
    alloc: Global,
    titles: &NameMap<Title>,
    stmt: &Stmt,
) -> Result<Seq<u32>, NoMemory>
    ensures { IfOk result (λ v. v ≡ reference_places (is_function_named titles.now) stmt.now) }
{
    let mut found = Finding {
        titles,
        next: 0,
        places: Seq::new(alloc),
    };
    visit_applied(stmt, &mut found)?;
    let Finding {
        titles: _,
        next: _,
        places,
    } = found;
    Ok(places)
}
