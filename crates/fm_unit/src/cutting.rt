//! Statements cut into units.

ghost use Rattle.std.specs.Prelude.{◌≡◌, IfOk};
ghost use Rattle.fm_tree.specs.Structure.{form_of, is_end, is_executable};
ghost use Rattle.fm_tree.specs.Units.{cut_of};

use fm_base::{NoMemory, Seq};
use fm_tree::{Placed, Stmt, form_of, is_end};
use std::alloc::Global;

/// Whether a statement is END.
pub(crate) fn ends_unit(stmt: &Stmt) -> bool
    ensures { result ≡ is_end (form_of stmt.now) }
{
    is_end(form_of(stmt))
}

/// The statements of each unit, in the order of the source.
pub(crate) fn cut(alloc: Global, statements: Vec<Placed>) -> Result<Vec<Seq<Placed>>, NoMemory>
    ensures { IfOk result (λ v. v.items ≡ cut_of statements.items) }
{
    let mut units = Vec::new(alloc);
    let mut unit = Seq::new(alloc);
    'statements: for placed in statements {
        let ends = ends_unit(&placed.stmt);
        unit.push(placed)?;
        if ends {
            units.push(unit)?;
            unit = Seq::new(alloc);
        }
    }
    if !unit.is_empty() {
        units.push(unit)?;
    }
    Ok(units)
}
