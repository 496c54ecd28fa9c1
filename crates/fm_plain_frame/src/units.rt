//! Units of a program, by their numbers and names.

ghost use Rattle.std.specs.Prelude.{◌≡◌, IfSome};
ghost use Rattle.fm_mean.specs.Fits.{variables_of};
ghost use Rattle.fm_mean.specs.Layout.{AreLaidOut};
ghost use Rattle.fm_mean.specs.Names.{unit_named};
ghost use Rattle.fm_plain_frame.specs.Units.{numbered_of};

use crate::unit_view::UnitView;
use fm_base::Name;
use fm_rules::Program;
use fm_symbols::Variable;

/// The variables of the unit of this number; none where there is no such unit.
pub fn variables_of(program: &Program, unit: u32) -> &[Variable]
    ensures variables { result.now ≡ variables_of program.now unit }
    ensures laid_out { AreLaidOut 0 result.now }
{
    match UnitView::new(program, unit) {
        None => &[],
        Some(view) => view.variables(),
    }
}

/// The unit with a name, and its number.
pub fn unit_named<'p>(program: &'p Program, name: &Name) -> Option<(u32, UnitView<'p>)>
    ensures unit { numbered_of result ≡ unit_named program.now name.now }
    ensures program { IfSome result (λ u. u.1.program.now ≡ program.now) }
    ensures number { IfSome result (λ u. u.1.number ≡ u.0) }
{
    let number = *program.context().units.get(name)?;
    Some((number, UnitView::new(program, number)?))
}
