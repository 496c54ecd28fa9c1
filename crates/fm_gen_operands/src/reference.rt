//! What a name with a list behind it means.

ghost use Rattle.std.specs.Prelude.{◌≡◌};
ghost use Rattle.fm_mean.specs.Evaluate.{function_by, intrinsic_or, reference_of};
ghost use Rattle.fm_mean.specs.Names.{unit_named};
ghost use Rattle.fm_values.specs.Intrinsics.{intrinsic_named};
ghost use Rattle.fm_plain_frame.specs.References.{reference_by};
ghost use Rattle.fm_plain_frame.specs.Units.{unit_of};
ghost use Rattle.fm_mean.specs.Referring.{names_in};

use fm_base::Name;
use fm_plain_frame::{Reference, UnitView, unit_named};
use fm_symbols::is_function;
use fm_values::Intrinsic;

fn function<'p>(unit: &UnitView<'p>, name: &Name) -> Reference<'p>
    ensures { reference_by result ≡ function_by (unit_named unit.now.program.now name.now) }
{
    match unit_named(unit.program(), name) {
        None => Reference::Unknown,
        Some((number, callee)) => {
            if is_function(callee.kind()) {
                Reference::Call(number, callee)
            } else {
                Reference::Unknown
            }
        }
    }
}

fn no_array<'p>(unit: &UnitView<'p>, name: &Name) -> Reference<'p>
    ensures { reference_by result
        ≡ intrinsic_or (intrinsic_named name.now) (function_by (unit_named unit.now.program.now name.now)) }
{
    match Intrinsic::from_name(name.as_bytes()) {
        None => function(unit, name),
        Some(intrinsic) => Reference::Built(intrinsic),
    }
}

/// What a name means with a list behind it: an array hides the intrinsic function of its name, and that a FUNCTION.
pub fn referent<'p>(unit: &UnitView<'p>, name: &Name) -> Reference<'p>
    ensures { reference_by result ≡ reference_of (names_in unit.now.program.now (unit_of unit.now)) name.now }
{
    match unit.variable(name) {
        None => no_array(unit, name),
        Some((place, variable)) => {
            if variable.bounds.is_empty() {
                no_array(unit, name)
            } else {
                Reference::Element(place, variable)
            }
        }
    }
}
