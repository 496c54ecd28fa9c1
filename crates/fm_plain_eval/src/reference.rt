//! What a name with a list behind it means.

ghost use Rattle.std.specs.Prelude.{◌≡◌};
ghost use Rattle.fm_mean.specs.Evaluate.{function_by, intrinsic_or, reference_of};
ghost use Rattle.fm_mean.specs.Names.{unit_named};
ghost use Rattle.fm_values.specs.Intrinsics.{intrinsic_named};
ghost use Rattle.fm_plain_frame.specs.References.{reference_by};
ghost use Rattle.fm_plain_frame.specs.Units.{unit_of};
ghost use Rattle.fm_plain_eval.specs.References.{IsPlaced};
ghost use Rattle.fm_plain_eval.specs.Scopes.{scope_of};

use crate::scopes::Scope;
use fm_base::Name;
use fm_plain_frame::{Reference, unit_named};
use fm_symbols::is_function;
use fm_values::Intrinsic;

fn function<'p>(scope: &Scope<'p>, name: &Name) -> Reference<'p>
    ensures reference { reference_by result ≡ function_by (unit_named scope.now.unit.program.now name.now) }
    ensures placed { IsPlaced (unit_of scope.now.unit) result }
{
    match unit_named(scope.unit.program(), name) {
        None => Reference::Unknown,
        Some((number, unit)) => {
            if is_function(unit.kind()) {
                Reference::Call(number, unit)
            } else {
                Reference::Unknown
            }
        }
    }
}

fn no_array<'p>(scope: &Scope<'p>, name: &Name) -> Reference<'p>
    ensures reference { reference_by result
        ≡ intrinsic_or (intrinsic_named name.now) (function_by (unit_named scope.now.unit.program.now name.now)) }
    ensures placed { IsPlaced (unit_of scope.now.unit) result }
{
    match Intrinsic::from_name(name.as_bytes()) {
        None => function(scope, name),
        Some(intrinsic) => Reference::Built(intrinsic),
    }
}

/// What a name means with a list behind it: an array hides the intrinsic function of its name, and that a FUNCTION.
pub fn referent<'p>(scope: &Scope<'p>, name: &Name) -> Reference<'p>
    ensures reference { reference_by result ≡ reference_of (scope_of scope.now) name.now }
    ensures placed { IsPlaced (unit_of scope.now.unit) result }
{
    match scope.unit.variable(name) {
        None => no_array(scope, name),
        Some((place, variable)) => {
            if variable.bounds.is_empty() {
                no_array(scope, name)
            } else {
                Reference::Element(place, variable)
            }
        }
    }
}
