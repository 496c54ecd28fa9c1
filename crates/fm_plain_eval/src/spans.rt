//! The places of variables and elements.

ghost use Rattle.std.specs.Prelude.{◌≡◌, ◌+◌};
ghost use Rattle.fm_mean.specs.Evaluate.{place_of, places_of, refs_in_var, refs_in_vars};
ghost use Rattle.fm_plain_eval.specs.Outcomes.{IsFrom};
ghost use Rattle.fm_plain_eval.specs.Scopes.{scope_of};

use crate::counting::references;
use crate::failure::Failure;
use crate::scopes::{Scope, single, whole};
use crate::values::element;
use fm_base::Seq;
use fm_mean::Span;
use fm_tree::Var;
use std::alloc::Global;

/// The place of a variable, an element or a whole array before which `next` references of the entry stand, and how many
/// stand before what comes behind it. The first fault; or want of memory.
pub fn place(
    alloc: Global,
    scope: &Scope<'_>,
    variable: &Var,
    next: usize,
) -> Result<(Span, usize), Failure>
    ensures { IsFrom (place_of (scope_of scope.now) variable.now next)
        (next + refs_in_var (scope_of scope.now) variable.now) result }
{
    let subscripts = variable.subscripts.as_slice();
    match scope.unit.variable(&variable.name) {
        None => Ok((single(0, 0), references(scope, subscripts, next)?)),
        Some((place, known)) => {
            if subscripts.is_empty() {
                return Ok((whole(place, known), next));
            }
            let (element, next) = element(alloc, scope, place, known, subscripts, next)?;
            Ok((single(place, element), next))
        }
    }
}

/// The places of variables from left to right, and how many references stand before what comes behind them.
pub fn places(
    alloc: Global,
    scope: &Scope<'_>,
    variables: &[Var],
    next: usize,
) -> Result<(Seq<Span>, usize), Failure>
    ensures { IsFrom (places_of (scope_of scope.now) variables.now next)
        (next + refs_in_vars (scope_of scope.now) variables.now) result }
{
    let mut places = Seq::new(alloc);
    let mut next = next;
    'variables: for variable in variables {
        let (span, behind) = place(alloc, scope, variable, next)?;
        places.push(span)?;
        next = behind;
    }
    Ok((places, next))
}
