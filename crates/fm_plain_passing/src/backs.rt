//! What a unit that is called gives back, and to which places.

ghost use Rattle.std.specs.Prelude.{◌≡◌, ◌<◌, ◌^◌, IfOk, length, option_to_list, slice_get};
ghost use Rattle.fm_mean.specs.Calls.{back_for, back_place, back_words, backs_of, input_in};
ghost use Rattle.fm_plain_frame.specs.Units.{unit_of};

use crate::room::fits;
use fm_base::{NoMemory, Seq};
use fm_mean::{Actual, Back, Span};
use fm_plain_frame::{UnitView, formal_place};
use fm_symbols::Variable;
use std::alloc::Global;

fn back_place(argument: &Actual) -> Option<Span>
    ensures { result ≡ back_place argument.now }
{
    match argument {
        Actual::Given(_, back) => *back,
        Actual::Taken(span) => Some(*span),
    }
}

/// Whether there is such a variable, and it has INTENT(IN).
fn is_input(variables: &[Variable], place: usize) -> bool
    ensures { result ≡ input_in (slice_get variables.now place) }
{
    match variables.get(place) {
        None => false,
        Some(variable) => variable.input,
    }
}

/// What the formal with this number gives back to its argument.
fn back_for(callee: &UnitView, number: u32, argument: &Actual) -> Option<Back>
    requires { length (unit_of callee.now).names.variables < 2 ^ 32 }
    ensures { option_to_list result ≡ back_for (unit_of callee.now) number (back_place argument.now) }
{
    let place = back_place(argument)?;
    let formal = formal_place(callee.variables(), number);
    if is_input(callee.variables(), formal) {
        return None;
    }
    Some(Back {
        formal: formal as u32,
        place,
    })
}

/// The formals that give back what they have, each with the place of its argument that gets it: those without
/// INTENT(IN) whose arguments have places, from left to right. The only error is want of memory.
pub fn backs_of(
    alloc: Global,
    callee: &UnitView,
    arguments: &[Actual],
) -> Result<Seq<Back>, NoMemory>
    ensures { IfOk result (λ b. b ≡ backs_of (unit_of callee.now) arguments.now) }
{
    fits(callee.variables().len())?;
    fits(arguments.len())?;
    let mut backs = Seq::new(alloc);
    'arguments: for (index, argument) in arguments.iter().enumerate() {
        if let Some(back) = back_for(callee, index as u32 + 1, argument) {
            backs.push(back)?;
        }
    }
    Ok(backs)
}

/// The words that may be copied back. The only error is want of memory: that the number doesn't fit.
pub fn back_words(backs: &[Back]) -> Result<u64, NoMemory>
    ensures { IfOk result (λ n. n ≡ back_words backs.now) }
{
    let mut words: u64 = 0;
    'backs: for back in backs {
        words = words
            .checked_add(u64::from(back.place.count))
            .ok_or(NoMemory)?;
    }
    Ok(words)
}
