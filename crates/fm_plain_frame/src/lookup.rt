//! What is looked up in lists of names.

ghost use Rattle.std.specs.Prelude.{◌≡◌, slice_get};
ghost use Rattle.std.specs.Option.{option_copied};
ghost use Rattle.fm_mean.specs.Names.{constant_in, formal_from};
ghost use Rattle.fm_plain_frame.specs.Lookup.{is_constant};

use fm_base::Name;
use fm_rules::same_name;
use fm_symbols::{Constant, Symbol, Variable};

/// The item at a place.
pub(crate) fn item_at<T>(items: &[T], place: usize) -> Option<&T>
    ensures { option_copied result ≡ slice_get items.now place }
{
    items.get(place)
}

/// Whether a name means a constant.
pub(crate) fn is_constant(symbol: Option<Symbol>) -> bool
    ensures { result ≡ is_constant symbol }
{
    match symbol {
        None => false,
        Some(Symbol::Constant(_)) => true,
        Some(Symbol::Variable(_, _)) => false,
        Some(Symbol::Array(_, _, _)) => false,
        Some(Symbol::Port(_, _)) => false,
        Some(Symbol::Ports(_, _, _)) => false,
        Some(Symbol::Function(_)) => false,
    }
}

/// The constant with a name among these.
pub(crate) fn constant_in(name: &Name, constants: &[(Name, Constant)]) -> Option<Constant>
    ensures { result ≡ constant_in name.now constants.now }
{
    'constants: for index in 0..constants.len() {
        if same_name(name, &constants[index].0) {
            return Some(constants[index].1);
        }
    }
    None
}

/// The place of the formal with this number, from 1; behind the last variable where there is none.
pub fn formal_place(variables: &[Variable], number: u32) -> usize
    ensures { result ≡ formal_from 0 number variables.now }
{
    'variables: for place in 0..variables.len() {
        if variables[place].formal == number {
            return place;
        }
    }
    variables.len()
}
