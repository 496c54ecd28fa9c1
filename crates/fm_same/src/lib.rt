//! Whether two values are the same: lists, bodies of stack code, checked programs. Each answer is exact, and takes no
//! memory.
#![tactic(auto)]

ghost use Rattle.std.specs.Prelude.{Bool};
ghost use Rattle.fm_same.specs.Same.{IsSameTest};

mod body;
mod code;
mod instr;
mod operands;
mod parts;
mod program;
mod simple;
mod statement;
mod units;

pub use body::same_body;
pub use program::same_program;

/// Whether two lists are the same, by a test of two items.
pub fn same_items<T, F: Fn(&T, &T) -> bool>(first: &[T], second: &[T], is_same: F) -> bool
    requires callable { F.IsAlwaysCallable is_same }
    requires exact { (a b : _) (r : Bool) → F.post is_same a b r → IsSameTest r a.now b.now }
    ensures { IsSameTest result first.now second.now }
{
    let mut left = first;
    let mut right = second;
    'items: loop {
        match left.split_first() {
            None => return right.is_empty(),
            Some((one, lefts)) => match right.split_first() {
                None => return false,
                Some((other, rights)) => {
                    if !is_same(one, other) {
                        return false;
                    }
                    left = lefts;
                    right = rights;
                }
            },
        }
    }
}

/// Whether two options are the same, by a test of two values.
pub fn same_options<T, F: Fn(&T, &T) -> bool>(
    first: &Option<T>,
    second: &Option<T>,
    is_same: F,
) -> bool
    requires callable { F.IsAlwaysCallable is_same }
    requires exact { (a b : _) (r : Bool) → F.post is_same a b r → IsSameTest r a.now b.now }
    ensures { IsSameTest result first.now second.now }
{
    match first {
        None => second.is_none(),
        Some(one) => match second {
            None => false,
            Some(other) => is_same(one, other),
        },
    }
}

/// Whether two lists of words are the same. Many words are compared at once.
pub fn same_words(first: &[i64], second: &[i64]) -> bool
    ensures { IsSameTest result first.now second.now }
{
    first == second
}

/// Whether two lists of numbers are the same.
pub fn same_numbers(first: &[u32], second: &[u32]) -> bool
    ensures { IsSameTest result first.now second.now }
{
    first == second
}

/// Whether two texts are the same.
pub fn same_bytes(first: &[u8], second: &[u8]) -> bool
    ensures { IsSameTest result first.now second.now }
{
    first == second
}
