//! The intrinsic functions.

ghost use Rattle.std.specs.Prelude.{◌≡◌, List, ℤ};
ghost use Rattle.fm_values.specs.Intrinsics.{intrinsic_named, takes, absolute_value, argument, remainder, sign_transfer, positive_difference, intrinsic_value};
ghost use Rattle.std.specs.Int.{int_max, int_min};
ghost use Rattle.std.specs.List.{fold};

use crate::arithmetic::{negate, subtract};
use fm_base::Fault;

/// An intrinsic function.
#[derive(Clone, Copy)]
pub enum Intrinsic {
    /// Absolute value.
    Abs,
    /// What division leaves.
    Mod,
    /// Transfer of a sign.
    Sign,
    /// Positive difference.
    Dim,
    /// The greatest argument.
    Max,
    /// The least argument.
    Min,
}

/// The absolute value, or Overflow.
pub fn absolute_value(a: i64) -> Result<i64, Fault>
    ensures { result ≡ absolute_value a }
{
    if a < 0 { negate(a) } else { Ok(a) }
}

/// What the division of `a` by `b` leaves, with the sign of `a`; ZeroDivide by 0.
pub fn remainder(a: i64, b: i64) -> Result<i64, Fault>
    ensures { result ≡ remainder a b }
{
    if b == 0 {
        return Err(Fault::ZeroDivide);
    }
    Ok(a.wrapping_rem(b))
}

/// The magnitude of `a` with the sign of `b`, or Overflow.
pub fn sign_transfer(a: i64, b: i64) -> Result<i64, Fault>
    ensures { result ≡ sign_transfer a b }
{
    if b >= 0 {
        absolute_value(a)
    } else if a < 0 {
        Ok(a)
    } else {
        negate(a)
    }
}

/// How far `a` is above `b`, or 0 where it isn't; or Overflow.
pub fn positive_difference(a: i64, b: i64) -> Result<i64, Fault>
    ensures { result ≡ positive_difference a b }
{
    if a <= b { Ok(0) } else { subtract(a, b) }
}

// An argument, or 0 where there is none.
fn argument(arguments: &[i64], index: usize) -> i64
    ensures { result ≡ argument index arguments.now }
{
    match arguments.get(index) {
        Some(value) => *value,
        None => 0,
    }
}

fn greatest(arguments: &[i64]) -> i64
    ensures { result ≡ fold int_max (argument 0 arguments.now) arguments.now }
{
    let mut greatest = argument(arguments, 0);
    for value in arguments {
        greatest = greatest.max(*value);
    }
    greatest
}

fn least(arguments: &[i64]) -> i64
    ensures { result ≡ fold int_min (argument 0 arguments.now) arguments.now }
{
    let mut least = argument(arguments, 0);
    for value in arguments {
        least = least.min(*value);
    }
    least
}

impl Intrinsic {
    /// The intrinsic function of a name in upper case, if it is that of one.
    pub fn from_name(name: &[u8]) -> Option<Intrinsic>
        ensures { result ≡ intrinsic_named name.now }
    {
        if name == b"ABS".as_slice() || name == b"IABS".as_slice() {
            Some(Intrinsic::Abs)
        } else if name == b"MOD".as_slice() {
            Some(Intrinsic::Mod)
        } else if name == b"SIGN".as_slice() || name == b"ISIGN".as_slice() {
            Some(Intrinsic::Sign)
        } else if name == b"DIM".as_slice() || name == b"IDIM".as_slice() {
            Some(Intrinsic::Dim)
        } else if name == b"MAX".as_slice() || name == b"MAX0".as_slice() {
            Some(Intrinsic::Max)
        } else if name == b"MIN".as_slice() || name == b"MIN0".as_slice() {
            Some(Intrinsic::Min)
        } else {
            None
        }
    }

    /// Whether it takes so many arguments.
    pub fn takes(self, count: usize) -> bool
        ensures { result ≡ takes self count }
    {
        match self {
            Intrinsic::Abs => count == 1,
            Intrinsic::Mod => count == 2,
            Intrinsic::Sign => count == 2,
            Intrinsic::Dim => count == 2,
            Intrinsic::Max => 2 <= count,
            Intrinsic::Min => 2 <= count,
        }
    }

    /// Its value at these arguments, or its fault. An argument that isn't there counts as 0.
    pub fn apply(self, arguments: &[i64]) -> Result<i64, Fault>
        ensures { result ≡ intrinsic_value self arguments.now }
    {
        let first = argument(arguments, 0);
        match self {
            Intrinsic::Abs => absolute_value(first),
            Intrinsic::Mod => remainder(first, argument(arguments, 1)),
            Intrinsic::Sign => sign_transfer(first, argument(arguments, 1)),
            Intrinsic::Dim => positive_difference(first, argument(arguments, 1)),
            Intrinsic::Max => Ok(greatest(arguments)),
            Intrinsic::Min => Ok(least(arguments)),
        }
    }
}
