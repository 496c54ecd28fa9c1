//! The operations on INTEGER values, with Overflow outside 64 bits.

ghost use Rattle.std.specs.Prelude.{◌≡◌, ◌≤◌, pos, negsuc, unsigned_abs};
ghost use Rattle.fm_values.specs.Values.{sum, difference, product, opposite, quotient, power};

use fm_base::Fault;

/// The sum of two values, or Overflow.
pub fn add(a: i64, b: i64) -> Result<i64, Fault>
    ensures { result ≡ sum a b }
{
    match a.checked_add(b) {
        Some(value) => Ok(value),
        None => Err(Fault::Overflow),
    }
}

/// The difference of two values, or Overflow.
pub fn subtract(a: i64, b: i64) -> Result<i64, Fault>
    ensures { result ≡ difference a b }
{
    match a.checked_sub(b) {
        Some(value) => Ok(value),
        None => Err(Fault::Overflow),
    }
}

/// The product of two values, or Overflow.
pub fn multiply(a: i64, b: i64) -> Result<i64, Fault>
    ensures { result ≡ product a b }
{
    match a.checked_mul(b) {
        Some(value) => Ok(value),
        None => Err(Fault::Overflow),
    }
}

/// The value with the other sign, or Overflow.
pub fn negate(a: i64) -> Result<i64, Fault>
    ensures { result ≡ opposite a }
{
    match a.checked_neg() {
        Some(value) => Ok(value),
        None => Err(Fault::Overflow),
    }
}

/// The quotient of two values, rounded toward zero; ZeroDivide by 0, or Overflow.
pub fn divide(a: i64, b: i64) -> Result<i64, Fault>
    ensures { result ≡ quotient a b }
{
    if b == 0 {
        return Err(Fault::ZeroDivide);
    }
    match a.checked_div(b) {
        Some(value) => Ok(value),
        None => Err(Fault::Overflow),
    }
}

// A power of 0.
#[tactic(auto, using(crate::proofs::PowerLaws::zero_power_below, crate::proofs::PowerLaws::zero_power_above))]
fn power_of_zero(exponent: i64) -> Result<i64, Fault>
    ensures { result ≡ power (pos 0) exponent }
{
    if exponent < 0 {
        Err(Fault::ZeroDivide)
    } else if exponent == 0 {
        Ok(1)
    } else {
        Ok(0)
    }
}

// A power of -1.
#[tactic(auto, using(crate::proofs::PowerLaws::minus_one_power))]
fn power_of_minus_one(exponent: i64) -> Result<i64, Fault>
    ensures { result ≡ power (negsuc 0) exponent }
{
    if exponent.unsigned_abs() % 2 == 0 {
        Ok(1)
    } else {
        Ok(-1)
    }
}

// A power of another number than 0, 1 and -1: from 2^64 on it is out of range.
#[tactic(auto, using(crate::proofs::PowerLaws::large_power_below, crate::proofs::PowerLaws::large_power_above))]
fn power_of_large(base: i64, exponent: i64) -> Result<i64, Fault>
    requires { 2 ≤ unsigned_abs base }
    ensures { result ≡ power base exponent }
{
    if exponent < 0 {
        return Ok(0);
    }
    if exponent >= 64 {
        return Err(Fault::Overflow);
    }
    match base.checked_pow(exponent as u32) {
        Some(value) => Ok(value),
        None => Err(Fault::Overflow),
    }
}

/// A number raised to a power. A negative exponent divides 1 by the power: ZeroDivide where that is
/// 0. Overflow outside 64 bits.
#[tactic(auto, using(crate::proofs::PowerLaws::one_power))]
pub fn power(base: i64, exponent: i64) -> Result<i64, Fault>
    ensures { result ≡ power base exponent }
{
    if base == 0 {
        power_of_zero(exponent)
    } else if base == 1 {
        Ok(1)
    } else if base == -1 {
        power_of_minus_one(exponent)
    } else {
        power_of_large(base, exponent)
    }
}
