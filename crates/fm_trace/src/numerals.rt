//! Numbers in decimal, without leading zeros.

ghost use Rattle.std.specs.Prelude.{◌≡◌, ◌≤◌, true, IfSome};
ghost use Rattle.std.specs.Str.Parse.{digits_value};
ghost use Rattle.fm_trace.specs.Reading.{are_digits, is_numeral, is_within, number_in};

/// The most digits of a number.
const MOST_DIGITS: usize = 10;

fn are_digits(text: &[u8]) -> bool
    ensures { result ≡ are_digits text.now }
{
    text.iter().all(|byte| byte.is_ascii_digit())
}

fn is_numeral(text: &[u8]) -> bool
    ensures { result ≡ is_numeral text.now }
{
    0 < text.len()
        && text.len() <= MOST_DIGITS
        && are_digits(text)
        && (text[0] != b'0' || text.len() == 1)
}

/// The number that a numeral writes.
fn value(text: &[u8]) -> u64
    requires { is_numeral text.now ≡ true }
    ensures { result ≡ digits_value 10 text.now }
{
    let mut value: u64 = 0;
    'digits: for digit in text {
        value = value * 10 + u64::from(*digit - b'0');
    }
    value
}

fn is_within(low: u64, high: u64, number: u64) -> bool
    ensures { result ≡ is_within low high number }
{
    low <= number && number <= high
}

/// The number that a text writes, where it's in a range.
pub(crate) fn number_in(text: &[u8], low: u64, high: u64) -> Option<u64>
    ensures number { result ≡ number_in low high text.now }
    ensures within { IfSome result (λ n. n ≤ high) }
{
    if !is_numeral(text) {
        return None;
    }
    let number = value(text);
    if is_within(low, high, number) {
        Some(number)
    } else {
        None
    }
}
