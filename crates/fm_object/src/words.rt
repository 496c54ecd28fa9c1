//! Words at the front of bytes: each ends with a certain byte.

ghost use Rattle.std.specs.Prelude.{◌≡◌, ◌≤◌, true, length, option_map};
ghost use Rattle.std.specs.Char.{is_ascii_digit};
ghost use Rattle.std.specs.List.{list_all};
ghost use Rattle.fm_object.specs.Words.{after, begins_with_zero, is_numeral, name_at, name_of, natural_of, number_at, number_of, opposite_in, positive_in, read_on, signed_at, signed_of, word_at};

use fm_base::is_name_text;

/// The bytes behind these.
pub(crate) fn after<'a>(keyword: &[u8], bytes: &'a [u8]) -> Option<&'a [u8]>
    ensures { option_map (λ x. x.now) result ≡ after keyword.now bytes.now }
{
    bytes.strip_prefix(keyword)
}

/// The bytes before the first such byte, and those behind it.
fn word_at(end: u8, bytes: &[u8]) -> Option<(&[u8], &[u8])>
    ensures { option_map (λ x. (x.0.now, x.1.now)) result ≡ word_at end bytes.now }
{
    let mut len = 0usize;
    'bytes: for byte in bytes {
        if *byte == end {
            let (word, behind) = bytes.split_at(len);
            return Some((word, &behind[1..]));
        }
        len += 1;
    }
    None
}

/// Whether all are digits.
fn all_digits(bytes: &[u8]) -> bool
    ensures { result ≡ list_all is_ascii_digit bytes.now }
{
    bytes.iter().all(|byte| byte.is_ascii_digit())
}

/// Whether the first is a zero.
fn begins_with_zero(word: &[u8]) -> bool
    ensures { result ≡ begins_with_zero word.now }
{
    match word.first() {
        Some(byte) => *byte == b'0',
        None => false,
    }
}

/// 1 to 19 digits without zeros in front.
fn is_numeral(word: &[u8]) -> bool
    ensures { result ≡ is_numeral word.now }
{
    0 < word.len()
        && (word.len() <= 19 && (all_digits(word) && (!begins_with_zero(word) || word.len() == 1)))
}

/// The number that digits make.
fn value_of(digits: &[u8]) -> u64
    requires few { length digits.now ≤ 19 }
    requires digits { list_all is_ascii_digit digits.now ≡ true }
    ensures { result ≡ read_on 0 digits.now }
{
    let mut value = 0u64;
    'digits: for byte in digits {
        value = 10 * value + u64::from(*byte - b'0');
    }
    value
}

/// The number that a numeral writes.
#[tactic(auto, unfolding(crate::specs::Words::natural_of))]
fn natural_of(word: &[u8]) -> Option<u64>
    ensures { result ≡ natural_of word.now }
{
    if is_numeral(word) {
        Some(value_of(word))
    } else {
        None
    }
}

/// The number of 32 bits that a word writes.
#[tactic(auto, unfolding(crate::specs::Words::number_of))]
fn number_of(word: &[u8]) -> Option<u32>
    ensures { result ≡ number_of word.now }
{
    let number = natural_of(word)?;
    if number < 0x1_0000_0000 {
        Some(number as u32)
    } else {
        None
    }
}

/// The opposite of a number, where it has 64 bits.
fn opposite_in(number: u64) -> Option<i64>
    ensures { result ≡ opposite_in number }
{
    if 0 < number && number <= 0x8000_0000_0000_0000 {
        let behind = (number - 1) as i64;
        Some(-1 - behind)
    } else {
        None
    }
}

/// A number, where it has 64 bits with its sign.
fn positive_in(number: u64) -> Option<i64>
    ensures { result ≡ positive_in number }
{
    if number < 0x8000_0000_0000_0000 {
        Some(number as i64)
    } else {
        None
    }
}

/// The number of 64 bits that a word writes, with its sign.
#[tactic(auto, unfolding(crate::specs::Words::signed_of))]
fn signed_of(word: &[u8]) -> Option<i64>
    ensures { result ≡ signed_of word.now }
{
    match word {
        [] => None,
        [first, behind @ ..] => {
            if *first == b'-' {
                opposite_in(natural_of(behind)?)
            } else {
                positive_in(natural_of(word)?)
            }
        }
    }
}

/// A word that is a name.
#[tactic(auto, unfolding(crate::specs::Words::name_of))]
fn name_of(word: &[u8]) -> Option<&[u8]>
    ensures { option_map (λ x. x.now) result ≡ name_of word.now }
{
    if is_name_text(word) { Some(word) } else { None }
}

/// The number at the front, and the bytes behind the byte that ends it.
#[tactic(auto, unfolding(crate::specs::Words::number_at))]
pub(crate) fn number_at(end: u8, bytes: &[u8]) -> Option<(u32, &[u8])>
    ensures { option_map (λ x. (x.0, x.1.now)) result ≡ number_at end bytes.now }
{
    let (word, behind) = word_at(end, bytes)?;
    let number = number_of(word)?;
    Some((number, behind))
}

/// The same of a number with a sign.
#[tactic(auto, unfolding(crate::specs::Words::signed_at))]
pub(crate) fn signed_at(end: u8, bytes: &[u8]) -> Option<(i64, &[u8])>
    ensures { option_map (λ x. (x.0, x.1.now)) result ≡ signed_at end bytes.now }
{
    let (word, behind) = word_at(end, bytes)?;
    let number = signed_of(word)?;
    Some((number, behind))
}

/// The same of a name.
#[tactic(auto, unfolding(crate::specs::Words::name_at))]
pub(crate) fn name_at(end: u8, bytes: &[u8]) -> Option<(&[u8], &[u8])>
    ensures { option_map (λ x. (x.0.now, x.1.now)) result ≡ name_at end bytes.now }
{
    let (word, behind) = word_at(end, bytes)?;
    let name = name_of(word)?;
    Some((name, behind))
}
