//! The label field, columns 1 to 5.

ghost use Rattle.std.specs.Prelude.{◌≡◌, ◌≤◌, length};
ghost use Rattle.std.specs.List.{list_any};
ghost use Rattle.fm_base.specs.Letters.{is_digit};
ghost use Rattle.fm_cards.specs.Cards.{number_of_digits, is_no_label_character, is_bad_field, label_of};

use fm_base::Label;

fn has_digit(field: &[u8]) -> bool
    ensures { result ≡ list_any is_digit field.now }
{
    field.iter().any(|b| b.is_ascii_digit())
}

fn has_no_label_character(field: &[u8]) -> bool
    ensures { result ≡ list_any is_no_label_character field.now }
{
    field.iter().any(|b| !(b.is_ascii_digit() || *b == b' '))
}

fn number(field: &[u8]) -> u32
    requires { length field.now ≤ 5 }
    ensures { result ≡ number_of_digits field.now }
{
    let mut number = 0u32;
    'bytes: for byte in field {
        if byte.is_ascii_digit() {
            number = 10 * number + u32::from(*byte - b'0');
        }
    }
    number
}

// Whether it holds more than digits and blanks, or a label 0.
pub(crate) fn is_bad_field(field: &[u8]) -> bool
    requires { length field.now ≤ 5 }
    ensures { result ≡ is_bad_field field.now }
{
    has_no_label_character(field) || (has_digit(field) && number(field) == 0)
}

// The label, where the field isn't bad.
pub(crate) fn label(field: &[u8]) -> Option<Label>
    requires { length field.now ≤ 5 }
    ensures { result ≡ label_of field.now }
{
    if has_digit(field) && !is_bad_field(field) {
        Some(Label(number(field)))
    } else {
        None
    }
}
