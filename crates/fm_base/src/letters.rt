//! The characters of symbolic names.

ghost use Rattle.std.specs.Prelude.{◌≡◌};
ghost use Rattle.std.specs.List.{list_all};
ghost use Rattle.fm_base.specs.Letters.{is_letter, is_name_byte, is_name_text};

/// Whether a byte may stand in a name behind its first: a letter in upper case, a digit or an
/// underscore.
pub fn is_name_byte(byte: u8) -> bool
    ensures { result ≡ is_name_byte byte }
{
    byte.is_ascii_uppercase() || byte.is_ascii_digit() || byte == b'_'
}

/// Whether each byte may stand in a name behind its first.
pub fn are_name_bytes(text: &[u8]) -> bool
    ensures { result ≡ list_all is_name_byte text.now }
{
    text.iter().all(|byte| is_name_byte(*byte))
}

/// Whether the text is written as a name, however long: a letter, then letters, digits and
/// underscores.
pub fn is_name_text(text: &[u8]) -> bool
    ensures { result ≡ is_name_text text.now }
{
    match text.split_first() {
        Some((first, behind)) => first.is_ascii_uppercase() && are_name_bytes(behind),
        None => false,
    }
}
