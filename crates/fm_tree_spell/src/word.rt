//! The tokens of words and labels.

ghost use Rattle.std.specs.Prelude.{◌≡◌, [], ◌∷◌, ◌++◌, OnOk};
ghost use Rattle.fm_tree.specs.Forms.{label};
ghost use Rattle.fm_tree.specs.Parts.{word_with, name_tokens};

use fm_base::{Label, Name, NoMemory, Token};
use std::alloc::Global;

/// A token.
pub fn push_token(token: Token, out: &mut Vec<Token>) -> Result<(), NoMemory>
    ensures { OnOk result (out.new.items ≡ out.old.items ++ token ∷ []) }
{
    out.push(token)?;
    Ok(())
}

/// A word of the language, as a name.
pub fn push_word(alloc: Global, word: &[u8], out: &mut Vec<Token>) -> Result<(), NoMemory>
    ensures { OnOk result (out.new.items ≡ out.old.items ++ Token.Named word.now ∷ []) }
{
    push_token(Token::Named(Name::from_bytes(alloc, word)?), out)
}

/// A word of the language and an equals sign.
pub fn push_assigning(alloc: Global, word: &[u8], out: &mut Vec<Token>) -> Result<(), NoMemory>
    ensures { OnOk result (out.new.items ≡ out.old.items ++ Token.Named word.now ∷ Token.Equals ∷ []) }
{
    push_word(alloc, word, out)?;
    push_token(Token::Equals, out)
}

/// A keyword and the name behind it, if there is one, as one name.
pub fn push_joined(
    alloc: Global,
    keyword: &[u8],
    name: &Option<Name>,
    out: &mut Vec<Token>,
) -> Result<(), NoMemory>
    ensures { OnOk result (out.new.items ≡ out.old.items ++ word_with keyword.now name.now ∷ []) }
{
    match name {
        None => push_word(alloc, keyword, out),
        Some(name) => {
            let mut bytes = Vec::from_slice(alloc, keyword)?;
            bytes.extend_from_slice(name.as_bytes())?;
            push_word(alloc, bytes.as_slice(), out)
        }
    }
}

/// A name.
pub fn push_name(alloc: Global, name: &Name, out: &mut Vec<Token>) -> Result<(), NoMemory>
    ensures { OnOk result (out.new.items ≡ out.old.items ++ Token.Named name.now ∷ []) }
{
    push_token(Token::Named(name.copy(alloc)?), out)
}

/// A name, if there is one.
pub fn push_optional_name(
    alloc: Global,
    name: &Option<Name>,
    out: &mut Vec<Token>,
) -> Result<(), NoMemory>
    ensures { OnOk result (out.new.items ≡ out.old.items ++ name_tokens name.now) }
{
    match name {
        None => Ok(()),
        Some(name) => push_name(alloc, name, out),
    }
}

/// A label.
pub fn push_label(at: Label, out: &mut Vec<Token>) -> Result<(), NoMemory>
    ensures { OnOk result (out.new.items ≡ out.old.items ++ label.spelled at) }
{
    push_token(Token::Number(at.0 as i64), out)
}
