//! The tokens of a statement.

ghost use Rattle.std.specs.Prelude.{◌≡◌, ◌∷◌, [], ◌++◌, List, Some, None, IfErr, OnOk, MatchResult, drop};
ghost use Rattle.fm_base.specs.declared.token.Token.{Token};
ghost use Rattle.fm_token.specs.Cutting.{cut_of, is_nothing, keyed_tokens, tokens_of};
ghost use Rattle.fm_token.specs.Statements.{IsTokens, key_of};
ghost use Rattle.fm_token.specs.Steps.{behind_items};

use crate::classes::{class, logical_end};
use crate::scan::longest;
use fm_base::{Class, ParseFail, Token};
use std::alloc::Global;

// Adds the cut of a text.
fn push_cut(alloc: Global, out: &mut Vec<Token>, text: &[u8]) -> Result<(), ParseFail>
    ensures { MatchResult result (λ _. behind_items out.old.items (cut_of text.now) ≡ Some out.new.items)
        (λ e. e ≡ ParseFail.Bad → cut_of text.now ≡ None) }
{
    let mut rest = text;
    'tokens: while !rest.is_empty() {
        let Some((n, token)) = longest(alloc, rest)? else {
            return Err(ParseFail::Bad);
        };
        out.push(token)?;
        let (_, behind) = rest.split_at(n);
        rest = behind;
    }
    Ok(())
}

fn is_nothing(class: Class) -> bool
    ensures { result ≡ is_nothing class }
{
    class == Class::Nothing
}

// What stands behind the first n bytes.
fn behind(text: &[u8], n: usize) -> &[u8]
    ensures { result.now ≡ drop n text.now }
{
    let (_, behind) = text.split_at(n.min(text.len()));
    behind
}

fn push_key(out: &mut Vec<Token>, class: Class) -> Result<(), ParseFail>
    ensures ok { OnOk result (out.new.items ≡ out.old.items ++ key_of class) }
    ensures err { IfErr result (λ e. e ≡ ParseFail.NoMemory) }
{
    if !class.keyword().is_empty() {
        out.push(Token::Key(class))?;
    }
    Ok(())
}

// Adds the tokens of a text that is no logical IF.
fn push_keyed(alloc: Global, out: &mut Vec<Token>, text: &[u8]) -> Result<(), ParseFail>
    ensures { MatchResult result (λ _. behind_items out.old.items (keyed_tokens text.now) ≡ Some out.new.items)
        (λ e. e ≡ ParseFail.Bad → keyed_tokens text.now ≡ None) }
{
    let class = class(text);
    if is_nothing(class) {
        return Err(ParseFail::Bad);
    }
    push_key(out, class)?;
    push_cut(alloc, out, behind(text, class.keyword().len()))
}

// Adds the key of a logical IF and the cut of its test.
fn push_test(alloc: Global, out: &mut Vec<Token>, condition: &[u8]) -> Result<(), ParseFail>
    ensures { MatchResult result (λ _. behind_items (out.old.items ++ Token.Key Class.LogicalIf ∷ [])
        (cut_of (drop 2 condition.now)) ≡ Some out.new.items)
        (λ e. e ≡ ParseFail.Bad → cut_of (drop 2 condition.now) ≡ None) }
{
    out.push(Token::Key(Class::LogicalIf))?;
    push_cut(alloc, out, behind(condition, 2))
}

// Adds the tokens of a text: a logical IF after the other, and the statement in the last.
fn push_tokens(alloc: Global, out: &mut Vec<Token>, text: &[u8]) -> Result<(), ParseFail>
    ensures { MatchResult result (λ _. behind_items out.old.items (tokens_of text.now) ≡ Some out.new.items)
        (λ e. e ≡ ParseFail.Bad → tokens_of text.now ≡ None) }
{
    let mut rest = text;
    'ifs: while let Some(n) = logical_end(rest) {
        let (condition, behind) = rest.split_at(n);
        match push_test(alloc, out, condition) {
            Ok(()) => rest = behind,
            Err(fail) => return Err(fail),
        }
    }
    push_keyed(alloc, out, rest)
}

/// The tokens of a statement's text, its keyword first; behind the test of a logical IF those of
/// the statement in it. `ParseFail::Bad` where the text isn't made of tokens or no form has it.
pub fn tokens(alloc: Global, text: &[u8]) -> Result<Vec<Token>, ParseFail>
    ensures { MatchResult result (λ v. IsTokens text.now v.items)
        (λ e. e ≡ ParseFail.Bad → (ts : List Token) → ¬ IsTokens text.now ts) }
{
    let mut out = Vec::new(alloc);
    match push_tokens(alloc, &mut out, text) {
        Ok(()) => Ok(out),
        Err(fail) => Err(fail),
    }
}
