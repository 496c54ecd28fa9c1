//! The statement of a card, or the rule that it breaks.

ghost use Rattle.std.specs.Prelude.{◌≡◌, List, Ok, Err, IfOk, IfErr, MatchOption, MatchResult};
ghost use Rattle.fm_base.specs.declared.token.Token.{Token};
ghost use Rattle.fm_base.specs.Verdict.{IsClean, IsRefusal};
ghost use Rattle.fm_stmt.specs.Checked.{AllOfPhaseOne, HasCut, IsBroken, IsRead, IsStatementOf, IsTreeOf, OneStatement, OneTree, has_big, is_big, known, read_so, rule_of};
ghost use Rattle.fm_token.specs.Statements.{IsTokens};
ghost use Rattle.fm_tree.specs.declared.statement.Stmt.{Stmt};
ghost use Rattle.fm_stmt.specs.Names.{has_long, names_of};

use crate::names::statement_long;
use crate::statements::read_statement;
use fm_base::{CheckFail, Line, NoMemory, ParseFail, Refusal, Rule, Token};
use fm_cards::Card;
use fm_token::tokens;
use fm_tree::{Placed, Stmt};
use std::alloc::Global;

fn is_big(token: &Token) -> bool
    ensures { result ≡ is_big token.now }
{
    matches!(token, Token::Big)
}

fn has_big(tokens: &[Token]) -> bool
    ensures { result ≡ has_big tokens.now }
{
    tokens.iter().any(|token| is_big(token))
}

// A number over the greatest one counts as the greatest one.
fn read_so(token: Token) -> Token
    ensures { result ≡ read_so token }
{
    if is_big(&token) {
        Token::Number(i64::MAX)
    } else {
        token
    }
}

fn known(alloc: Global, tokens: Vec<Token>) -> Result<Vec<Token>, NoMemory>
    ensures { IfOk result (λ v. v.items ≡ known tokens.items) }
{
    Ok(
        tokens
            .into_iter()
            .map(|token| read_so(token))
            .collect(alloc)?,
    )
}

// The tokens of a text as they are read, and whether a number is over the greatest one.
fn cut(alloc: Global, text: &[u8]) -> Result<(Vec<Token>, bool), ParseFail>
    ensures { MatchResult result (λ r. HasCut text.now r.0.items r.1)
        (λ e. e ≡ ParseFail.Bad → (ts : List Token) → ¬ IsTokens text.now ts) }
{
    let tokens = tokens(alloc, text)?;
    let big = has_big(&tokens);
    Ok((known(alloc, tokens)?, big))
}

// The tree of a text, and whether a number is over the greatest one.
fn tree(alloc: Global, text: &[u8]) -> Result<(Stmt, bool), ParseFail>
    ensures { MatchResult result (λ r. IsRead text.now r.0 r.1)
        (λ e. e ≡ ParseFail.Bad → (s : Stmt) → ¬ IsTreeOf text.now s) }
{
    let (tokens, big) = match cut(alloc, text) {
        Ok(found) => found,
        Err(fail) => return Err(fail),
    };
    match read_statement(alloc, &tokens) {
        Ok(statement) => Ok((statement, big)),
        Err(fail) => Err(fail),
    }
}

// The rule that is broken where there is a tree.
fn rule_of(big: bool, statement: &Stmt) -> Option<Rule>
    ensures { result ≡ rule_of big (has_long (names_of statement.now)) }
{
    if big {
        Some(Rule::E11)
    } else if statement_long(statement) {
        Some(Rule::E12)
    } else {
        None
    }
}

// The value, unless a rule is broken at the line.
fn unless<T: Drop>(line: Line, rule: Option<Rule>, value: T) -> Result<T, CheckFail>
    ensures { MatchOption rule (result ≡ Ok value)
        (λ r. result ≡ Err (CheckFail.Refused (record { line = line; rule = r }))) }
{
    match rule {
        Some(rule) => Err(CheckFail::Refused(Refusal { line, rule })),
        None => Ok(value),
    }
}

// The statement of a card whose tree is known.
fn judged(card: &Card, big: bool, statement: Stmt) -> Result<Placed, CheckFail>
    requires { IsRead card.now.text statement big }
    ensures ok { IfOk result (λ p. IsStatementOf card.now p) }
    ensures clean { IfOk result (λ _. IsClean (IsBroken card.now)) }
    ensures refused { IfErr result (IsRefusal (IsBroken card.now)) }
{
    let rule = rule_of(big, &statement);
    match unless::<Stmt>(card.line, rule, statement) {
        Ok(stmt) => Ok(Placed {
            line: card.line,
            label: card.label,
            stmt,
        }),
        Err(fail) => Err(fail),
    }
}

/// The statement of a card: the one tree whose spelling is the tokens of the card's text, with the
/// card's line and label. Refused at the card's line by E10 where there is no tree, by E11 where a
/// number is over 2^63 - 1, by E12 where a name has over 31 characters: the first of these that is
/// broken. For the tree such a number counts as 2^63 - 1.
pub fn statement(alloc: Global, card: &Card) -> Result<Placed, CheckFail>
    ensures ok { IfOk result (λ p. IsStatementOf card.now p) }
    ensures clean { IfOk result (λ _. IsClean (IsBroken card.now)) }
    ensures refused { IfErr result (IsRefusal (IsBroken card.now)) }
{
    match tree(alloc, card.text.as_slice()) {
        Ok((statement, big)) => judged(card, big, statement),
        Err(ParseFail::Bad) => Err(CheckFail::Refused(Refusal {
            line: card.line,
            rule: Rule::E10,
        })),
        Err(ParseFail::NoMemory) => Err(CheckFail::NoMemory),
    }
}

/// Two trees with a form of the grammar and one spelling are one.
pub fn one_tree()
    ensures { OneTree }
{}

/// A card has one statement.
pub fn one_statement()
    ensures { OneStatement }
{}

/// All that a card may break is of phase 1.
pub fn all_of_phase_one()
    ensures { AllOfPhaseOne }
{}
