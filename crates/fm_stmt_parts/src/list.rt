//! Lists of parts.

ghost use Rattle.std.specs.Prelude.{List, Option};
ghost use Rattle.fm_base.specs.declared.token.Token.{Token};
ghost use Rattle.fm_stmt_parts.specs.Gives.{Gives};
ghost use Rattle.fm_stmt_parts.specs.Reading.{before_read, bracketed_read, listed_read, optional_behind_read, more_read, parens_read, some_read, after_items};

use crate::mark::{Mark, is_comma};
use crate::reader::{a_mark, ended_by, front, goes_on, starts_with};
use fm_base::{ParseFail, Seq, Token};
use std::alloc::Global;

/// A form that may be an item of a list.
pub trait Form {
    /// What it spells.
    type Item: Drop;

    ghost reads: { List Token → Option (Self.Item × List Token) };

    /// The item at the front of the tokens, and the tokens behind it.
    fn read_one(alloc: Global, tokens: &[Token]) -> Result<(Self::Item, &[Token]), ParseFail>
        ensures { Gives (λ p. (p.0, p.1.now)) result (reads tokens.now) };
}

// Items, each behind a comma, put behind the items that there are.
fn grow<F: Form>(
    alloc: Global,
    mut items: Vec<F::Item>,
    tokens: &[Token],
) -> Result<(Vec<F::Item>, &[Token]), ParseFail>
    ensures { Gives (λ p. (p.0.items, p.1.now)) result (after_items items.items (more_read F.reads tokens.now)) }
{
    let mut rest = tokens;
    'items: for _ in 0..tokens.len() {
        let Some((token, behind)) = front(rest) else {
            return Ok((items, rest));
        };
        if !is_comma(token) {
            return Ok((items, rest));
        }
        let (item, behind) = match F::read_one(alloc, behind) {
            Ok(found) => found,
            Err(e) => return Err(e),
        };
        items.push(item)?;
        rest = behind;
    }
    Ok((items, rest))
}

/// Items, each behind a comma.
pub fn more<F: Form>(alloc: Global, tokens: &[Token]) -> Result<(Seq<F::Item>, &[Token]), ParseFail>
    ensures { Gives (λ p. (p.0, p.1.now)) result (more_read F.reads tokens.now) }
{
    let (items, rest) = grow::<F>(alloc, Vec::new(alloc), tokens)?;
    Ok((Seq::from_vec(items), rest))
}

/// One item or more, with commas between.
pub fn some<F: Form>(alloc: Global, tokens: &[Token]) -> Result<(Seq<F::Item>, &[Token]), ParseFail>
    ensures { Gives (λ p. (p.0, p.1.now)) result (some_read F.reads tokens.now) }
{
    let (first, rest) = F::read_one(alloc, tokens)?;
    let mut items = Vec::new(alloc);
    items.push(first)?;
    let (items, rest) = grow::<F>(alloc, items, rest)?;
    Ok((Seq::from_vec(items), rest))
}

/// Items with commas between, none where the end or a closing parenthesis comes.
pub fn listed<F: Form>(
    alloc: Global,
    tokens: &[Token],
) -> Result<(Seq<F::Item>, &[Token]), ParseFail>
    ensures { Gives (λ p. (p.0, p.1.now)) result (listed_read F.reads tokens.now) }
{
    if goes_on(tokens) {
        some::<F>(alloc, tokens)
    } else {
        Ok((Seq::new(alloc), tokens))
    }
}

/// Items with commas between, perhaps none, and a closing parenthesis.
pub fn listed_and_closed<F: Form>(
    alloc: Global,
    tokens: &[Token],
) -> Result<(Seq<F::Item>, &[Token]), ParseFail>
    ensures { Gives (λ p. (p.0, p.1.now)) result (before_read (listed_read F.reads) Mark.Close tokens.now) }
{
    let (items, rest) = listed::<F>(alloc, tokens)?;
    ended_by(items, Mark::Close, rest)
}

/// One item or more in parentheses.
pub fn some_in_parens<F: Form>(
    alloc: Global,
    tokens: &[Token],
) -> Result<(Seq<F::Item>, &[Token]), ParseFail>
    ensures { Gives (λ p. (p.0, p.1.now)) result (parens_read (some_read F.reads) tokens.now) }
{
    let rest = a_mark(Mark::Open, tokens)?;
    let (items, rest) = some::<F>(alloc, rest)?;
    ended_by(items, Mark::Close, rest)
}

/// Items in parentheses. None where no parenthesis comes.
pub fn bracketed<F: Form>(
    alloc: Global,
    tokens: &[Token],
) -> Result<(Seq<F::Item>, &[Token]), ParseFail>
    ensures { Gives (λ p. (p.0, p.1.now)) result (bracketed_read F.reads tokens.now) }
{
    if starts_with(Mark::Open, tokens) {
        some_in_parens::<F>(alloc, tokens)
    } else {
        Ok((Seq::new(alloc), tokens))
    }
}

/// Items in parentheses, perhaps none. `None` where no parenthesis comes.
pub fn optional_listed<F: Form>(
    alloc: Global,
    tokens: &[Token],
) -> Result<(Option<Seq<F::Item>>, &[Token]), ParseFail>
    ensures { Gives (λ p. (p.0, p.1.now)) result
        (optional_behind_read Mark.Open (before_read (listed_read F.reads) Mark.Close) tokens.now) }
{
    if !starts_with(Mark::Open, tokens) {
        return Ok((None, tokens));
    }
    let rest = a_mark(Mark::Open, tokens)?;
    let (items, rest) = listed_and_closed::<F>(alloc, rest)?;
    Ok((Some(items), rest))
}

/// A fixed token and an item, or nothing where that token does not come.
pub fn optional_behind<F: Form>(
    alloc: Global,
    mark: Mark,
    tokens: &[Token],
) -> Result<(Option<F::Item>, &[Token]), ParseFail>
    ensures { Gives (λ p. (p.0, p.1.now)) result (optional_behind_read mark F.reads tokens.now) }
{
    if !starts_with(mark, tokens) {
        return Ok((None, tokens));
    }
    let rest = a_mark(mark, tokens)?;
    let (item, rest) = F::read_one(alloc, rest)?;
    Ok((Some(item), rest))
}
