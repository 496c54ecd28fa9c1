//! The statements of a source.

ghost use Rattle.std.specs.Prelude.{◌≤◌, ◌∷◌, ◌++◌, [], length, List, IfOk, IfErr};
ghost use Rattle.fm_base.specs.Verdict.{IsClean, IsRefusal};
ghost use Rattle.fm_cards.specs.Cards.{cards_of};
ghost use Rattle.fm_cards.specs.declared.card.Card.{Card};
ghost use Rattle.fm_front.specs.Reading.{HasRead};
ghost use Rattle.fm_verdict.specs.Verdict.{AreStatementsOf, IsBrokenForm};
ghost use Rattle.fm_rules.specs.Program.{AreShaped};

use fm_base::{CheckFail, NoMemory, Refusal, keep_earlier};
use fm_cards::{Card, cards};
use fm_stmt::statement;
use fm_tree::Placed;
use std::alloc::Global;

// Reads one card more: its statement goes last, or the rule that it breaks may be the least so far.
fn read_card(
    alloc: Global,
    card: &Card,
    statements: &mut Vec<Placed>,
    best: Option<Refusal>,
) -> Result<Option<Refusal>, NoMemory>
    ensures { IfOk result (λ v. (cs : List Card) → HasRead cs statements.old.items best
        → HasRead (cs ++ card.now ∷ []) statements.new.items v) }
{
    match statement(alloc, card) {
        Ok(placed) => {
            statements.push(placed)?;
            Ok(best)
        }
        Err(CheckFail::Refused(refusal)) => Ok(keep_earlier(best, refusal)),
        Err(CheckFail::NoMemory) => Err(NoMemory),
    }
}

// The statements of cards, and the least rule that one of them breaks.
fn read_cards(alloc: Global, cards: &[Card]) -> Result<(Vec<Placed>, Option<Refusal>), NoMemory>
    ensures { IfOk result (λ r. HasRead cards.now r.0.items r.1) }
{
    let mut statements = Vec::new(alloc);
    let mut best = None;
    for card in cards {
        best = read_card(alloc, card, &mut statements, best)?;
    }
    Ok((statements, best))
}

/// The statements of a source of at most 1,000,000 bytes, one for each card. Refused by the least rule
/// that the form of the text or a card breaks, or for want of memory.
pub fn statements(alloc: Global, source: &[u8]) -> Result<Vec<Placed>, CheckFail>
    requires { length source.now ≤ 1_000_000 }
    ensures statements { IfOk result (λ v. AreStatementsOf (cards_of source.now) v.items) }
    ensures shaped { IfOk result (λ v. AreShaped v.items) }
    ensures clean { IfOk result (λ _. IsClean (IsBrokenForm source.now)) }
    ensures refused { IfErr result (IsRefusal (IsBrokenForm source.now)) }
{
    let cards = match cards(alloc, source) {
        Ok(cards) => cards,
        Err(fail) => return Err(fail),
    };
    let (statements, best) = read_cards(alloc, cards.as_slice())?;
    match best {
        Some(refusal) => Err(CheckFail::Refused(refusal)),
        None => Ok(statements),
    }
}
