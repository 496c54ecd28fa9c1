//! What an instruction takes from the kinds.

ghost use Rattle.std.specs.Prelude.{◌≡◌, ℕ, ◌+◌, ◌∷◌, ◌++◌, Some, None, MatchOption, IfOk, List, Option, cond, reverse};
ghost use Rattle.fm_code.specs.declared.code.Span as code_span;
ghost use Rattle.fm_code.specs.declared.instr.Loop as code_loop;
ghost use Rattle.fm_code_kinds.specs.declared.kinds.Kind as declared;
ghost use Rattle.fm_code_kinds.specs.declared.kinds.Kind.TheVariants as kinds;
ghost use Rattle.fm_code_kinds.specs.Effects.{Effect, at_loop, ending, ends_word, only_results, operands_on, over_where, with_place, with_word, without_words};
ghost use Rattle.fm_verify_unit.specs.Telling.{over};

use crate::kinds::Kinds;
use fm_base::NoMemory;
use fm_code::Span;
use fm_code_kinds::{Kind, Passed};
use std::alloc::Global;

/// Takes a word.
pub(crate) fn pop_word(held: &mut Kinds) -> Option<Option<Span>>
    ensures { MatchOption result
        ((f : Option code_span.Span → List declared.Kind → Option (List declared.Kind)) → with_word held.old f ≡ None)
        (λ span. held.old ≡ kinds.Word span ∷ held.new) }
{
    match held.pop()? {
        Kind::Word(span) => Some(span),
        Kind::Returned | Kind::Operand(_) | Kind::LoopOf(_) => None,
    }
}

/// Takes a word that is known to be one of some.
pub(crate) fn pop_place(held: &mut Kinds) -> Option<Span>
    ensures { MatchOption result
        ((f : code_span.Span → List declared.Kind → Option (List declared.Kind)) → with_place held.old f ≡ None)
        (λ span. held.old ≡ kinds.Word (Some span) ∷ held.new) }
{
    match held.pop()? {
        Kind::Word(span) => span,
        Kind::Returned | Kind::Operand(_) | Kind::LoopOf(_) => None,
    }
}

/// Takes so many words.
pub(crate) fn pop_words(count: u32, held: &mut Kinds) -> Option<()>
    ensures { MatchOption result (without_words count held.old ≡ None)
        (λ _. without_words count held.old ≡ Some held.new) }
{
    let mut left = count;
    'words: while 0 < left {
        pop_word(held)?;
        left -= 1;
    }
    Some(())
}

/// The next number.
pub(crate) fn one_more(number: usize) -> Result<usize, NoMemory>
    ensures { IfOk result (λ next. next ≡ number + 1) }
{
    number.checked_add(1).ok_or(NoMemory)
}

/// A statement ends with nothing but results left.
pub(crate) fn finish(held: &Kinds) -> Option<usize>
    ensures { (to : List ℕ) → over to result ≡ over_where (only_results held.now) to }
{
    if held.only_results() { Some(0) } else { None }
}

/// A statement ends with a word and nothing else.
pub(crate) fn finish_word(held: &mut Kinds) -> Option<usize>
    ensures { (to : List ℕ) → over to result ≡ ends_word held.old to }
{
    pop_word(held)?;
    finish(held)
}

/// A statement ends with a loop and so many words below it.
pub(crate) fn finish_loop(count: u32, held: &mut Kinds) -> Option<usize>
    ensures { (to : List ℕ) → over to result ≡ at_loop held.old count to }
{
    match held.pop()? {
        Kind::LoopOf(_) => {}
        Kind::Returned | Kind::Operand(_) | Kind::Word(_) => return None,
    }
    pop_words(count, held)?;
    finish(held)
}

/// Takes the operands, and gives them in their order.
pub(crate) fn take_operands(alloc: Global, held: &mut Kinds) -> Result<Vec<Passed>, NoMemory>
    ensures { IfOk result
        (λ os. os.items ≡ reverse (operands_on held.old).operands × held.new ≡ (operands_on held.old).rest) }
{
    let mut taken = Vec::new(alloc);
    'operands: while let Some(operand) = held.pop_operand() {
        taken.push(operand)?;
    }
    taken.reverse();
    Ok(taken)
}
