//! What instructions that evaluate take and give.

ghost use Rattle.std.specs.Prelude.{◌≡◌, ℤ, cond, Some, None, MatchOption};
ghost use Rattle.fm_code.specs.declared.instr.Eval.TheVariants as evals;
ghost use Rattle.fm_values.specs.Intrinsics.{takes};
ghost use Rattle.fm_code_kinds.specs.Effects.{evaluated, placed, pushed, scaled, shifted, without_words};
ghost use Rattle.fm_code_kinds.specs.Shapes.{are_words, words_of};
ghost use Rattle.fm_verify_unit.specs.Telling.{with_word_on};

use crate::cells::{are_words, known};
use crate::kinds::Kinds;
use crate::searched::Cells;
use crate::taking::{pop_place, pop_word, pop_words};
use fm_code::{Eval, Span};
use fm_values::Intrinsic;

/// A number that may be that of a word.
fn pushed(frame: u32, cells: &Cells, number: i64) -> Option<Span>
    requires { frame ≡ words_of cells.now }
    ensures { result ≡ pushed cells.now number }
{
    if number < 0 {
        None
    } else {
        known(frame, number as u64, 1)
    }
}

/// The words of an array by the places in it.
fn shifted(frame: u32, cells: &Cells, first: u32, span: Span) -> Option<Span>
    requires { frame ≡ words_of cells.now }
    ensures { result ≡ placed cells.now (shifted first span) }
{
    known(
        frame,
        u64::from(first) + u64::from(span.first),
        u64::from(span.count),
    )
}

/// The places of an array with one dimension more.
fn scaled(frame: u32, cells: &Cells, extent: u32, span: Span) -> Option<Span>
    requires { frame ≡ words_of cells.now }
    ensures { result ≡ placed cells.now (scaled extent span) }
{
    known(
        frame,
        u64::from(extent) * u64::from(span.first),
        u64::from(extent) * u64::from(span.count),
    )
}

/// Whether the words of an array at these places are those of a variable that is no port.
fn are_elements(cells: &Cells, first: u32, span: Span) -> bool
    ensures { result ≡ are_words cells.now (shifted first span) }
{
    are_words(
        cells,
        u64::from(first) + u64::from(span.first),
        u64::from(span.count),
    )
}

/// A word, where the test holds.
fn word_where(test: bool) -> Option<Option<Span>>
    ensures { result ≡ cond test (Some None) None }
{
    if test { Some(None) } else { None }
}

/// Takes the words of an intrinsic function.
fn intrinsic(function: Intrinsic, count: u32, held: &mut Kinds) -> Option<()>
    ensures { MatchOption result (cond (takes function count) (without_words count held.old) None ≡ None)
        (λ _. cond (takes function count) (without_words count held.old) None ≡ Some held.new) }
{
    if function.takes(count as usize) {
        pop_words(count, held)
    } else {
        None
    }
}

/// Takes an index behind others: a place in the array with one dimension more.
fn dimension(frame: u32, cells: &Cells, extent: u32, held: &mut Kinds) -> Option<Option<Span>>
    requires { frame ≡ words_of cells.now }
    ensures { (low : ℤ) → with_word_on result held.new ≡ evaluated cells.now (evals.Dimension low extent) held.old }
{
    let span = pop_place(held)?;
    pop_word(held)?;
    Some(scaled(frame, cells, extent, span))
}

/// Takes a place in an array that begins at this word, and gives what stands there.
fn element(cells: &Cells, first: u32, held: &mut Kinds) -> Option<Option<Span>>
    ensures { with_word_on result held.new ≡ evaluated cells.now (evals.Element first) held.old }
{
    let span = pop_place(held)?;
    word_where(are_elements(cells, first, span))
}

/// Takes what an instruction takes; gives the word that it gives.
pub(crate) fn evaluate(
    frame: u32,
    cells: &Cells,
    instr: Eval,
    held: &mut Kinds,
) -> Option<Option<Span>>
    requires { frame ≡ words_of cells.now }
    ensures { with_word_on result held.new ≡ evaluated cells.now instr held.old }
{
    match instr {
        Eval::Push(number) => Some(pushed(frame, cells, number)),
        Eval::Load(word) => word_where(are_words(cells, u64::from(word), 1)),
        Eval::Result(number) => word_where((number as usize) < held.results()),
        Eval::Subscript(_, extent) => {
            pop_word(held)?;
            Some(known(frame, 0, u64::from(extent)))
        }
        Eval::Dimension(_, extent) => dimension(frame, cells, extent, held),
        Eval::Element(first) => element(cells, first, held),
        Eval::Locate(first) => {
            let span = pop_place(held)?;
            Some(shifted(frame, cells, first, span))
        }
        Eval::Apply(_) => {
            pop_word(held)?;
            pop_word(held)?;
            Some(None)
        }
        Eval::Negate | Eval::Not => {
            pop_word(held)?;
            Some(None)
        }
        Eval::Intrinsic(function, count) => {
            intrinsic(function, count, held)?;
            Some(None)
        }
    }
}
