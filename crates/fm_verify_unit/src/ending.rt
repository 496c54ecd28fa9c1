//! What instructions take that end their statement.

ghost use Rattle.std.specs.Prelude.{◌≡◌, ◌&&◌, ℕ, cond, IfOk, List, [], ◌∷◌};
ghost use Rattle.fm_code.specs.declared.instr.End.TheVariants as ends;
ghost use Rattle.fm_code_kinds.specs.Effects.{Ill, calls_fit, ended, ending, ends_word, given_where, only_results, operands_on, over_where, with_place, with_word};
ghost use Rattle.fm_code_kinds.specs.Shapes.{are_words, is_function, is_subroutine, single};
ghost use Rattle.fm_code_kinds.specs.Leading.{end_leads};
ghost use Rattle.fm_verify_unit.specs.Telling.{calls, over};

use crate::cells::{are_words, is_function, is_process, is_subroutine, spans_words};
use crate::fitting::fit_formals;
use crate::kinds::Kinds;
use crate::searched::{Cells, Known, KnownUnit};
use crate::taking::{
    finish, finish_loop, finish_word, one_more, pop_place, pop_word, take_operands,
};
use fm_base::NoMemory;
use fm_code::End;
use fm_code_kinds::Heading;
use std::alloc::Global;

/// What a unit has to be that is called.
#[derive(Clone, Copy)]
pub(crate) enum Called {
    /// A SUBROUTINE.
    Subroutine,
    /// A FUNCTION.
    Function,
    /// A PROCESS.
    Process,
}

fn is_called(called: Called, heading: Heading) -> bool
    ensures { result ≡ calls called heading }
{
    match called {
        Called::Subroutine => is_subroutine(heading),
        Called::Function => is_function(heading),
        Called::Process => is_process(heading),
    }
}

/// Takes the operands of a call; whether they fit, and nothing but results is left.
fn calls_fit(
    alloc: Global,
    shapes: &Known,
    shape: &KnownUnit,
    callee: u32,
    called: Called,
    held: &mut Kinds,
) -> Result<bool, NoMemory>
    ensures { IfOk result (λ fit. (fit ≡ calls_fit shapes.now shape.now callee (calls called) (operands_on held.old))
        × (held.new ≡ (operands_on held.old).rest)) }
{
    let operands = take_operands(alloc, held)?;
    match shapes.unit(callee as usize) {
        Some(unit) => Ok(
            is_called(called, unit.heading())
                && (held.only_results() && fit_formals(shape.cells(), unit.cells(), &operands)),
        ),
        None => Ok(false),
    }
}

/// A store.
fn store(cells: &Cells, word: u32, held: &mut Kinds) -> Option<usize>
    ensures { (to : ℕ)
        → over (to ∷ []) result ≡ cond (are_words cells.now (single word)) (ends_word held.old (to ∷ [])) Ill }
{
    if are_words(cells, u64::from(word), 1) {
        finish_word(held)
    } else {
        None
    }
}

/// A store at a place.
fn store_at(cells: &Cells, held: &mut Kinds) -> Option<usize>
    ensures { (to : List ℕ)
        → over to result
        ≡ ending to (with_word held.old (λ s ks. with_place ks (λ t ks. given_where (are_words cells.now t) ks))) }
{
    pop_word(held)?;
    let span = pop_place(held)?;
    if spans_words(cells, span) {
        finish(held)
    } else {
        None
    }
}

/// A statement ends, where this holds besides.
fn finish_where(test: bool, held: &Kinds) -> Option<usize>
    ensures { (to : List ℕ) → over to result ≡ over_where (test && only_results held.now) to }
{
    if test { finish(held) } else { None }
}

/// A return with a value.
fn return_value(cells: &Cells, heading: Heading, word: u32, held: &Kinds) -> Option<usize>
    ensures { (to : List ℕ)
        → over to result
        ≡ over_where (is_function heading && (are_words cells.now (single word) && only_results held.now)) to }
{
    if is_function(heading) {
        finish_where(are_words(cells, u64::from(word), 1), held)
    } else {
        None
    }
}

/// A call.
fn call(
    alloc: Global,
    shapes: &Known,
    shape: &KnownUnit,
    callee: u32,
    called: Called,
    held: &mut Kinds,
) -> Result<Option<usize>, NoMemory>
    ensures { IfOk result (λ n. (to : List ℕ)
        → over to n ≡ over_where (calls_fit shapes.now shape.now callee (calls called) (operands_on held.old)) to) }
{
    if calls_fit(alloc, shapes, shape, callee, called, held)? {
        Ok(Some(0))
    } else {
        Ok(None)
    }
}

/// A reference to a function: the statement goes on behind it, with one result more.
fn refer(
    alloc: Global,
    shapes: &Known,
    shape: &KnownUnit,
    at: usize,
    callee: u32,
    to: u32,
    held: &mut Kinds,
) -> Result<Option<usize>, NoMemory>
    ensures { IfOk result (λ n. over (to ∷ []) n ≡ ended shapes.now shape.now at (ends.Refer callee to) held.old) }
{
    let fit = calls_fit(alloc, shapes, shape, callee, Called::Function, held)?;
    let results = one_more(held.results())?;
    let next = one_more(at)?;
    if fit && to as usize == next {
        Ok(Some(results))
    } else {
        Ok(None)
    }
}

/// Takes what an instruction takes that ends its statement; gives the number of results that it leaves, or none where
/// it doesn't find what it takes.
pub(crate) fn end(
    alloc: Global,
    shapes: &Known,
    shape: &KnownUnit,
    at: usize,
    instr: End,
    held: &mut Kinds,
) -> Result<Option<usize>, NoMemory>
    ensures { IfOk result (λ n. over (end_leads instr) n ≡ ended shapes.now shape.now at instr held.old) }
{
    let cells = shape.cells();
    match instr {
        End::Goto(_) | End::Print(_) => Ok(finish(held)),
        End::Test(_, _) => Ok(finish_word(held)),
        End::Store(word, _) => Ok(store(cells, word, held)),
        End::StoreAt(_) => Ok(store_at(cells, held)),
        End::Enter(_, _) => Ok(finish_loop(3, held)),
        End::Again(_, _) => Ok(finish_loop(0, held)),
        End::Call(callee, _) => call(alloc, shapes, shape, callee, Called::Subroutine, held),
        End::Refer(callee, to) => refer(alloc, shapes, shape, at, callee, to, held),
        End::Return => Ok(finish_where(is_subroutine(shape.heading()), held)),
        End::ReturnValue(word) => Ok(return_value(cells, shape.heading(), word, held)),
        End::Start(callee, _) => call(alloc, shapes, shape, callee, Called::Process, held),
    }
}
