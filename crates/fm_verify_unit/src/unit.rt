//! The code of a unit.

ghost use Rattle.std.specs.Prelude.{◌≡◌, ◌↔◌, ◌+◌, ◌<◌, ◌||◌, ℕ, Some, None, IfOk, IsTrue, List, [], cond, length, nat_lt, slice_get};
ghost use Rattle.fm_code_kinds.specs.Effects.{effect, evaluated, goes_on, results_in};
ghost use Rattle.fm_code_kinds.specs.Kinded.{Kinded};
ghost use Rattle.fm_code_kinds.specs.Shapes.{words_of};
ghost use Rattle.fm_verify_unit.specs.Along.{Stepped, Walked, addresses, all_fit, all_land, all_marked, coded_by, is_marked, lands};
ghost use Rattle.fm_code_kinds.specs.Leading.{leads};
ghost use Rattle.fm_verify_unit.specs.Leads.{led};
ghost use Rattle.fm_verify_unit.specs.Telling.{over};

use crate::building::build;
use crate::ending::end;
use crate::evaluating::evaluate;
use crate::kinds::Kinds;
use crate::leading::{Leads, leads_of};
use crate::meeting::meet;
use crate::searched::{Cells, Known, KnownUnit};
use fm_base::NoMemory;
use fm_code::{Entry, Eval, Instr, front};
use fm_code_kinds::Kind;
use std::alloc::Global;

/// The parts of a unit that are one for all of its instructions.
#[derive(Clone, Copy)]
pub struct Own {
    /// The words of its frame.
    pub frame: u32,
    /// Its loops.
    pub loops: u64,
}

/// An instruction that evaluates.
fn step_eval(
    frame: u32,
    cells: &Cells,
    instr: Eval,
    held: &mut Kinds,
) -> Result<Option<bool>, NoMemory>
    requires { frame ≡ words_of cells.now }
    ensures { IfOk result (Stepped [] held.new (goes_on (evaluated cells.now instr held.old))) }
{
    let Some(span) = evaluate(frame, cells, instr, held) else {
        return Ok(None);
    };
    held.push(Kind::Word(span))?;
    Ok(Some(false))
}

/// What is left by an instruction that ends its statement.
fn step_over(left: Option<usize>, held: &mut Kinds) -> Result<Option<bool>, NoMemory>
    ensures { (to : List ℕ) → IfOk result (Stepped to held.new (over to left)) }
{
    let Some(results) = left else {
        return Ok(None);
    };
    held.reset(results)?;
    Ok(Some(true))
}

/// One instruction: whether it ends its statement, or none where it doesn't find what it takes.
fn step(
    alloc: Global,
    shapes: &Known,
    shape: &KnownUnit,
    own: Own,
    at: usize,
    instr: Instr,
    held: &mut Kinds,
) -> Result<Option<bool>, NoMemory>
    requires { own.frame ≡ words_of shape.now.cells }
    ensures { IfOk result (Stepped (leads instr) held.new (effect shapes.now shape.now own.loops at instr held.old)) }
{
    match instr {
        Instr::Eval(instr) => step_eval(own.frame, shape.cells(), instr, held),
        Instr::Build(instr) => {
            if build(alloc, shape.cells(), own.loops, instr, held)? {
                Ok(Some(false))
            } else {
                Ok(None)
            }
        }
        Instr::End(instr) => {
            let left = end(alloc, shapes, shape, at, instr, held)?;
            step_over(left, held)
        }
        Instr::Meet(instr) => {
            let left = meet(alloc, shapes, shape, at, instr, held)?;
            step_over(left, held)
        }
    }
}

/// What is kept of the addresses of a unit.
pub(crate) struct Marks {
    /// Of each, how many results are on its list, where nothing else is.
    pub marks: Vec<Option<usize>>,
    /// How many results its instruction leaves, where it ends its statement.
    pub lefts: Vec<Option<usize>>,
}

impl Drop for Marks {
    fn drop(self) {
        let Marks {
            marks: _marks,
            lefts: _lefts,
        } = self;
    }
}

/// The instruction at an address.
fn instr_at(code: &[Instr], at: usize) -> Instr
    requires { at < length code.now }
    ensures { slice_get code.now at ≡ Some result }
{
    code[at]
}

/// How many results are left, where the statement is over.
fn left(over: bool, held: &Kinds) -> Option<usize>
    ensures { result ≡ cond over (Some (results_in held.now)) None }
{
    if over { Some(held.results()) } else { None }
}

/// Whether there is another instruction behind the address, where this one goes on.
fn has_next(over: bool, at: usize, many: usize) -> bool
    requires { at < many }
    ensures { result ≡ (over || nat_lt (at + 1) many) }
{
    over || at + 1 < many
}

/// Goes over the code. None where an instruction doesn't find what it takes, or goes on where there is no other.
fn walk(
    alloc: Global,
    shapes: &Known,
    shape: &KnownUnit,
    own: Own,
    code: &[Instr],
) -> Result<Option<Marks>, NoMemory>
    requires { own.frame ≡ words_of shape.now.cells }
    ensures { IfOk result (Walked shapes.now shape.now own.loops code.now) }
{
    let mut held = Kinds::new(alloc);
    let mut marks = Vec::new(alloc);
    let mut lefts = Vec::new(alloc);
    'code: for at in 0..code.len() {
        marks.push(held.mark())?;
        let Some(over) = step(alloc, shapes, shape, own, at, instr_at(code, at), &mut held)? else {
            return Ok(None);
        };
        if !has_next(over, at, code.len()) {
            return Ok(None);
        }
        lefts.push(left(over, &held))?;
    }
    Ok(Some(Marks { marks, lefts }))
}

/// Whether so many results are on the list at the address, and nothing else.
fn is_marked(marks: &[Option<usize>], results: usize, to: u32) -> bool
    ensures { result ≡ is_marked results (slice_get marks.now to) }
{
    match marks.get(to as usize) {
        Some(Some(there)) => *there == results,
        Some(None) | None => false,
    }
}

/// Whether this is so of each of these addresses.
fn all_marked(marks: &[Option<usize>], results: usize, to: Leads) -> bool
    ensures { result ≡ all_marked marks.now results (led to) }
{
    match to {
        Leads::Nowhere => true,
        Leads::To(one) => is_marked(marks, results, one),
        Leads::Either(one, other) => {
            is_marked(marks, results, one) && is_marked(marks, results, other)
        }
    }
}

/// Whether what the instruction leaves is on the list wherever it goes.
fn lands(marks: &[Option<usize>], left: Option<usize>, instr: Instr) -> bool
    ensures { result ≡ lands marks.now (Some left) instr }
{
    match left {
        Some(results) => all_marked(marks, results, leads_of(instr)),
        None => true,
    }
}

/// The same of all.
fn all_land(marks: &[Option<usize>], lefts: &[Option<usize>], code: &[Instr]) -> bool
    ensures { result ≡ all_land marks.now lefts.now code.now }
{
    let mut lefts = lefts;
    let mut code = code;
    'code: while let Some((left, others)) = front(lefts) {
        let Some((instr, behind)) = front(code) else {
            return true;
        };
        if !lands(marks, left, instr) {
            return false;
        }
        lefts = others;
        code = behind;
    }
    true
}

/// Whether nothing is on the list where the statements begin.
fn begin_empty(marks: &[Option<usize>], entries: &[Entry]) -> bool
    ensures { result ≡ all_marked marks.now 0 (addresses entries.now) }
{
    let mut rest = entries;
    'entries: while let Some((entry, behind)) = front(rest) {
        if !is_marked(marks, 0, entry.address) {
            return false;
        }
        rest = behind;
    }
    true
}

/// Whether nothing is on the list where the statements begin, and what each instruction leaves is wherever it goes.
fn all_fit(walked: &Marks, entries: &[Entry], code: &[Instr]) -> bool
    ensures { result ≡ all_fit walked.now.marks.items walked.now.lefts.items (addresses entries.now) code.now }
{
    begin_empty(&walked.marks, entries) && all_land(&walked.marks, &walked.lefts, code)
}

/// Whether the code of a unit has its kinds: a list for each address, as the instructions take and give and go. Linear
/// in the code, but that words are looked up in its variables by halves.
///
/// # Errors
/// `NoMemory` is want of memory.
pub fn kinded(
    alloc: Global,
    shapes: &Known,
    shape: &KnownUnit,
    own: Own,
    entries: &[Entry],
    code: &[Instr],
) -> Result<bool, NoMemory>
    requires frame { own.frame ≡ words_of shape.now.cells }
    // The unit is Kinded exactly where the answer is yes.
    ensures { IfOk result (λ b. IsTrue b ↔ Kinded shapes.now shape.now (coded_by own.loops entries.now code.now)) }
{
    let Some(walked) = walk(alloc, shapes, shape, own, code)? else {
        return Ok(false);
    };
    Ok(all_fit(&walked, entries, code))
}
