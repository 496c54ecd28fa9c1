//! What instructions take that concern ports or other processes.

ghost use Rattle.std.specs.Prelude.{◌≡◌, ◌&&◌, ◌==◌, ℕ, suc, Some, IfOk, List, reverse};
ghost use Rattle.fm_code_kinds.specs.declared.sorts.Sort as declared;
ghost use Rattle.fm_code_kinds.specs.declared.sorts.Sort.TheVariants as sorts;
ghost use Rattle.fm_code_kinds.specs.Effects.{Effect, Over, at_port, at_two, if_in, if_out, is_port_sort, met, only_results, operands_on, over_where};
ghost use Rattle.fm_code_kinds.specs.Shapes.{is_word, same_sort};
ghost use Rattle.fm_code_kinds.specs.Leading.{meet_leads};
ghost use Rattle.fm_verify_unit.specs.Telling.{by_both, by_sort, in_type, merges, out_type, over, receives, sends};

use crate::cells::{is_word, same_sort, span_sort};
use crate::fitting::{all_outports, fit_received, fit_sent};
use crate::kinds::Kinds;
use crate::searched::{Cells, Known, KnownUnit};
use crate::taking::{finish, one_more, pop_place, take_operands};
use fm_base::NoMemory;
use fm_code::Meet;
use fm_code_kinds::Sort;
use std::alloc::Global;

/// Takes the place of a variable on which nothing but results is left.
fn pop_port(cells: &Cells, held: &mut Kinds) -> Option<Sort>
    ensures { (f : declared.Sort → Effect) → by_sort result f ≡ at_port cells.now held.old f }
{
    let Some(span) = pop_place(held) else {
        return None;
    };
    let sort = span_sort(cells, span)?;
    if held.only_results() {
        Some(sort)
    } else {
        None
    }
}

/// Takes two places, the one that lies deeper given first.
fn pop_two(cells: &Cells, held: &mut Kinds) -> Option<(Sort, Sort)>
    ensures { (f : declared.Sort → declared.Sort → Effect) → by_both result f ≡ at_two cells.now held.old f }
{
    let Some(span) = pop_place(held) else {
        return None;
    };
    let upper = span_sort(cells, span)?;
    let deeper = pop_port(cells, held)?;
    Some((deeper, upper))
}

/// The type of an inport.
fn in_type(sort: Sort) -> Option<u32>
    ensures { result ≡ in_type sort }
{
    match sort {
        Sort::In(of) => Some(of),
        Sort::Integer | Sort::Logical | Sort::Out(_) => None,
    }
}

/// The type of an outport.
fn out_type(sort: Sort) -> Option<u32>
    ensures { result ≡ out_type sort }
{
    match sort {
        Sort::Out(of) => Some(of),
        Sort::Integer | Sort::Logical | Sort::In(_) => None,
    }
}

/// The statement ends, where this holds.
fn over_where(test: bool) -> Option<usize>
    ensures { (to : List ℕ) → over to result ≡ over_where test to }
{
    if test { Some(0) } else { None }
}

/// A send.
fn send(
    alloc: Global,
    shapes: &Known,
    cells: &Cells,
    held: &mut Kinds,
) -> Result<Option<usize>, NoMemory>
    ensures { IfOk result (λ n. (to : List ℕ) → over to n ≡ sends shapes.now cells.now to (operands_on held.old)) }
{
    let operands = take_operands(alloc, held)?;
    let Some(sort) = pop_port(cells, held) else {
        return Ok(None);
    };
    let Some(of) = out_type(sort) else {
        return Ok(None);
    };
    Ok(over_where(fit_sent(cells, shapes.fields_of(of), &operands)))
}

/// A receive.
fn receive(
    alloc: Global,
    shapes: &Known,
    cells: &Cells,
    held: &mut Kinds,
) -> Result<Option<usize>, NoMemory>
    ensures { IfOk result (λ n. (to : List ℕ) → over to n ≡ receives shapes.now cells.now to (operands_on held.old)) }
{
    let operands = take_operands(alloc, held)?;
    let Some(sort) = pop_port(cells, held) else {
        return Ok(None);
    };
    let Some(of) = in_type(sort) else {
        return Ok(None);
    };
    Ok(over_where(fit_received(cells, shapes.fields_of(of), &operands)))
}

/// A merger.
fn merge(alloc: Global, cells: &Cells, held: &mut Kinds) -> Result<Option<usize>, NoMemory>
    ensures { IfOk result (λ n. (to : List ℕ) → over to n ≡ merges cells.now to (operands_on held.old)) }
{
    let operands = take_operands(alloc, held)?;
    let Some(sort) = pop_port(cells, held) else {
        return Ok(None);
    };
    let Some(of) = in_type(sort) else {
        return Ok(None);
    };
    Ok(over_where(all_outports(cells, of, &operands)))
}

/// A channel for an inport and an outport.
fn joins(inport: Sort, outport: Sort) -> Option<usize>
    ensures { (to : List ℕ)
        → over to result ≡ if_in inport (λ type. over_where (same_sort outport (sorts.Out type)) to) }
{
    let of = in_type(inport)?;
    over_where(same_sort(outport, Sort::Out(of)))
}

/// A channel, whose inport lies deeper.
fn channel(cells: &Cells, held: &mut Kinds) -> Option<usize>
    ensures { (to : List ℕ)
        → over to result
        ≡ at_two cells.now held.old (λ i o. if_in i (λ type. over_where (same_sort o (sorts.Out type)) to)) }
{
    let (deeper, upper) = pop_two(cells, held)?;
    joins(deeper, upper)
}

/// A channel, whose outport lies deeper.
fn channel_from(cells: &Cells, held: &mut Kinds) -> Option<usize>
    ensures { (to : List ℕ)
        → over to result
        ≡ at_two cells.now held.old (λ o i. if_in i (λ type. over_where (same_sort o (sorts.Out type)) to)) }
{
    let (deeper, upper) = pop_two(cells, held)?;
    joins(upper, deeper)
}

/// The end of an outport.
fn end_channel(cells: &Cells, held: &mut Kinds) -> Option<usize>
    ensures { (to : List ℕ) → over to result ≡ at_port cells.now held.old (λ s. if_out s (λ type. Over to 0)) }
{
    let sort = pop_port(cells, held)?;
    out_type(sort)?;
    Some(0)
}

/// A move of a port.
fn move_port(cells: &Cells, held: &mut Kinds) -> Option<usize>
    ensures { (to : List ℕ)
        → over to result ≡ at_two cells.now held.old (λ a b. over_where (same_sort a b && is_port_sort (Some a)) to) }
{
    let (deeper, upper) = pop_two(cells, held)?;
    over_where(same_sort(deeper, upper) && !is_word(deeper))
}

/// A probe.
fn probe(cells: &Cells, held: &mut Kinds) -> Option<usize>
    ensures { (to : List ℕ)
        → over to result ≡ at_two cells.now held.old (λ q e. if_in q (λ type. over_where (is_word e) to)) }
{
    let (deeper, upper) = pop_two(cells, held)?;
    in_type(deeper)?;
    over_where(is_word(upper))
}

/// The begin of a block: its join comes right behind.
fn begin(at: usize, next: u32, held: &Kinds) -> Result<Option<usize>, NoMemory>
    ensures { IfOk result (λ n. (to : List ℕ) → over to n ≡ over_where (only_results held.now && (next == suc at)) to) }
{
    let behind = one_more(at)?;
    if next as usize == behind {
        Ok(finish(held))
    } else {
        Ok(None)
    }
}

/// Takes what an instruction takes that ends its statement; gives the number of results that it leaves, or none where
/// it doesn't find what it takes.
pub(crate) fn meet(
    alloc: Global,
    shapes: &Known,
    shape: &KnownUnit,
    at: usize,
    instr: Meet,
    held: &mut Kinds,
) -> Result<Option<usize>, NoMemory>
    ensures { IfOk result (λ n. over (meet_leads instr) n ≡ met shapes.now shape.now at instr held.old) }
{
    let cells = shape.cells();
    match instr {
        Meet::Stop | Meet::Join(_) => Ok(finish(held)),
        Meet::Send(_) => send(alloc, shapes, cells, held),
        Meet::Receive(_) | Meet::ReceiveOr(_, _) => receive(alloc, shapes, cells, held),
        Meet::Channel(_) => Ok(channel(cells, held)),
        Meet::ChannelFrom(_) => Ok(channel_from(cells, held)),
        Meet::Merger(_) => merge(alloc, cells, held),
        Meet::EndChannel(_) => Ok(end_channel(cells, held)),
        Meet::MovePort(_) => Ok(move_port(cells, held)),
        Meet::Probe(_) => Ok(probe(cells, held)),
        Meet::Begin(next) => begin(at, next, held),
    }
}
