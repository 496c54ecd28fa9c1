//! Bodies.

ghost use Rattle.fm_same.specs.Same.{IsSameTest};

use crate::code::same_code;
use crate::{same_items, same_options, same_words};
use fm_base::Machine;
use fm_code::{Back, Body, Frame, Pile, Start, Trips};

fn same_machine(first: &Machine, second: &Machine) -> bool
    ensures { IsSameTest result first.now second.now }
{
    first.first == second.first && first.count == second.count
}

fn same_count(first: &u64, second: &u64) -> bool
    ensures { IsSameTest result first.now second.now }
{
    *first == *second
}

fn same_trips(first: &Trips, second: &Trips) -> bool
    ensures { IsSameTest result first.now second.now }
{
    first.by == second.by && same_options(&first.behind, &second.behind, same_count)
}

fn same_loop(first: &Option<Trips>, second: &Option<Trips>) -> bool
    ensures { IsSameTest result first.now second.now }
{
    same_options(first, second, same_trips)
}

fn same_back(first: &Back, second: &Back) -> bool
    ensures { IsSameTest result first.now second.now }
{
    first.from == second.from
        && first.to == second.to
        && first.words == second.words
        && first.port == second.port
}

fn same_start(first: &Start, second: &Start) -> bool
    ensures { IsSameTest result first.now second.now }
{
    first.unit == second.unit
        && first.node == second.node
        && same_machine(&first.machine, &second.machine)
        && same_words(first.words.as_slice(), second.words.as_slice())
        && same_items(first.backs.as_slice(), second.backs.as_slice(), same_back)
}

fn same_frame(first: &Frame, second: &Frame) -> bool
    ensures { IsSameTest result first.now second.now }
{
    first.unit == second.unit
        && first.address == second.address
        && same_words(first.words.as_slice(), second.words.as_slice())
        && same_words(first.results.as_slice(), second.results.as_slice())
        && same_items(first.loops.as_slice(), second.loops.as_slice(), same_loop)
        && same_items(first.backs.as_slice(), second.backs.as_slice(), same_back)
        && same_items(
            first.starts.as_slice(),
            second.starts.as_slice(),
            same_start,
        )
}

fn same_pile(first: &Pile<Frame>, second: &Pile<Frame>) -> bool
    ensures { IsSameTest result first.now second.now }
{
    let ones = first.outermost_first();
    let others = second.outermost_first();
    same_items(ones, others, same_frame)
}

/// Whether two bodies are the same, with their code. Takes no memory. What is quick to compare comes first, and the
/// code last.
pub fn same_body(first: &Body, second: &Body) -> bool
    ensures { IsSameTest result first.now second.now }
{
    first.node == second.node
        && same_machine(&first.machine, &second.machine)
        && same_frame(&first.frame, &second.frame)
        && same_pile(&first.below, &second.below)
        && same_code(first.code.code(), second.code.code())
}
