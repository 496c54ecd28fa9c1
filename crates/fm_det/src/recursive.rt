//! Recursion.

ghost use Rattle.std.specs.Prelude.{◌≡◌, None, IfOk};
ghost use Rattle.fm_base.specs.declared.rule.Rule.TheVariants.{E45};
ghost use Rattle.fm_base.specs.Verdict.{IsVerdict, least_from, place, when};
ghost use Rattle.fm_rules.specs.Recursion.{IsRecursion};
ghost use Rattle.fm_det.specs.Search.{all_back_calls, back_calls, is_back};

use fm_base::{NoMemory, Refusal, Rule, Seq, keep_earlier};
use fm_call_graph::{all_calls, graph_of, same_name};
use fm_graph::components;
use fm_rules::Call;
use fm_symbols::Context;
use fm_tree::Units;
use std::alloc::Global;

/// Whether a call leads back to its unit: both are in one component.
fn is_back(names: &[usize], unit: usize, call: Call) -> bool
    ensures { result ≡ is_back names.now unit call }
{
    same_name(names.get(unit).copied(), names.get(call.target).copied())
}

fn keep_back_call(
    names: &[usize],
    unit: usize,
    call: Call,
    best: Option<Refusal>,
) -> Option<Refusal>
    ensures { result ≡ least_from best (when (is_back names.now unit call) (place call.line.0 E45)) }
{
    if is_back(names, unit, call) {
        let refusal = Refusal {
            line: call.line,
            rule: Rule::E45,
        };
        return keep_earlier(best, refusal);
    }
    best
}

#[tactic(auto, using(fm_base::proofs::Least::least_from_append))]
fn back_calls(
    names: &[usize],
    unit: usize,
    calls: &[Call],
    best: Option<Refusal>,
) -> Option<Refusal>
    ensures { result ≡ least_from best (back_calls names.now unit calls.now) }
{
    let mut best = best;
    'calls: for call in calls {
        best = keep_back_call(names, unit, *call, best);
    }
    best
}

#[tactic(auto, using(fm_base::proofs::Least::least_from_append))]
fn all_back_calls(names: &[usize], calls: &[Seq<Call>]) -> Option<Refusal>
    ensures { result ≡ least_from None (all_back_calls names.now 0 calls.now) }
{
    let mut best = None;
    'units: for unit in 0..calls.len() {
        best = back_calls(names, unit, calls[unit].as_slice(), best);
    }
    best
}

/// The least call that is a recursion, by CALL or by a reference of a function: the unit that is called reaches the
/// unit of the call, or is it. The time is in proportion to the calls, but for finding units by their names.
pub fn recursion(
    alloc: Global,
    units: &Units,
    context: &Context,
) -> Result<Option<Refusal>, NoMemory>
    ensures { IfOk result (IsVerdict (IsRecursion units.now.units context.now)) }
{
    let calls = all_calls(alloc, false, units.units.as_slice(), context)?;
    let graph = graph_of(alloc, calls.as_slice())?;
    let names = components(alloc, graph.as_slice())?;
    Ok(all_back_calls(&names, calls.as_slice()))
}
