//! The least broken rule on ports.

ghost use Rattle.std.specs.Prelude.{◌≡◌, Contains, option_map};
ghost use Rattle.std.specs.List.{slice_get};
ghost use Rattle.fm_base.specs.Verdict.{IsVerdict, least, least_from};
ghost use Rattle.fm_rules.specs.BrokenPorts.{broken_at, broken_body, broken_from, broken_ports, broken_unit};

use crate::judged::{Site, has_stray_port};
use crate::rules::{
    breaks_call, breaks_rank, has_wrong_direction, has_wrong_message, has_wrong_type,
};
use fm_base::{Refusal, Rule, keep_if, least_law};
use fm_symbols::{Context, Names};
use fm_tree::{Entry, Unit, Units};

#[tactic(auto, using(fm_base::proofs::Least::least_from_append))]
fn statement(site: &Site, entry: &Entry, best: Option<Refusal>) -> Option<Refusal>
    ensures { result
        ≡ least_from best (broken_at site.now.all.now.units site.now.names.now site.now.context.now site.now.scope.now
        entry.now.line.0 entry.now.stmt) }
{
    let (line, stmt) = (entry.line, &entry.stmt);
    let stray = has_stray_port(site, stmt);
    let best = keep_if(best, stray, line, Rule::E50);
    let direction = has_wrong_direction(site, stmt);
    let best = keep_if(best, direction, line, Rule::E51);
    let message = has_wrong_message(site, stmt);
    let best = keep_if(best, message, line, Rule::E52);
    let kind = has_wrong_type(site, stmt);
    let best = keep_if(best, kind, line, Rule::E53);
    let call = breaks_call(site, stmt);
    let best = keep_if(best, call, line, Rule::E53);
    keep_if(best, breaks_rank(site.names, stmt), line, Rule::E54)
}

#[tactic(auto, using(fm_base::proofs::Least::least_from_append))]
fn body(site: &Site, entries: &[Entry], best: Option<Refusal>) -> Option<Refusal>
    ensures { result
        ≡ least_from best
        (broken_body site.now.all.now.units site.now.names.now site.now.context.now site.now.scope.now entries.now) }
{
    let mut best = best;
    'entries: for entry in entries {
        best = statement(site, entry, best);
    }
    best
}

fn unit(
    all: &Names,
    context: &Context,
    unit: &Unit,
    number: usize,
    best: Option<Refusal>,
) -> Option<Refusal>
    ensures { result
        ≡ least_from best (broken_unit all.now.units context.now unit.now (slice_get all.now.units number)
        (slice_get context.now.scopes number)) }
{
    let names = all.units.as_slice().get(number);
    let scope = context.scopes.as_slice().get(number);
    match (names, scope) {
        (Some(names), Some(scope)) => {
            let site = Site {
                all,
                names,
                context,
                scope,
            };
            body(&site, unit.body.as_slice(), best)
        }
        (Some(_), None) => best,
        (None, Some(_)) => best,
        (None, None) => best,
    }
}

#[tactic(auto, using(fm_base::proofs::Least::least_from_append))]
fn least_broken(units: &[Unit], names: &Names, context: &Context) -> Option<Refusal>
    ensures { result ≡ least (broken_ports units.now names.now.units context.now) }
{
    let mut best = None;
    'units: for number in 0..units.len() {
        best = unit(names, context, &units[number], number, best);
    }
    best
}

/// The least broken rule on ports in the units of a program, given what their names are and mean, or none where no rule
/// is broken. It is asked where no rule on structure, names and types is broken. Takes no memory.
pub fn ports(units: &Units, names: &Names, context: &Context) -> Option<Refusal>
    ensures { IsVerdict (Contains (broken_ports units.now.units names.now.units context.now)) result }
{
    least_law();
    least_broken(units.units.as_slice(), names, context)
}
