//! The least place at which a rule on types is broken, over all units.

ghost use Rattle.std.specs.Prelude.{◌≡◌, Contains};
ghost use Rattle.std.specs.List.{flat_map, slice_get};
ghost use Rattle.fm_base.specs.Verdict.{IsVerdict, least, least_from};
ghost use Rattle.fm_rules.specs.BrokenTypes.{broken_at, broken_in_entry, broken_in_statement, broken_in_unit, broken_types, flagged};

use crate::statements::judge_statement;
use fm_base::{Line, Refusal, Rule, keep_if, least_law};
use fm_rules::Flags;
use fm_symbols::{Context, Names, Scope, UnitNames, Variable};
use fm_tree::{Entry, Placed, Unit, Units};

#[tactic(auto, using(fm_base::proofs::Least::least_from_append))]
fn keep_flagged(best: Option<Refusal>, line: Line, flags: Flags) -> Option<Refusal>
    ensures { result ≡ least_from best (flagged line.0 flags) }
{
    let best = keep_if(best, flags.e40, line, Rule::E40);
    let best = keep_if(best, flags.e41, line, Rule::E41);
    let best = keep_if(best, flags.e42, line, Rule::E42);
    let best = keep_if(best, flags.e43, line, Rule::E43);
    let best = keep_if(best, flags.e44, line, Rule::E44);
    keep_if(best, flags.e46, line, Rule::E46)
}

fn keep_statement(
    context: &Context,
    scope: &Scope,
    variables: &[Variable],
    placed: &Placed,
    best: Option<Refusal>,
) -> Option<Refusal>
    ensures { result ≡ least_from best (broken_in_statement context.now scope.now variables.now placed.now) }
{
    let flags = judge_statement(context, scope, variables, &placed.stmt);
    keep_flagged(best, placed.line, flags)
}

fn keep_entry(
    context: &Context,
    scope: &Scope,
    variables: &[Variable],
    entry: &Entry,
    best: Option<Refusal>,
) -> Option<Refusal>
    ensures { result ≡ least_from best (broken_in_entry context.now scope.now variables.now entry.now) }
{
    let flags = judge_statement(context, scope, variables, &entry.stmt);
    keep_flagged(best, entry.line, flags)
}

fn keep_statements(
    context: &Context,
    scope: &Scope,
    variables: &[Variable],
    placed: &[Placed],
    best: Option<Refusal>,
) -> Option<Refusal>
    ensures { result ≡ least_from best (flat_map (broken_in_statement context.now scope.now variables.now) placed.now) }
{
    let mut best = best;
    'statements: for index in 0..placed.len() {
        best = keep_statement(context, scope, variables, &placed[index], best);
    }
    best
}

fn keep_entries(
    context: &Context,
    scope: &Scope,
    variables: &[Variable],
    body: &[Entry],
    best: Option<Refusal>,
) -> Option<Refusal>
    ensures { result ≡ least_from best (flat_map (broken_in_entry context.now scope.now variables.now) body.now) }
{
    let mut best = best;
    'entries: for index in 0..body.len() {
        best = keep_entry(context, scope, variables, &body[index], best);
    }
    best
}

#[tactic(auto, using(fm_base::proofs::Least::least_from_append))]
fn keep_unit(
    context: &Context,
    scope: &Scope,
    variables: &[Variable],
    unit: &Unit,
    best: Option<Refusal>,
) -> Option<Refusal>
    ensures { result ≡ least_from best (broken_in_unit context.now scope.now variables.now unit.now) }
{
    let best = keep_statement(context, scope, variables, &unit.heading, best);
    let best = keep_statements(context, scope, variables, unit.specs.as_slice(), best);
    keep_entries(context, scope, variables, unit.body.as_slice(), best)
}

fn keep_unit_at(
    names: &[UnitNames],
    context: &Context,
    number: usize,
    unit: &Unit,
    best: Option<Refusal>,
) -> Option<Refusal>
    ensures { result ≡ least_from best (broken_at names.now context.now number unit.now) }
{
    let Some(scope) = context.scopes.as_slice().get(number) else {
        return best;
    };
    let Some(names) = names.get(number) else {
        return best;
    };
    keep_unit(context, scope, names.variables.as_slice(), unit, best)
}

fn least_place(units: &[Unit], names: &[UnitNames], context: &Context) -> Option<Refusal>
    ensures { result ≡ least (broken_types units.now names.now context.now) }
{
    let mut best = None;
    'units: for number in 0..units.len() {
        best = keep_unit_at(names, context, number, &units[number], best);
    }
    best
}

/// The least place at which a program breaks a rule on types, or none: of its units, of the names in them, and of what
/// these mean.
pub fn types(units: &Units, names: &Names, context: &Context) -> Option<Refusal>
    ensures { IsVerdict (Contains (broken_types units.now.units names.now.units context.now)) result }
{
    least_law();
    least_place(units.units.as_slice(), names.units.as_slice(), context)
}
