//! The rules that ask more than one unit: one PROGRAM, names of units, and END behind the last statement.

ghost use Rattle.std.specs.Prelude.{◌≡◌, IfOk, map};
ghost use Rattle.fm_base.specs.declared.rule.Rule.TheVariants.{E26, E27};
ghost use Rattle.fm_base.specs.Verdict.{least, least_from, place, when};
ghost use Rattle.fm_rules.specs.BrokenStructure.{is_own, is_program_statement, is_taken, missing_end, program_line, program_lines, wrong_programs, wrong_title, wrong_titles};

use crate::cutting::ends_unit;
use fm_base::{Line, Name, NoMemory, Refusal, Rule, Seq, keep_earlier};
use fm_finmap::NameMap;
use fm_rules::Title;
use fm_symbols::heading_name;
use fm_tree::{Placed, Stmt};
use fm_values::Intrinsic;
use std::alloc::Global;

fn is_program_statement(stmt: &Stmt) -> bool
    ensures { result ≡ is_program_statement stmt.now }
{
    matches!(stmt, Stmt::Program(_))
}

fn program_line(placed: &Placed) -> Option<u32>
    ensures { result ≡ program_line placed.now }
{
    if is_program_statement(&placed.stmt) {
        Some(placed.line.0)
    } else {
        None
    }
}

fn program_lines(alloc: Global, statements: &[Placed]) -> Result<Vec<u32>, NoMemory>
    ensures { IfOk result (λ v. v.items ≡ program_lines statements.now) }
{
    let mut lines = Vec::new(alloc);
    'statements: for placed in statements {
        if let Some(line) = program_line(placed) {
            lines.push(line)?;
        }
    }
    Ok(lines)
}

// The least of E26 at these lines.
fn least_program(lines: &[u32]) -> Option<Refusal>
    ensures { result ≡ least (map (λ line. place line E26) lines.now) }
{
    let mut best = None;
    'lines: for line in lines {
        let refusal = Refusal {
            line: Line(*line),
            rule: Rule::E26,
        };
        best = keep_earlier(best, refusal);
    }
    best
}

fn wrong_program(lines: &[u32]) -> Option<Refusal>
    ensures { result ≡ least (wrong_programs lines.now) }
{
    match lines {
        [] => Some(Refusal {
            line: Line(1),
            rule: Rule::E26,
        }),
        [_, more @ ..] => least_program(more),
    }
}

/// The least of no PROGRAM statement and more than one.
pub(crate) fn wrong_programs(
    alloc: Global,
    statements: &[Placed],
) -> Result<Option<Refusal>, NoMemory>
    ensures { IfOk result (λ v. v ≡ least (wrong_programs (program_lines statements.now))) }
{
    let lines = program_lines(alloc, statements)?;
    Ok(wrong_program(&lines))
}

/// The earlier of the best so far and of a source that doesn't end with END.
pub(crate) fn missing_end(statements: &[Placed], best: Option<Refusal>) -> Option<Refusal>
    ensures { result ≡ least_from best (missing_end statements.now) }
{
    match statements.last() {
        None => best,
        Some(last) => {
            if ends_unit(&last.stmt) {
                return best;
            }
            let refusal = Refusal {
                line: last.line,
                rule: Rule::E28,
            };
            keep_earlier(best, refusal)
        }
    }
}

fn is_own(number: usize, title: Option<Title>) -> bool
    ensures { result ≡ is_own number title }
{
    match title {
        None => false,
        Some(title) => title.number == number,
    }
}

fn is_taken(titles: &NameMap<Title>, number: usize, name: &Name) -> bool
    ensures { result ≡ is_taken titles.now number name.now }
{
    let intrinsic = Intrinsic::from_name(name.as_bytes()).is_some();
    intrinsic || !is_own(number, titles.get(name).copied())
}

fn taken_at(
    titles: &NameMap<Title>,
    number: usize,
    line: Line,
    name: &Name,
    best: Option<Refusal>,
) -> Option<Refusal>
    ensures { result ≡ least_from best (when (is_taken titles.now number name.now) (place line.0 E27)) }
{
    if is_taken(titles, number, name) {
        let refusal = Refusal {
            line,
            rule: Rule::E27,
        };
        keep_earlier(best, refusal)
    } else {
        best
    }
}

fn wrong_title(
    titles: &NameMap<Title>,
    number: usize,
    unit: &[Placed],
    best: Option<Refusal>,
) -> Option<Refusal>
    ensures { result ≡ least_from best (wrong_title titles.now number unit.now) }
{
    match unit.first() {
        None => best,
        Some(first) => match heading_name(&first.stmt) {
            None => best,
            Some(name) => taken_at(titles, number, first.line, name, best),
        },
    }
}

/// The earlier of the best so far and of the units whose names others have.
pub(crate) fn wrong_titles(
    titles: &NameMap<Title>,
    units: &[Seq<Placed>],
    best: Option<Refusal>,
) -> Option<Refusal>
    ensures { result ≡ least_from best (wrong_titles titles.now 0 units.now) }
{
    let mut best = best;
    'units: for number in 0..units.len() {
        best = wrong_title(titles, number, units[number].as_slice(), best);
    }
    best
}
