//! The rules of the form. Each check follows the least place so far over those of one row.

ghost use Rattle.std.specs.Prelude.{◌≡◌, length};
ghost use Rattle.std.specs.List.{list_any};
ghost use Rattle.fm_base.specs.Verdict.{least_from};
ghost use Rattle.fm_cards.specs.Lines.{row_at};
ghost use Rattle.fm_cards.specs.Broken.{is_bad_character, in_initial, in_continuation, in_front, AllOfPhaseZero, OneVerdict};

use crate::label::is_bad_field;
use crate::line::is_all_blank;
use fm_base::{Line, Refusal, Rule, keep_if};

// The continuation lines that a statement may have.
const MOST_CONTINUATIONS: usize = 19;

fn has_bad_character(row: &[u8]) -> bool
    ensures { result ≡ list_any is_bad_character row.now }
{
    row.iter().any(|b| *b < 32 || 126 < *b)
}

#[tactic(auto, using(fm_base::proofs::Least::least_from_append))]
pub(crate) fn check_initial(best: Option<Refusal>, line: Line, row: &[u8]) -> Option<Refusal>
    requires { length row.now ≡ 72 }
    ensures { result ≡ least_from best (in_initial (row_at line.0 row.now)) }
{
    let (field, _) = row.split_at(5);
    let best = keep_if(best, has_bad_character(row), line, Rule::E01);
    keep_if(best, is_bad_field(field), line, Rule::E02)
}

#[tactic(auto, using(fm_base::proofs::Least::least_from_append))]
pub(crate) fn check_continuation(
    best: Option<Refusal>,
    line: Line,
    row: &[u8],
    before: usize,
) -> Option<Refusal>
    requires { length row.now ≡ 72 }
    ensures { result ≡ least_from best (in_continuation before (row_at line.0 row.now)) }
{
    let (field, _) = row.split_at(5);
    let best = keep_if(best, has_bad_character(row), line, Rule::E01);
    let best = keep_if(best, !is_all_blank(field), line, Rule::E03);
    keep_if(best, before >= MOST_CONTINUATIONS, line, Rule::E04)
}

// A continuation row with no initial row before it.
#[tactic(auto, using(fm_base::proofs::Least::least_from_append))]
pub(crate) fn check_front(best: Option<Refusal>, line: Line, row: &[u8]) -> Option<Refusal>
    requires { length row.now ≡ 72 }
    ensures { result ≡ least_from best (in_front (row_at line.0 row.now)) }
{
    let best = keep_if(best, has_bad_character(row), line, Rule::E01);
    keep_if(best, true, line, Rule::E03)
}

/// Each rule that the form of a text breaks is of phase 0.
pub fn all_of_phase_zero()
    ensures { AllOfPhaseZero }
{}

/// A text has one verdict on its form.
pub fn one_verdict()
    ensures { OneVerdict }
{}
