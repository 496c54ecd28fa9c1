//! The least line at which a program isn't plain.

ghost use Rattle.std.specs.Prelude.{◌≡◌, IfOk};
ghost use Rattle.fm_nodes_plain.specs.Lines.{IsPlainVerdict};
ghost use Rattle.fm_nodes_plain.specs.Search.{earlier};

use crate::carriers::first_carrier;
use fm_base::{Line, NoMemory};
use fm_call_graph::lower_if;
use fm_rules::Program;
use std::alloc::Global;

// The less of two lines, where there are any.
fn earlier(first: Option<Line>, second: Option<Line>) -> Option<Line>
    ensures { result ≡ earlier first second }
{
    match second {
        None => first,
        Some(line) => lower_if(true, first, line),
    }
}

/// The least line that keeps a program from being plain: of a PROBE or of a MERGER with several writers in a unit that
/// the PROGRAM reaches, or of a declaration of ports there over which ports go. None where there is none. The time is
/// in proportion to the program.
pub fn first_unplain(alloc: Global, program: &Program) -> Result<Option<Line>, NoMemory>
    ensures { IfOk result (λ line. ∥ IsPlainVerdict program.now line ∥₁) }
{
    let units = program.units().units.as_slice();
    let carrier = first_carrier(alloc, units, program.context())?;
    Ok(earlier(program.first_race(), carrier))
}
