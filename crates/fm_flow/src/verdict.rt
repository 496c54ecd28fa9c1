//! Whether a program may deadlock.

ghost use Rattle.std.specs.Prelude.{◌≡◌, None, IfOk};
ghost use Rattle.fm_plain_frame.specs.Units.{unit_of};
ghost use Rattle.fm_flow_law.specs.Ends.{ComesToItsEnd};
ghost use Rattle.fm_flow_law.specs.Flow.{IsFlowVerdict};
ghost use Rattle.fm_flow.specs.Walks.{IsPortSearch, least_shared, no_flags, sent_from};

use crate::declarations::{port_names, wide_from};
use crate::rings::least_ring;
use crate::sentences::{foreign_from, mark_sent, risky_from, shared_from};
use crate::units::risks;
use fm_base::{Line, NoMemory};
use fm_plain_frame::UnitView;
use fm_rules::Program;
use fm_tree::Entry;
use std::alloc::Global;

fn no_flags(alloc: Global, unit: &UnitView<'_>) -> Result<Vec<bool>, NoMemory>
    ensures { IfOk result (λ flags. flags.items ≡ no_flags (unit_of unit.now)) }
{
    Ok(vec![in alloc; false; unit.variables().len()]?)
}

/// The flags of the variables that the calls give.
fn sent_flags(alloc: Global, unit: &UnitView<'_>, body: &[Entry]) -> Result<Vec<bool>, NoMemory>
    ensures { IfOk result (λ flags. flags.items ≡ sent_from (unit_of unit.now) (no_flags (unit_of unit.now)) body.now) }
{
    let mut flags = no_flags(alloc, unit)?;
    mark_sent(alloc, unit, body, &mut flags)?;
    Ok(flags)
}

/// The least line of a CHANNEL that shares a port or whose outport no call gives, or one that is known.
fn least_shared(
    alloc: Global,
    unit: &UnitView<'_>,
    best: Option<Line>,
    body: &[Entry],
) -> Result<Option<Line>, NoMemory>
    ensures { IfOk result (λ line. line ≡ least_shared (unit_of unit.now) best body.now) }
{
    let sent = sent_flags(alloc, unit, body)?;
    let met = no_flags(alloc, unit)?;
    shared_from(alloc, unit, &sent, met, best, body)
}

/// The least line among those of CHANNELs and calls, or one that is known.
fn least_of_ports(
    alloc: Global,
    unit: &UnitView<'_>,
    best: Option<Line>,
) -> Result<Option<Line>, NoMemory>
    ensures { IfOk result (IsPortSearch unit.now.program.now (unit_of unit.now) best) }
{
    let body = unit.tree().body.as_slice();
    let shared = least_shared(alloc, unit, best, body)?;
    let risks = risks(alloc, unit.program())?;
    let met = no_flags(alloc, unit)?;
    risky_from(alloc, unit, risks.as_slice(), met, shared, body)
}

/// Whether a program may deadlock: none where none of the five sentences of the check holds, and then no
/// schedule leaves it waiting before its PROGRAM has ended; else the least line at which one holds. The
/// time is in proportion to the program, but for finding units and variables by their names.
pub fn flow(alloc: Global, program: &Program) -> Result<Option<Line>, NoMemory>
    ensures verdict { IfOk result (IsFlowVerdict program.now) }
    ensures promise { IfOk result (λ line. line ≡ None → ComesToItsEnd program.now) }
{
    let unit = match UnitView::new(program, program.main()) {
        Some(unit) => unit,
        None => return Ok(None),
    };
    let ports = port_names(alloc, unit.variables())?;
    let wide = wide_from(&ports, None, unit.tree().specs.as_slice());
    let foreign = foreign_from(wide, unit.tree().body.as_slice());
    let risky = least_of_ports(alloc, &unit, foreign)?;
    least_ring(alloc, &unit, risky)
}
