//! Statements: instructions that go on, and the one that ends them.

ghost use Rattle.std.specs.Prelude.{◌≡◌, IfOk, ℤ, List};
ghost use Rattle.fm_code.specs.Acts.{act, statement};
ghost use Rattle.fm_machine_instr.specs.Told.{next_act, progressed, told_end};
ghost use Rattle.fm_code.specs.declared.body.Frame.{Frame};
ghost use Rattle.fm_code.specs.declared.scratch.Scratch.{Scratch};

use crate::asking::ask;
use crate::building::build;
use crate::deciding::decide;
use crate::evaluating::evaluate;
use crate::statement_end::{Ending, StatementEnd};
use crate::work::{Progress, Work};
use fm_base::NoMemory;
use fm_code::{Frame, Instr};
use std::alloc::Global;

/// What the statement at an address does, without doing it.
#[inline(never)]
pub fn statement(
    alloc: Global,
    code: &[Instr],
    address: usize,
    work: &mut Work,
    frame: &Frame,
) -> Result<StatementEnd, NoMemory>
    ensures { IfOk result (λ t. told_end t work.new.scratch frame.now ≡ statement code.now address frame.now) }
{
    work.clear();
    'instrs: for at in address..code.len() {
        let progress = match code[at] {
            Instr::Eval(instr) => evaluate(instr, work, frame)?,
            Instr::Build(instr) => build(alloc, instr, work, frame)?,
            Instr::End(instr) => return decide(instr, work, frame),
            Instr::Meet(instr) => return Ok(StatementEnd::Over(ask(alloc, instr, work, frame)?)),
        };
        match progress {
            Progress::On => {}
            Progress::Fails(fault) => return Ok(StatementEnd::Over(Ending::Fails(fault))),
            Progress::Stuck => return Ok(StatementEnd::Over(Ending::Stuck)),
        }
    }
    Ok(StatementEnd::Over(Ending::Stuck))
}
