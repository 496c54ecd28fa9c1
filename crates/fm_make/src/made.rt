//! The whole text.

ghost use Rattle.std.specs.Prelude.{◌≡◌, ◌≤◌, ◌++◌, length, IfOk, OnOk};
ghost use Rattle.std.specs.String.{string_bytes};
ghost use Rattle.fm_make.specs.Made.{step_of, for_stages, stage_text, made_text};

use crate::measures::{messages_of, stages_of, step_of};
use crate::units::{push_feed, push_program, push_stage, push_take};
use fm_base::NoMemory;
use std::alloc::Global;

fn push_stages(out: &mut String, number: u64, stages: u64) -> Result<(), NoMemory>
    ensures { OnOk result (string_bytes out.new
        ≡ string_bytes out.old ++ for_stages (λ stage. stage_text stage (step_of number stage)) stages) }
{
    for stage in 1..=stages {
        push_stage(out, stage, step_of(number, stage))?;
    }
    Ok(())
}

/// The text of the program that a number makes: a feeder, a chain of 20 to 199 stages, and a taker
/// that prints one line. It fits into a source. Linear in the number of stages.
pub fn make(alloc: Global, number: u64) -> Result<Vec<u8>, NoMemory>
    ensures text { IfOk result (λ v. v.items ≡ made_text number) }
    ensures short { IfOk result (λ v. length v.items ≤ 1_000_000) }
{
    let stages = stages_of(number);
    let mut out = String::new(alloc);
    push_program(&mut out, stages)?;
    push_feed(&mut out, messages_of(number))?;
    push_stages(&mut out, number, stages)?;
    push_take(&mut out)?;
    Ok(out.into_bytes())
}
