//! Calls that pass words of the frame alone, and returns: told at once, with no operand on the stack.

ghost use Rattle.std.specs.Prelude.{◌∷◌, []};
ghost use Rattle.fm_code.specs.declared.instr.Instr.TheVariants as instr;
ghost use Rattle.fm_code.specs.Acts.{statement, work};
ghost use Rattle.fm_machine_instr.specs.Told.{IsTold, PassesWords, with_operands};

use crate::building::span_of;
use fm_base::{NoMemory, Seq};
use fm_code::{Build, End, Frame, Instr, Operand, Span};

/// What is told at once of a statement. What it passes stands beside it.
#[derive(Clone, Copy)]
pub enum Passing {
    /// It calls a unit with the operands, and goes on at the address.
    Calls(u32, u32),
    /// It refers to a function with the operands, and goes on at the address.
    Refers(u32, u32),
    /// It returns from a subroutine.
    Returns,
    /// It returns from a function with this result.
    ReturnsValue(i64),
    /// Nothing is told.
    Untold,
}

/// Words of the frame are the next operand, if it has them.
fn pass_words(operands: &mut Seq<Operand>, span: Span, frame: &Frame) -> bool
    ensures { PassesWords result span operands.old operands.new frame.now }
{
    if span_of(&frame.words, span).is_none() {
        return false;
    }
    match operands.push(Operand::Words(span)) {
        Ok(()) => true,
        Err(NoMemory) => false,
    }
}

/// What is told by the instruction that ends a statement which passed these operands.
fn passing_by(end: End, frame: &Frame, operands: &Seq<Operand>) -> Passing
    ensures { IsTold result (work (instr.End end ∷ []) [] (with_operands operands.now) frame.now) operands.now }
{
    match end {
        End::Call(unit, to) => Passing::Calls(unit, to),
        End::Refer(unit, to) => Passing::Refers(unit, to),
        End::Return => Passing::Returns,
        End::ReturnValue(number) => match frame.words.get(number as usize) {
            Some(value) => Passing::ReturnsValue(value),
            None => Passing::Untold,
        },
        _ => Passing::Untold,
    }
}

/// Tells at once how the next statement of a frame ends, where it passes words of the frame alone: the operands are
/// what it passes.
pub fn tell_passing(code: &[Instr], frame: &Frame, operands: &mut Seq<Operand>) -> Passing
    ensures { IsTold result (statement code.now frame.now.address frame.now) operands.new }
{
    operands.clear();
    'instrs: for at in frame.address as usize..code.len() {
        match code[at] {
            Instr::Build(Build::PassWords(span)) => {
                if !pass_words(operands, span, frame) {
                    return Passing::Untold;
                }
            }
            Instr::End(end) => return passing_by(end, frame, operands),
            _ => return Passing::Untold,
        }
    }
    Passing::Untold
}
