//! Stack code: instructions, code of a program, bodies of processes, and what bodies ask for.
//!
//! `specs/Acts` tells what each instruction does, `specs/Statements` what a statement makes of its body.
#![tactic(auto)]

mod ask;
mod body;
mod code;
mod copying;
mod fused;
mod instr;
mod parts;
mod pile;
mod rare;
mod scratch;
mod stack;
mod words;

pub use ask::{Ask, Operand};
pub use body::{Back, Body, Frame, SharedCode, Start, Trips};
pub use code::{Code, Entry, Formal, Span, Unit};
pub use copying::copy_body;
pub use fused::Fused;
pub use instr::{Build, End, Eval, Instr, Loop, Meet};
pub use pile::Pile;
pub use rare::Rare;
pub use scratch::{Place, Scratch};
pub use stack::Stack;
pub use words::{back_words, front, given_span, is_port, word_at, words_of};
