//! What a lawful program is: the rules that the statements of a source may break, as definitions in `specs/`, the plain
//! types that they speak of, and programs that break none. The meaning of programs stands on these, and the checkers
//! that find what is broken stand beside it.
#![tactic(auto)]

mod calls;
mod constants;
mod entry_links;
mod flags;
mod program;
mod sheet;
mod sized_fields;
mod titles;
mod typing;

pub use calls::{Call, CallKind};
pub use constants::{Known, Shape, Types};
pub use entry_links::EntryLinks;
pub use flags::Flags;
pub use program::{Program, is_program, main_of};
pub use sheet::{ArrayShape, Aspect, Occurrence, Sheet};
pub use sized_fields::{sized_by, sizing_place};
pub use titles::{Title, same_name};
pub use typing::{Arguments, ExprType, Judgement, OperatorKind, Referent};
