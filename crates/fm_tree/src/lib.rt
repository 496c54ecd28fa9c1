//! Trees of expressions, statements and units, and the forms that spell them.
#![tactic(auto)]

mod entry_mark;
mod expression;
mod form;
mod form_test;
mod level;
mod port_type;
mod program_unit;
mod same;
mod statement;

pub use entry_mark::{EntryMark, Open};
pub use expression::{Expr, ExprNode};
pub use form::{
    Bracket, Form, Terminal, UnitKind, bracket_of, contained_form, form_of, terminal_of,
};
pub use form_test::{
    is_block_if, is_closed_by, is_else, is_end, is_executable, is_separator, jump_label,
    makes_processes, stands_outside,
};
pub use level::{left_level, own_level, right_level};
pub use port_type::{Bound, Field, Kind, PortType};
pub use program_unit::{Entry, Placed, Unit, Units};
pub use statement::{
    CallPart, Decl, Defined, Extra, Item, LoopHead, LoopLabel, Simple, Stmt, Var, Way, Where,
    WriteUnit,
};
