//! Reads the parts of statements from the front of tokens: names, labels, expressions, lists,
//! declarations, heads of loops, items, types of ports, places. The crate serves the reader of
//! statements alone, whose promise is that of `fm_stmt::statement`. The clause of a reader says
//! which function of its tokens it is (`Gives`, specs/Reading, Parts and Fields), so that readers
//! join by their clauses. `parts_are_exact` says of these functions that each is exact for its
//! form in fm_tree. A list is exact where its items are (proofs/ExactLists), which has no clause:
//! it is a law over forms.
#![tactic(auto)]

ghost use Rattle.fm_stmt_parts.specs.Exact.{IsExact};
ghost use Rattle.fm_stmt_parts.specs.Reading.{name, label, constant, expr};
ghost use Rattle.fm_stmt_parts.specs.Parts.{var_part, bound_part, decl_part, array_part, defined_part, way_part, loop_part, item_part, unit_part, port_part, extra_part, extras_part, call_part_part};
ghost use Rattle.fm_stmt_parts.specs.Fields.{port_type_part};

mod fields;
mod list;
mod mark;
mod parts;
mod reader;

pub use fields::a_port_type;
pub use list::{
    Form, bracketed, listed, listed_and_closed, more, optional_behind, optional_listed, some,
    some_in_parens,
};
pub use mark::{Mark, Word};
pub use parts::{
    ArrayForm, BoundForm, DeclForm, DefinedForm, ExprForm, ExtraForm, ItemForm, NameForm, VarForm,
    a_call_part, a_loop_head, a_port, a_unit, a_way, assigned, extras,
};
pub use reader::{a_constant, a_label, a_mark, a_name, an_expr, at_end, ended_by, starts_with};

/// Each part is read exactly for its form: what is read has the form and is spelled by the tokens
/// that were taken, and what has the form is read from its spelling, before any token that may
/// stand behind it.
pub fn parts_are_exact()
    ensures names { IsExact name }
    ensures labels { IsExact label }
    ensures constants { IsExact constant }
    ensures expressions { IsExact expr }
    ensures variables { IsExact var_part }
    ensures bounds { IsExact bound_part }
    ensures declarations { IsExact decl_part }
    ensures arrays { IsExact array_part }
    ensures definitions { IsExact defined_part }
    ensures ways { IsExact way_part }
    ensures loops { IsExact loop_part }
    ensures items { IsExact item_part }
    ensures units { IsExact unit_part }
    ensures ports { IsExact port_part }
    ensures extra { IsExact extra_part }
    ensures extras { IsExact extras_part }
    ensures calls { IsExact call_part_part }
    ensures port_types { IsExact port_type_part }
{}
