//! Statements.

ghost use Rattle.fm_same.specs.Same.{IsSameTest};

use crate::operands::{same_call_part, same_constants, same_decls, same_loop_head, same_way};
use crate::parts::{same_expr, same_exprs, same_name, same_names, same_type};
use crate::same_options;
use crate::simple::same_simple;
use fm_tree::Stmt;

/// Whether two statements are the same.
pub(crate) fn same_stmt(first: &Stmt, second: &Stmt) -> bool
    ensures { IsSameTest result first.now second.now }
{
    match (first, second) {
        (Stmt::Program(a), Stmt::Program(b)) => same_name(a, b),
        (Stmt::Process(a, x), Stmt::Process(b, y)) => same_name(a, b)
            && same_options(x, y, same_names),
        (Stmt::Subroutine(a, x), Stmt::Subroutine(b, y)) => same_name(a, b)
            && same_options(x, y, same_names),
        (Stmt::Function(a, x), Stmt::Function(b, y)) => same_name(a, b) && same_names(x, y),
        (Stmt::IntegerFunction(a, x), Stmt::IntegerFunction(b, y)) => same_name(a, b)
            && same_names(x, y),
        (Stmt::LogicalFunction(a, x), Stmt::LogicalFunction(b, y)) => same_name(a, b)
            && same_names(x, y),
        (Stmt::ImplicitNone, Stmt::ImplicitNone) => true,
        (Stmt::Integer(a), Stmt::Integer(b)) => same_decls(a, b),
        (Stmt::Logical(a), Stmt::Logical(b)) => same_decls(a, b),
        (Stmt::Dimension(a), Stmt::Dimension(b)) => same_decls(a, b),
        (Stmt::Parameter(a), Stmt::Parameter(b)) => same_constants(a, b),
        (Stmt::Inport(a, x), Stmt::Inport(b, y)) => same_type(a, b) && same_decls(x, y),
        (Stmt::Outport(a, x), Stmt::Outport(b, y)) => same_type(a, b) && same_decls(x, y),
        (Stmt::Intent(a, x), Stmt::Intent(b, y)) => same_way(a, b) && same_names(x, y),
        (Stmt::Processors(a), Stmt::Processors(b)) => same_exprs(a, b),
        (Stmt::Simple(a), Stmt::Simple(b)) => same_simple(a, b),
        (Stmt::LogicalIf(a, x), Stmt::LogicalIf(b, y)) => same_expr(a, b) && same_simple(x, y),
        (Stmt::BlockIf(a), Stmt::BlockIf(b)) => same_expr(a, b),
        (Stmt::ElseIf(a), Stmt::ElseIf(b)) => same_expr(a, b),
        (Stmt::Else, Stmt::Else) => true,
        (Stmt::EndIf, Stmt::EndIf) => true,
        (Stmt::Do(a), Stmt::Do(b)) => same_loop_head(a, b),
        (Stmt::DoWhile(a), Stmt::DoWhile(b)) => same_expr(a, b),
        (Stmt::EndDo, Stmt::EndDo) => true,
        (Stmt::End, Stmt::End) => true,
        (Stmt::Processes, Stmt::Processes) => true,
        (Stmt::EndProcesses, Stmt::EndProcesses) => true,
        (Stmt::ProcessCall(a, x), Stmt::ProcessCall(b, y)) => same_name(a, b)
            && same_options(x, y, same_call_part),
        (Stmt::ProcessDo(a), Stmt::ProcessDo(b)) => same_loop_head(a, b),
        (Stmt::EndProcessDo, Stmt::EndProcessDo) => true,
        (Stmt::LoopEnd, Stmt::LoopEnd) => true,
        _ => false,
    }
}
