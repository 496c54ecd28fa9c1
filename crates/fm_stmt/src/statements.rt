//! The forms of statements.

ghost use Rattle.fm_stmt_parts.specs.Gives.{Gives};
ghost use Rattle.fm_stmt_parts.specs.Reading.{expr_read, listed_read, name_at, optional_behind_read, parens_read, whole};
ghost use Rattle.fm_stmt_parts.specs.Parts.{call_part_part, loop_part, way_part};
ghost use Rattle.fm_stmt.specs.Statements.{keyed_simple, made, declaration_part, function_part, heading_part, keyed_statement, ports_part, statement_at, then_part};
ghost use Rattle.fm_tree.specs.declared.statement.Stmt.TheVariants as stmt;

use crate::simple::{alone, keyed_simple, simple};
use fm_base::{Class, Name, ParseFail, Seq, Token};
use fm_stmt_parts::{
    ArrayForm, DeclForm, DefinedForm, ExprForm, Mark, NameForm, Word, a_call_part, a_loop_head,
    a_mark, a_name, a_port_type, a_way, an_expr, ended_by, listed_and_closed, optional_listed,
    some, some_in_parens, starts_with,
};
use fm_tree::{CallPart, Decl, Expr, LoopHead, PortType, Stmt, Way};
use std::alloc::Global;

// name
fn a_program(alloc: Global, tokens: &[Token]) -> Result<Stmt, ParseFail>
    ensures { Gives (λ s. s) result (keyed_statement Class.Program tokens.now) }
{
    let (name, rest) = a_name(alloc, tokens)?;
    alone(Stmt::Program(name), rest)
}

// name [( [list(name)] )]
fn a_heading(alloc: Global, tokens: &[Token]) -> Result<(Name, Option<Seq<Name>>), ParseFail>
    ensures { Gives (λ p. p) result (whole heading_part.read tokens.now) }
{
    let (name, rest) = a_name(alloc, tokens)?;
    let (formals, rest) = optional_listed::<NameForm>(alloc, rest)?;
    alone((name, formals), rest)
}

// ( [list(name)] )
fn formals(alloc: Global, tokens: &[Token]) -> Result<(Seq<Name>, &[Token]), ParseFail>
    ensures { Gives (λ p. (p.0, p.1.now)) result (parens_read (listed_read name_at) tokens.now) }
{
    let rest = a_mark(Mark::Open, tokens)?;
    listed_and_closed::<NameForm>(alloc, rest)
}

// name ( [list(name)] )
fn a_function(alloc: Global, tokens: &[Token]) -> Result<(Name, Seq<Name>), ParseFail>
    ensures { Gives (λ p. p) result (whole function_part.read tokens.now) }
{
    let (name, rest) = a_name(alloc, tokens)?;
    let (formals, rest) = formals(alloc, rest)?;
    alone((name, formals), rest)
}

// list(decl)
fn decls(alloc: Global, tokens: &[Token]) -> Result<Seq<Decl>, ParseFail>
    ensures { Gives (λ p. p) result (whole declaration_part.read tokens.now) }
{
    let (decls, rest) = some::<DeclForm>(alloc, tokens)?;
    alone(decls, rest)
}

// list(name ( list(bound) ))
fn a_dimension(alloc: Global, tokens: &[Token]) -> Result<Stmt, ParseFail>
    ensures { Gives (λ s. s) result (keyed_statement Class.Dimension tokens.now) }
{
    let (arrays, rest) = some::<ArrayForm>(alloc, tokens)?;
    alone(Stmt::Dimension(arrays), rest)
}

// ( list(name = expr) )
fn a_parameter(alloc: Global, tokens: &[Token]) -> Result<Stmt, ParseFail>
    ensures { Gives (λ s. s) result (keyed_statement Class.Parameter tokens.now) }
{
    let (constants, rest) = some_in_parens::<DefinedForm>(alloc, tokens)?;
    alone(Stmt::Parameter(constants), rest)
}

// ( [list(field)] ) list(decl)
fn ports(alloc: Global, tokens: &[Token]) -> Result<(PortType, Seq<Decl>), ParseFail>
    ensures { Gives (λ p. p) result (whole ports_part.read tokens.now) }
{
    let (fields, rest) = a_port_type(alloc, tokens)?;
    let (decls, rest) = some::<DeclForm>(alloc, rest)?;
    alone((fields, decls), rest)
}

// ( way )
fn a_way_in_parens(tokens: &[Token]) -> Result<(Way, &[Token]), ParseFail>
    ensures { Gives (λ p. (p.0, p.1.now)) result (parens_read way_part.read tokens.now) }
{
    let rest = a_mark(Mark::Open, tokens)?;
    let (way, rest) = a_way(rest)?;
    ended_by(way, Mark::Close, rest)
}

// ( way ) list(name)
fn an_intent(alloc: Global, tokens: &[Token]) -> Result<Stmt, ParseFail>
    ensures { Gives (λ s. s) result (keyed_statement Class.Intent tokens.now) }
{
    let (way, rest) = a_way_in_parens(tokens)?;
    let (names, rest) = some::<NameForm>(alloc, rest)?;
    alone(Stmt::Intent(way, names), rest)
}

// ( list(expr) )
fn processors(alloc: Global, tokens: &[Token]) -> Result<Stmt, ParseFail>
    ensures { Gives (λ s. s) result (keyed_statement Class.Processors tokens.now) }
{
    let (extents, rest) = some_in_parens::<ExprForm>(alloc, tokens)?;
    alone(Stmt::Processors(extents), rest)
}

// ( expr )
fn a_condition(alloc: Global, tokens: &[Token]) -> Result<(Expr, &[Token]), ParseFail>
    ensures { Gives (λ p. (p.0, p.1.now)) result (parens_read expr_read tokens.now) }
{
    let rest = a_mark(Mark::Open, tokens)?;
    let (value, rest) = an_expr(alloc, rest)?;
    ended_by(value, Mark::Close, rest)
}

// ( expr ) THEN
fn a_then(alloc: Global, tokens: &[Token]) -> Result<Expr, ParseFail>
    ensures { Gives (λ p. p) result (whole then_part.read tokens.now) }
{
    let (condition, rest) = a_condition(alloc, tokens)?;
    let (condition, rest) = ended_by(condition, Mark::Word(Word::Then), rest)?;
    alone(condition, rest)
}

// ( expr ) simple
fn a_logical_if(alloc: Global, tokens: &[Token]) -> Result<Stmt, ParseFail>
    ensures { Gives (λ s. s) result (keyed_statement Class.LogicalIf tokens.now) }
{
    let (condition, rest) = a_condition(alloc, tokens)?;
    let contained = simple(alloc, rest)?;
    Ok(Stmt::LogicalIf(condition, contained))
}

// [label [,]] name = expr , expr [, expr]
fn a_loop(alloc: Global, tokens: &[Token]) -> Result<LoopHead, ParseFail>
    ensures { Gives (λ p. p) result (whole loop_part.read tokens.now) }
{
    let (head, rest) = a_loop_head(alloc, tokens)?;
    alone(head, rest)
}

// ( expr )
fn a_do_while(alloc: Global, tokens: &[Token]) -> Result<Stmt, ParseFail>
    ensures { Gives (λ s. s) result (keyed_statement Class.DoWhile tokens.now) }
{
    let (condition, rest) = a_condition(alloc, tokens)?;
    alone(Stmt::DoWhile(condition), rest)
}

// [( [list(expr)] ) [where]]
fn optional_call_part(
    alloc: Global,
    tokens: &[Token],
) -> Result<(Option<CallPart>, &[Token]), ParseFail>
    ensures { Gives (λ p. (p.0, p.1.now)) result (optional_behind_read Mark.Open call_part_part.read tokens.now) }
{
    if !starts_with(Mark::Open, tokens) {
        return Ok((None, tokens));
    }
    let rest = a_mark(Mark::Open, tokens)?;
    let (part, rest) = a_call_part(alloc, rest)?;
    Ok((Some(part), rest))
}

// name [( [list(expr)] ) [where]]
fn a_process_call(alloc: Global, tokens: &[Token]) -> Result<Stmt, ParseFail>
    ensures { Gives (λ s. s) result (keyed_statement Class.ProcessCall tokens.now) }
{
    let (name, rest) = a_name(alloc, tokens)?;
    let (part, rest) = optional_call_part(alloc, rest)?;
    alone(Stmt::ProcessCall(name, part), rest)
}

fn a_simple(alloc: Global, class: Class, tokens: &[Token]) -> Result<Stmt, ParseFail>
    ensures { Gives (λ s. s) result (made stmt.Simple (keyed_simple class tokens.now)) }
{
    Ok(Stmt::Simple(keyed_simple(alloc, class, tokens)?))
}

// name [( [list(name)] )]
fn a_process(alloc: Global, tokens: &[Token]) -> Result<Stmt, ParseFail>
    ensures { Gives (λ s. s) result (keyed_statement Class.Process tokens.now) }
{
    let (name, formals) = a_heading(alloc, tokens)?;
    Ok(Stmt::Process(name, formals))
}

// name [( [list(name)] )]
fn a_subroutine(alloc: Global, tokens: &[Token]) -> Result<Stmt, ParseFail>
    ensures { Gives (λ s. s) result (keyed_statement Class.Subroutine tokens.now) }
{
    let (name, formals) = a_heading(alloc, tokens)?;
    Ok(Stmt::Subroutine(name, formals))
}

// name ( [list(name)] )
fn a_plain_function(alloc: Global, tokens: &[Token]) -> Result<Stmt, ParseFail>
    ensures { Gives (λ s. s) result (keyed_statement Class.Function tokens.now) }
{
    let (name, formals) = a_function(alloc, tokens)?;
    Ok(Stmt::Function(name, formals))
}

// name ( [list(name)] )
fn an_integer_function(alloc: Global, tokens: &[Token]) -> Result<Stmt, ParseFail>
    ensures { Gives (λ s. s) result (keyed_statement Class.IntegerFunction tokens.now) }
{
    let (name, formals) = a_function(alloc, tokens)?;
    Ok(Stmt::IntegerFunction(name, formals))
}

// name ( [list(name)] )
fn a_logical_function(alloc: Global, tokens: &[Token]) -> Result<Stmt, ParseFail>
    ensures { Gives (λ s. s) result (keyed_statement Class.LogicalFunction tokens.now) }
{
    let (name, formals) = a_function(alloc, tokens)?;
    Ok(Stmt::LogicalFunction(name, formals))
}

// list(decl)
fn an_integer(alloc: Global, tokens: &[Token]) -> Result<Stmt, ParseFail>
    ensures { Gives (λ s. s) result (keyed_statement Class.Integer tokens.now) }
{
    let decls = decls(alloc, tokens)?;
    Ok(Stmt::Integer(decls))
}

// list(decl)
fn a_logical(alloc: Global, tokens: &[Token]) -> Result<Stmt, ParseFail>
    ensures { Gives (λ s. s) result (keyed_statement Class.Logical tokens.now) }
{
    let decls = decls(alloc, tokens)?;
    Ok(Stmt::Logical(decls))
}

// ( [list(field)] ) list(decl)
fn an_inport(alloc: Global, tokens: &[Token]) -> Result<Stmt, ParseFail>
    ensures { Gives (λ s. s) result (keyed_statement Class.Inport tokens.now) }
{
    let (fields, decls) = ports(alloc, tokens)?;
    Ok(Stmt::Inport(fields, decls))
}

// ( [list(field)] ) list(decl)
fn an_outport(alloc: Global, tokens: &[Token]) -> Result<Stmt, ParseFail>
    ensures { Gives (λ s. s) result (keyed_statement Class.Outport tokens.now) }
{
    let (fields, decls) = ports(alloc, tokens)?;
    Ok(Stmt::Outport(fields, decls))
}

// ( expr ) THEN
fn a_block_if(alloc: Global, tokens: &[Token]) -> Result<Stmt, ParseFail>
    ensures { Gives (λ s. s) result (keyed_statement Class.BlockIf tokens.now) }
{
    let condition = a_then(alloc, tokens)?;
    Ok(Stmt::BlockIf(condition))
}

// ( expr ) THEN
fn an_else_if(alloc: Global, tokens: &[Token]) -> Result<Stmt, ParseFail>
    ensures { Gives (λ s. s) result (keyed_statement Class.ElseIf tokens.now) }
{
    let condition = a_then(alloc, tokens)?;
    Ok(Stmt::ElseIf(condition))
}

// [label [,]] name = expr , expr [, expr]
fn a_do(alloc: Global, tokens: &[Token]) -> Result<Stmt, ParseFail>
    ensures { Gives (λ s. s) result (keyed_statement Class.Do tokens.now) }
{
    let head = a_loop(alloc, tokens)?;
    Ok(Stmt::Do(head))
}

// [label [,]] name = expr , expr [, expr]
fn a_process_do(alloc: Global, tokens: &[Token]) -> Result<Stmt, ParseFail>
    ensures { Gives (λ s. s) result (keyed_statement Class.ProcessDo tokens.now) }
{
    let head = a_loop(alloc, tokens)?;
    Ok(Stmt::ProcessDo(head))
}

// What stands behind the keyword of a class, all of the tokens.
fn keyed(alloc: Global, class: Class, tokens: &[Token]) -> Result<Stmt, ParseFail>
    ensures { Gives (λ s. s) result (keyed_statement class tokens.now) }
{
    match class {
        Class::Program => a_program(alloc, tokens),
        Class::Process => a_process(alloc, tokens),
        Class::Subroutine => a_subroutine(alloc, tokens),
        Class::Function => a_plain_function(alloc, tokens),
        Class::IntegerFunction => an_integer_function(alloc, tokens),
        Class::LogicalFunction => a_logical_function(alloc, tokens),
        Class::ImplicitNone => alone(Stmt::ImplicitNone, tokens),
        Class::Integer => an_integer(alloc, tokens),
        Class::Logical => a_logical(alloc, tokens),
        Class::Dimension => a_dimension(alloc, tokens),
        Class::Parameter => a_parameter(alloc, tokens),
        Class::Inport => an_inport(alloc, tokens),
        Class::Outport => an_outport(alloc, tokens),
        Class::Intent => an_intent(alloc, tokens),
        Class::Processors => processors(alloc, tokens),
        Class::LogicalIf => a_logical_if(alloc, tokens),
        Class::BlockIf => a_block_if(alloc, tokens),
        Class::ElseIf => an_else_if(alloc, tokens),
        Class::Else => alone(Stmt::Else, tokens),
        Class::EndIf => alone(Stmt::EndIf, tokens),
        Class::Do => a_do(alloc, tokens),
        Class::DoWhile => a_do_while(alloc, tokens),
        Class::EndDo => alone(Stmt::EndDo, tokens),
        Class::End => alone(Stmt::End, tokens),
        Class::Processes => alone(Stmt::Processes, tokens),
        Class::EndProcesses => alone(Stmt::EndProcesses, tokens),
        Class::ProcessCall => a_process_call(alloc, tokens),
        Class::ProcessDo => a_process_do(alloc, tokens),
        Class::EndProcessDo => alone(Stmt::EndProcessDo, tokens),
        _ => a_simple(alloc, class, tokens),
    }
}

/// The statement that the tokens spell, all of them.
pub fn read_statement(alloc: Global, tokens: &[Token]) -> Result<Stmt, ParseFail>
    ensures { Gives (λ s. s) result (statement_at tokens.now) }
{
    match tokens.split_first() {
        Some((Token::Key(class), rest)) => keyed(alloc, *class, rest),
        _ => Ok(Stmt::Simple(simple(alloc, tokens)?)),
    }
}
