//! The tokens of a statement.

ghost use Rattle.std.specs.Prelude.{◌≡◌, ◌++◌, IfOk, OnOk};
ghost use Rattle.fm_tree.specs.Forms.{name, parens, expr};
ghost use Rattle.fm_tree.specs.Parts.{loop_form};
ghost use Rattle.fm_tree.specs.Statements.{spelling_of, keyed, heading_form, function_form, declaration_form, dimension_form, parameter_form, ports_form, intent_form, processors_form, logical_if_form, then_form, process_call_form};

use crate::expression::push_expr;
use crate::list::{ExprForm, NameForm, push_arguments, push_list, push_parens};
use crate::part::{ArrayForm, DeclForm, DefinedForm, push_call_part, push_loop_head, push_way};
use crate::port_type::push_port_type;
use crate::simple::{push_key, push_simple};
use crate::word::{push_name, push_token, push_word};
use fm_base::{Class, Name, NoMemory, Seq, Token};
use fm_tree::{CallPart, Decl, Defined, Expr, LoopHead, PortType, Simple, Stmt, Way};
use std::alloc::Global;

fn push_program(alloc: Global, title: &Name, out: &mut Vec<Token>) -> Result<(), NoMemory>
    ensures { OnOk result (out.new.items ≡ out.old.items ++ keyed Class.Program name title.now) }
{
    push_token(Token::Key(Class::Program), out)?;
    push_name(alloc, title, out)
}

fn push_heading(
    alloc: Global,
    class: Class,
    title: &Name,
    formals: &Option<Seq<Name>>,
    out: &mut Vec<Token>,
) -> Result<(), NoMemory>
    ensures { OnOk result (out.new.items ≡ out.old.items ++ keyed class heading_form (title.now, formals.now)) }
{
    push_token(Token::Key(class), out)?;
    push_name(alloc, title, out)?;
    push_arguments::<Name, NameForm>(alloc, formals, out)
}

fn push_function(
    alloc: Global,
    class: Class,
    title: &Name,
    formals: &[Name],
    out: &mut Vec<Token>,
) -> Result<(), NoMemory>
    ensures { OnOk result (out.new.items ≡ out.old.items ++ keyed class function_form (title.now, formals.now)) }
{
    push_token(Token::Key(class), out)?;
    push_name(alloc, title, out)?;
    push_parens::<Name, NameForm>(alloc, formals, out)
}

fn push_declaration(
    alloc: Global,
    class: Class,
    decls: &[Decl],
    out: &mut Vec<Token>,
) -> Result<(), NoMemory>
    ensures { OnOk result (out.new.items ≡ out.old.items ++ keyed class declaration_form decls.now) }
{
    push_token(Token::Key(class), out)?;
    push_list::<Decl, DeclForm>(alloc, decls, out)
}

fn push_dimension(alloc: Global, decls: &[Decl], out: &mut Vec<Token>) -> Result<(), NoMemory>
    ensures { OnOk result (out.new.items ≡ out.old.items ++ keyed Class.Dimension dimension_form decls.now) }
{
    push_token(Token::Key(Class::Dimension), out)?;
    push_list::<Decl, ArrayForm>(alloc, decls, out)
}

fn push_parameter(
    alloc: Global,
    constants: &[Defined],
    out: &mut Vec<Token>,
) -> Result<(), NoMemory>
    ensures { OnOk result (out.new.items ≡ out.old.items ++ keyed Class.Parameter parameter_form constants.now) }
{
    push_token(Token::Key(Class::Parameter), out)?;
    push_parens::<Defined, DefinedForm>(alloc, constants, out)
}

fn push_ports(
    alloc: Global,
    class: Class,
    port_type: &PortType,
    decls: &[Decl],
    out: &mut Vec<Token>,
) -> Result<(), NoMemory>
    ensures { OnOk result (out.new.items ≡ out.old.items ++ keyed class ports_form (port_type.now, decls.now)) }
{
    push_token(Token::Key(class), out)?;
    push_port_type(alloc, port_type, out)?;
    push_list::<Decl, DeclForm>(alloc, decls, out)
}

fn push_intent(
    alloc: Global,
    way: Way,
    names: &[Name],
    out: &mut Vec<Token>,
) -> Result<(), NoMemory>
    ensures { OnOk result (out.new.items ≡ out.old.items ++ keyed Class.Intent intent_form (way, names.now)) }
{
    push_token(Token::Key(Class::Intent), out)?;
    push_token(Token::Open, out)?;
    push_way(alloc, way, out)?;
    push_token(Token::Close, out)?;
    push_list::<Name, NameForm>(alloc, names, out)
}

fn push_processors(alloc: Global, sizes: &[Expr], out: &mut Vec<Token>) -> Result<(), NoMemory>
    ensures { OnOk result (out.new.items ≡ out.old.items ++ keyed Class.Processors processors_form sizes.now) }
{
    push_token(Token::Key(Class::Processors), out)?;
    push_parens::<Expr, ExprForm>(alloc, sizes, out)
}

/// A keyword, and a condition in parentheses.
fn push_condition(
    alloc: Global,
    class: Class,
    condition: &Expr,
    out: &mut Vec<Token>,
) -> Result<(), NoMemory>
    ensures { OnOk result (out.new.items ≡ out.old.items ++ keyed class (parens expr) condition.now) }
{
    push_token(Token::Key(class), out)?;
    push_token(Token::Open, out)?;
    push_expr(alloc, condition, out)?;
    push_token(Token::Close, out)
}

fn push_logical_if(
    alloc: Global,
    condition: &Expr,
    statement: &Simple,
    out: &mut Vec<Token>,
) -> Result<(), NoMemory>
    ensures { OnOk result
        (out.new.items ≡ out.old.items ++ keyed Class.LogicalIf logical_if_form (condition.now, statement.now)) }
{
    push_condition(alloc, Class::LogicalIf, condition, out)?;
    push_simple(alloc, statement, out)
}

fn push_then(
    alloc: Global,
    class: Class,
    condition: &Expr,
    out: &mut Vec<Token>,
) -> Result<(), NoMemory>
    ensures { OnOk result (out.new.items ≡ out.old.items ++ keyed class then_form condition.now) }
{
    push_condition(alloc, class, condition, out)?;
    push_word(alloc, b"THEN", out)
}

fn push_loop(
    alloc: Global,
    class: Class,
    head: &LoopHead,
    out: &mut Vec<Token>,
) -> Result<(), NoMemory>
    ensures { OnOk result (out.new.items ≡ out.old.items ++ keyed class loop_form head.now) }
{
    push_token(Token::Key(class), out)?;
    push_loop_head(alloc, head, out)
}

fn push_process_call(
    alloc: Global,
    process: &Name,
    part: &Option<CallPart>,
    out: &mut Vec<Token>,
) -> Result<(), NoMemory>
    ensures { OnOk result
        (out.new.items ≡ out.old.items ++ keyed Class.ProcessCall process_call_form (process.now, part.now)) }
{
    push_token(Token::Key(Class::ProcessCall), out)?;
    push_name(alloc, process, out)?;
    let Some(part) = part else {
        return Ok(());
    };
    push_token(Token::Open, out)?;
    push_call_part(alloc, part, out)
}

fn push_statement(alloc: Global, statement: &Stmt, out: &mut Vec<Token>) -> Result<(), NoMemory>
    ensures { OnOk result (out.new.items ≡ out.old.items ++ spelling_of statement.now) }
{
    match statement {
        Stmt::Program(title) => push_program(alloc, title, out),
        Stmt::Process(title, formals) => push_heading(alloc, Class::Process, title, formals, out),
        Stmt::Subroutine(title, formals) => {
            push_heading(alloc, Class::Subroutine, title, formals, out)
        }
        Stmt::Function(title, formals) => {
            push_function(alloc, Class::Function, title, formals.as_slice(), out)
        }
        Stmt::IntegerFunction(title, formals) => {
            push_function(
                alloc,
                Class::IntegerFunction,
                title,
                formals.as_slice(),
                out,
            )
        }
        Stmt::LogicalFunction(title, formals) => {
            push_function(
                alloc,
                Class::LogicalFunction,
                title,
                formals.as_slice(),
                out,
            )
        }
        Stmt::ImplicitNone => push_key(Class::ImplicitNone, out),
        Stmt::Integer(decls) => push_declaration(alloc, Class::Integer, decls.as_slice(), out),
        Stmt::Logical(decls) => push_declaration(alloc, Class::Logical, decls.as_slice(), out),
        Stmt::Dimension(decls) => push_dimension(alloc, decls.as_slice(), out),
        Stmt::Parameter(constants) => push_parameter(alloc, constants.as_slice(), out),
        Stmt::Inport(fields, decls) => {
            push_ports(alloc, Class::Inport, fields, decls.as_slice(), out)
        }
        Stmt::Outport(fields, decls) => {
            push_ports(alloc, Class::Outport, fields, decls.as_slice(), out)
        }
        Stmt::Intent(way, names) => push_intent(alloc, *way, names.as_slice(), out),
        Stmt::Processors(sizes) => push_processors(alloc, sizes.as_slice(), out),
        Stmt::Simple(statement) => push_simple(alloc, statement, out),
        Stmt::LogicalIf(condition, statement) => {
            push_logical_if(alloc, condition, statement, out)
        }
        Stmt::BlockIf(condition) => push_then(alloc, Class::BlockIf, condition, out),
        Stmt::ElseIf(condition) => push_then(alloc, Class::ElseIf, condition, out),
        Stmt::Else => push_key(Class::Else, out),
        Stmt::EndIf => push_key(Class::EndIf, out),
        Stmt::Do(head) => push_loop(alloc, Class::Do, head, out),
        Stmt::DoWhile(condition) => push_condition(alloc, Class::DoWhile, condition, out),
        Stmt::EndDo => push_key(Class::EndDo, out),
        Stmt::End => push_key(Class::End, out),
        Stmt::Processes => push_key(Class::Processes, out),
        Stmt::EndProcesses => push_key(Class::EndProcesses, out),
        Stmt::ProcessCall(process, part) => push_process_call(alloc, process, part, out),
        Stmt::ProcessDo(head) => push_loop(alloc, Class::ProcessDo, head, out),
        Stmt::EndProcessDo => push_key(Class::EndProcessDo, out),
        Stmt::LoopEnd => Ok(()),
    }
}

/// The tokens of a statement, its keyword first. None of the end of a labelled loop that is put
/// behind a statement.
pub fn spell(alloc: Global, statement: &Stmt) -> Result<Vec<Token>, NoMemory>
    ensures { IfOk result (λ v. v.items ≡ spelling_of statement.now) }
{
    let mut tokens = Vec::new(alloc);
    push_statement(alloc, statement, &mut tokens)?;
    Ok(tokens)
}
