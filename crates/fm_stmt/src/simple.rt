//! Statements that may stand behind a logical IF.

ghost use Rattle.fm_stmt_parts.specs.Gives.{Gives};
ghost use Rattle.fm_stmt_parts.specs.Reading.{assigned, behind, pair, parens_read};
ghost use Rattle.fm_stmt_parts.specs.Parts.{port_part, var_part};
ghost use Rattle.fm_stmt.specs.Statements.{all, alone, assignment_part, keyed_simple, merged_ports_part, port_and_empty_part, port_and_extras_part, simple_at, two_ports_part};
ghost use Rattle.fm_tree.specs.declared.statement.Simple.TheVariants as simple;

use fm_base::{Class, ParseFail, Seq, Token};
use fm_stmt_parts::{
    ExprForm, Form, ItemForm, Mark, VarForm, Word, a_label, a_mark, a_name, a_port, a_unit,
    an_expr, assigned, at_end, ended_by, extras, listed, more, optional_listed, some, starts_with,
};
use fm_tree::{Extra, Simple, Var};
use std::alloc::Global;

/// A statement that is its keyword alone.
pub fn alone<S: Drop>(statement: S, tokens: &[Token]) -> Result<S, ParseFail>
    ensures { Gives (λ s. s) result (alone statement tokens.now) }
{
    at_end(tokens)?;
    Ok(statement)
}

// var = expr
fn an_assignment(alloc: Global, tokens: &[Token]) -> Result<Simple, ParseFail>
    ensures { Gives (λ s. s) result (all (λ p. simple.Assignment p.0 p.1) assignment_part tokens.now) }
{
    let (target, rest) = VarForm::read_one(alloc, tokens)?;
    let rest = a_mark(Mark::Equals, rest)?;
    let (value, rest) = an_expr(alloc, rest)?;
    alone(Simple::Assignment(target, value), rest)
}

// label
fn a_goto(tokens: &[Token]) -> Result<Simple, ParseFail>
    ensures { Gives (λ s. s) result (keyed_simple Class.Goto tokens.now) }
{
    let (label, rest) = a_label(tokens)?;
    alone(Simple::Goto(label), rest)
}

// name [( [list(expr)] )]
fn a_call(alloc: Global, tokens: &[Token]) -> Result<Simple, ParseFail>
    ensures { Gives (λ s. s) result (keyed_simple Class.Call tokens.now) }
{
    let (name, rest) = a_name(alloc, tokens)?;
    let (arguments, rest) = optional_listed::<ExprForm>(alloc, rest)?;
    alone(Simple::Call(name, arguments), rest)
}

// * [, list(item)]
fn a_print(alloc: Global, tokens: &[Token]) -> Result<Simple, ParseFail>
    ensures { Gives (λ s. s) result (keyed_simple Class.Print tokens.now) }
{
    let rest = a_mark(Mark::Star, tokens)?;
    let (items, rest) = more::<ItemForm>(alloc, rest)?;
    alone(Simple::Print(items), rest)
}

// ( unit , * ) [list(item)]
fn a_write(alloc: Global, tokens: &[Token]) -> Result<Simple, ParseFail>
    ensures { Gives (λ s. s) result (keyed_simple Class.Write tokens.now) }
{
    let rest = a_mark(Mark::Open, tokens)?;
    let (unit, rest) = a_unit(rest)?;
    let rest = a_mark(Mark::Comma, rest)?;
    let rest = a_mark(Mark::Star, rest)?;
    let rest = a_mark(Mark::Close, rest)?;
    let (items, rest) = listed::<ItemForm>(alloc, rest)?;
    alone(Simple::Write(unit, items), rest)
}

// , word = var
fn next_assigned(alloc: Global, word: Word, tokens: &[Token]) -> Result<(Var, &[Token]), ParseFail>
    ensures { Gives (λ p. (p.0, p.1.now)) result ((behind Mark.Comma (assigned word var_part)).read tokens.now) }
{
    let rest = a_mark(Mark::Comma, tokens)?;
    assigned::<VarForm>(alloc, word, rest)
}

// word = var , word = var
fn two_assigned(
    alloc: Global,
    first: Word,
    second: Word,
    tokens: &[Token],
) -> Result<((Var, Var), &[Token]), ParseFail>
    ensures { Gives (λ p. (p.0, p.1.now)) result
        ((pair (assigned first var_part) (behind Mark.Comma (assigned second var_part))).read tokens.now) }
{
    let (one, rest) = assigned::<VarForm>(alloc, first, tokens)?;
    let (other, rest) = next_assigned(alloc, second, rest)?;
    Ok(((one, other), rest))
}

// IN = var , OUT = var, also OUT first
fn two_ports(alloc: Global, tokens: &[Token]) -> Result<((bool, (Var, Var)), &[Token]), ParseFail>
    ensures { Gives (λ p. (p.0, p.1.now)) result (two_ports_part.read tokens.now) }
{
    if starts_with(Mark::Word(Word::In), tokens) {
        let ((inport, outport), rest) = two_assigned(alloc, Word::In, Word::Out, tokens)?;
        Ok(((true, (inport, outport)), rest))
    } else {
        let ((outport, inport), rest) = two_assigned(alloc, Word::Out, Word::In, tokens)?;
        Ok(((false, (inport, outport)), rest))
    }
}

// ( IN = var , OUT = var ), also OUT first
fn a_channel(alloc: Global, tokens: &[Token]) -> Result<Simple, ParseFail>
    ensures { Gives (λ s. s) result (keyed_simple Class.Channel tokens.now) }
{
    let rest = a_mark(Mark::Open, tokens)?;
    let (ports, rest) = two_ports(alloc, rest)?;
    let ((in_first, (inport, outport)), rest) = ended_by(ports, Mark::Close, rest)?;
    alone(
        Simple::Channel {
            in_first,
            inport,
            outport,
        },
        rest,
    )
}

// `OUT = var`.
struct OutForm;

impl Form for OutForm {
    type Item = Var;

    ghost use Rattle.fm_stmt.specs.Statements.{out_part};

    ghost reads = { out_part.read };

    fn read_one(alloc: Global, tokens: &[Token]) -> Result<(Var, &[Token]), ParseFail> {
        assigned::<VarForm>(alloc, Word::Out, tokens)
    }
}

// IN = var , list(OUT = var)
fn merged_ports(alloc: Global, tokens: &[Token]) -> Result<((Var, Seq<Var>), &[Token]), ParseFail>
    ensures { Gives (λ p. (p.0, p.1.now)) result (merged_ports_part.read tokens.now) }
{
    let (inport, rest) = assigned::<VarForm>(alloc, Word::In, tokens)?;
    let rest = a_mark(Mark::Comma, rest)?;
    let (outports, rest) = some::<OutForm>(alloc, rest)?;
    Ok(((inport, outports), rest))
}

// ( IN = var , list(OUT = var) )
fn a_merger(alloc: Global, tokens: &[Token]) -> Result<Simple, ParseFail>
    ensures { Gives (λ s. s) result (keyed_simple Class.Merger tokens.now) }
{
    let rest = a_mark(Mark::Open, tokens)?;
    let (ports, rest) = merged_ports(alloc, rest)?;
    let ((inport, outports), rest) = ended_by(ports, Mark::Close, rest)?;
    alone(Simple::Merger(inport, outports), rest)
}

// ( [PORT =] var )
fn a_port_in_parens(alloc: Global, tokens: &[Token]) -> Result<((bool, Var), &[Token]), ParseFail>
    ensures { Gives (λ p. (p.0, p.1.now)) result (parens_read port_part.read tokens.now) }
{
    let rest = a_mark(Mark::Open, tokens)?;
    let (port, rest) = a_port(alloc, rest)?;
    ended_by(port, Mark::Close, rest)
}

// ( [PORT =] var ) [list(expr)]
fn a_send(alloc: Global, tokens: &[Token]) -> Result<Simple, ParseFail>
    ensures { Gives (λ s. s) result (keyed_simple Class.Send tokens.now) }
{
    let ((named, port), rest) = a_port_in_parens(alloc, tokens)?;
    let (items, rest) = listed::<ExprForm>(alloc, rest)?;
    alone(Simple::Send { named, port, items }, rest)
}

// ( [PORT =] var {, extra} )
fn a_port_and_extras(
    alloc: Global,
    tokens: &[Token],
) -> Result<(((bool, Var), Seq<Extra>), &[Token]), ParseFail>
    ensures { Gives (λ p. (p.0, p.1.now)) result (port_and_extras_part.read tokens.now) }
{
    let rest = a_mark(Mark::Open, tokens)?;
    let (port, rest) = a_port(alloc, rest)?;
    let (extras, rest) = extras(alloc, rest)?;
    ended_by((port, extras), Mark::Close, rest)
}

// ( [PORT =] var {, extra} ) [list(var)]
fn a_receive(alloc: Global, tokens: &[Token]) -> Result<Simple, ParseFail>
    ensures { Gives (λ s. s) result (keyed_simple Class.Receive tokens.now) }
{
    let (((named, port), extras), rest) = a_port_and_extras(alloc, tokens)?;
    let (items, rest) = listed::<VarForm>(alloc, rest)?;
    alone(
        Simple::Receive {
            named,
            port,
            extras,
            items,
        },
        rest,
    )
}

// ( [PORT =] var )
fn an_end_channel(alloc: Global, tokens: &[Token]) -> Result<Simple, ParseFail>
    ensures { Gives (λ s. s) result (keyed_simple Class.EndChannel tokens.now) }
{
    let ((named, port), rest) = a_port_in_parens(alloc, tokens)?;
    alone(Simple::EndChannel { named, port }, rest)
}

// ( FROM = var , TO = var )
fn a_move_port(alloc: Global, tokens: &[Token]) -> Result<Simple, ParseFail>
    ensures { Gives (λ s. s) result (keyed_simple Class.MovePort tokens.now) }
{
    let rest = a_mark(Mark::Open, tokens)?;
    let (ports, rest) = two_assigned(alloc, Word::From, Word::To, rest)?;
    let ((from, to), rest) = ended_by(ports, Mark::Close, rest)?;
    alone(Simple::MovePort { from, to }, rest)
}

// [PORT =] var , EMPTY = var
fn a_port_and_empty(
    alloc: Global,
    tokens: &[Token],
) -> Result<(((bool, Var), Var), &[Token]), ParseFail>
    ensures { Gives (λ p. (p.0, p.1.now)) result (port_and_empty_part.read tokens.now) }
{
    let (port, rest) = a_port(alloc, tokens)?;
    let (empty, rest) = next_assigned(alloc, Word::Empty, rest)?;
    Ok(((port, empty), rest))
}

// ( [PORT =] var , EMPTY = var )
fn a_probe(alloc: Global, tokens: &[Token]) -> Result<Simple, ParseFail>
    ensures { Gives (λ s. s) result (keyed_simple Class.Probe tokens.now) }
{
    let rest = a_mark(Mark::Open, tokens)?;
    let (found, rest) = a_port_and_empty(alloc, rest)?;
    let (((named, port), empty), rest) = ended_by(found, Mark::Close, rest)?;
    alone(Simple::Probe { named, port, empty }, rest)
}

/// What stands behind the keyword of a class, all of the tokens.
pub fn keyed_simple(alloc: Global, class: Class, tokens: &[Token]) -> Result<Simple, ParseFail>
    ensures { Gives (λ s. s) result (keyed_simple class tokens.now) }
{
    match class {
        Class::Goto => a_goto(tokens),
        Class::Continue => alone(Simple::Continue, tokens),
        Class::Return => alone(Simple::Return, tokens),
        Class::Stop => alone(Simple::Stop, tokens),
        Class::Call => a_call(alloc, tokens),
        Class::Print => a_print(alloc, tokens),
        Class::Write => a_write(alloc, tokens),
        Class::Channel => a_channel(alloc, tokens),
        Class::Merger => a_merger(alloc, tokens),
        Class::Send => a_send(alloc, tokens),
        Class::Receive => a_receive(alloc, tokens),
        Class::EndChannel => an_end_channel(alloc, tokens),
        Class::MovePort => a_move_port(alloc, tokens),
        Class::Probe => a_probe(alloc, tokens),
        _ => Err(ParseFail::Bad),
    }
}

/// A statement that may stand behind a logical IF, all of the tokens.
pub fn simple(alloc: Global, tokens: &[Token]) -> Result<Simple, ParseFail>
    ensures { Gives (λ s. s) result (simple_at tokens.now) }
{
    match tokens.split_first() {
        Some((Token::Key(class), rest)) => keyed_simple(alloc, *class, rest),
        _ => an_assignment(alloc, tokens),
    }
}
