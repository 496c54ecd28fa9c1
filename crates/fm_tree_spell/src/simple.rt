//! The tokens of the statements that may stand behind a logical IF.

ghost use Rattle.std.specs.Prelude.{◌≡◌, ◌++◌, OnOk};
ghost use Rattle.fm_tree.specs.Forms.{label, assigned, behind, pair, parens};
ghost use Rattle.fm_tree.specs.Parts.{var_form};
ghost use Rattle.fm_tree.specs.Statements.{simple_spelling, key, keyed, assignment_form, call_form, print_form, write_form, channel_form, merger_form, send_form, receive_form, end_channel_form, move_port_form, probe_form};

use crate::expression::push_expr;
use crate::list::{ExprForm, push_arguments, push_list, push_more};
use crate::part::{ExtraForm, ItemForm, OutForm, VarForm, push_port, push_unit, push_var};
use crate::word::{push_assigning, push_label, push_name, push_token};
use fm_base::{Class, Label, Name, NoMemory, Op, Seq, Token};
use fm_tree::{Expr, Extra, Item, Simple, Var, WriteUnit};
use std::alloc::Global;

fn push_assignment(
    alloc: Global,
    target: &Var,
    value: &Expr,
    out: &mut Vec<Token>,
) -> Result<(), NoMemory>
    ensures { OnOk result (out.new.items ≡ out.old.items ++ assignment_form.spelled (target.now, value.now)) }
{
    push_var(alloc, target, out)?;
    push_token(Token::Equals, out)?;
    push_expr(alloc, value, out)
}

fn push_call(
    alloc: Global,
    name: &Name,
    arguments: &Option<Seq<Expr>>,
    out: &mut Vec<Token>,
) -> Result<(), NoMemory>
    ensures { OnOk result (out.new.items ≡ out.old.items ++ keyed Class.Call call_form (name.now, arguments.now)) }
{
    push_token(Token::Key(Class::Call), out)?;
    push_name(alloc, name, out)?;
    push_arguments::<Expr, ExprForm>(alloc, arguments, out)
}

fn push_print(alloc: Global, items: &[Item], out: &mut Vec<Token>) -> Result<(), NoMemory>
    ensures { OnOk result (out.new.items ≡ out.old.items ++ keyed Class.Print print_form items.now) }
{
    push_token(Token::Key(Class::Print), out)?;
    push_token(Token::Sign(Op::Mul), out)?;
    push_more::<Item, ItemForm>(alloc, items, out)
}

fn push_write(
    alloc: Global,
    unit: WriteUnit,
    items: &[Item],
    out: &mut Vec<Token>,
) -> Result<(), NoMemory>
    ensures { OnOk result (out.new.items ≡ out.old.items ++ keyed Class.Write write_form (unit, items.now)) }
{
    push_token(Token::Key(Class::Write), out)?;
    push_token(Token::Open, out)?;
    push_unit(unit, out)?;
    push_token(Token::Comma, out)?;
    push_token(Token::Sign(Op::Mul), out)?;
    push_token(Token::Close, out)?;
    push_list::<Item, ItemForm>(alloc, items, out)
}

/// `word = var`.
fn push_assigned(
    alloc: Global,
    word: &[u8],
    var: &Var,
    out: &mut Vec<Token>,
) -> Result<(), NoMemory>
    ensures { OnOk result (out.new.items ≡ out.old.items ++ (assigned word.now var_form).spelled var.now) }
{
    push_assigning(alloc, word, out)?;
    push_var(alloc, var, out)
}

/// `word = var , word = var`, in parentheses.
fn push_two(
    alloc: Global,
    first_word: &[u8],
    first: &Var,
    second_word: &[u8],
    second: &Var,
    out: &mut Vec<Token>,
) -> Result<(), NoMemory>
    ensures { OnOk result (out.new.items
        ≡ out.old.items
        ++ (parens (pair
        (assigned first_word.now var_form)
        (behind Token.Comma (assigned second_word.now var_form)))).spelled
        (first.now, second.now)) }
{
    push_token(Token::Open, out)?;
    push_assigned(alloc, first_word, first, out)?;
    push_token(Token::Comma, out)?;
    push_assigned(alloc, second_word, second, out)?;
    push_token(Token::Close, out)
}

fn push_channel(
    alloc: Global,
    in_first: bool,
    inport: &Var,
    outport: &Var,
    out: &mut Vec<Token>,
) -> Result<(), NoMemory>
    ensures { OnOk result
        (out.new.items ≡ out.old.items ++ keyed Class.Channel channel_form (in_first, (inport.now, outport.now))) }
{
    push_token(Token::Key(Class::Channel), out)?;
    if in_first {
        push_two(alloc, b"IN", inport, b"OUT", outport, out)
    } else {
        push_two(alloc, b"OUT", outport, b"IN", inport, out)
    }
}

fn push_merger(
    alloc: Global,
    inport: &Var,
    outports: &[Var],
    out: &mut Vec<Token>,
) -> Result<(), NoMemory>
    ensures { OnOk result (out.new.items ≡ out.old.items ++ keyed Class.Merger merger_form (inport.now, outports.now)) }
{
    push_token(Token::Key(Class::Merger), out)?;
    push_token(Token::Open, out)?;
    push_assigned(alloc, b"IN", inport, out)?;
    push_token(Token::Comma, out)?;
    push_list::<Var, OutForm>(alloc, outports, out)?;
    push_token(Token::Close, out)
}

fn push_send(
    alloc: Global,
    named: bool,
    port: &Var,
    items: &[Expr],
    out: &mut Vec<Token>,
) -> Result<(), NoMemory>
    ensures { OnOk result (out.new.items ≡ out.old.items ++ keyed Class.Send send_form ((named, port.now), items.now)) }
{
    push_token(Token::Key(Class::Send), out)?;
    push_port_alone(alloc, named, port, out)?;
    push_list::<Expr, ExprForm>(alloc, items, out)
}

fn push_receive(
    alloc: Global,
    named: bool,
    port: &Var,
    extras: &[Extra],
    items: &[Var],
    out: &mut Vec<Token>,
) -> Result<(), NoMemory>
    ensures { OnOk result (out.new.items
        ≡ out.old.items ++ keyed Class.Receive receive_form (((named, port.now), extras.now), items.now)) }
{
    push_token(Token::Key(Class::Receive), out)?;
    push_token(Token::Open, out)?;
    push_port(alloc, named, port, out)?;
    push_more::<Extra, ExtraForm>(alloc, extras, out)?;
    push_token(Token::Close, out)?;
    push_list::<Var, VarForm>(alloc, items, out)
}

/// `( [PORT =] var )`.
fn push_port_alone(
    alloc: Global,
    named: bool,
    port: &Var,
    out: &mut Vec<Token>,
) -> Result<(), NoMemory>
    ensures { OnOk result (out.new.items ≡ out.old.items ++ end_channel_form.spelled (named, port.now)) }
{
    push_token(Token::Open, out)?;
    push_port(alloc, named, port, out)?;
    push_token(Token::Close, out)
}

fn push_probe(
    alloc: Global,
    named: bool,
    port: &Var,
    empty: &Var,
    out: &mut Vec<Token>,
) -> Result<(), NoMemory>
    ensures { OnOk result
        (out.new.items ≡ out.old.items ++ keyed Class.Probe probe_form ((named, port.now), empty.now)) }
{
    push_token(Token::Key(Class::Probe), out)?;
    push_token(Token::Open, out)?;
    push_port(alloc, named, port, out)?;
    push_token(Token::Comma, out)?;
    push_assigned(alloc, b"EMPTY", empty, out)?;
    push_token(Token::Close, out)
}

fn push_goto(target: Label, out: &mut Vec<Token>) -> Result<(), NoMemory>
    ensures { OnOk result (out.new.items ≡ out.old.items ++ keyed Class.Goto label target) }
{
    push_token(Token::Key(Class::Goto), out)?;
    push_label(target, out)
}

fn push_end_channel(
    alloc: Global,
    named: bool,
    port: &Var,
    out: &mut Vec<Token>,
) -> Result<(), NoMemory>
    ensures { OnOk result (out.new.items ≡ out.old.items ++ keyed Class.EndChannel end_channel_form (named, port.now)) }
{
    push_token(Token::Key(Class::EndChannel), out)?;
    push_port_alone(alloc, named, port, out)
}

fn push_move_port(alloc: Global, from: &Var, to: &Var, out: &mut Vec<Token>) -> Result<(), NoMemory>
    ensures { OnOk result (out.new.items ≡ out.old.items ++ keyed Class.MovePort move_port_form (from.now, to.now)) }
{
    push_token(Token::Key(Class::MovePort), out)?;
    push_two(alloc, b"FROM", from, b"TO", to, out)
}

/// A keyword.
pub fn push_key(class: Class, out: &mut Vec<Token>) -> Result<(), NoMemory>
    ensures { OnOk result (out.new.items ≡ out.old.items ++ key class) }
{
    push_token(Token::Key(class), out)
}

/// A statement that may stand behind a logical IF.
pub fn push_simple(alloc: Global, statement: &Simple, out: &mut Vec<Token>) -> Result<(), NoMemory>
    ensures { OnOk result (out.new.items ≡ out.old.items ++ simple_spelling statement.now) }
{
    match statement {
        Simple::Assignment(target, value) => push_assignment(alloc, target, value, out),
        Simple::Goto(target) => push_goto(*target, out),
        Simple::Continue => push_key(Class::Continue, out),
        Simple::Return => push_key(Class::Return, out),
        Simple::Stop => push_key(Class::Stop, out),
        Simple::Call(name, arguments) => push_call(alloc, name, arguments, out),
        Simple::Print(items) => push_print(alloc, items.as_slice(), out),
        Simple::Write(unit, items) => push_write(alloc, *unit, items.as_slice(), out),
        Simple::Channel {
            in_first,
            inport,
            outport,
        } => push_channel(alloc, *in_first, inport, outport, out),
        Simple::Merger(inport, outports) => { push_merger(alloc, inport, outports.as_slice(), out) }
        Simple::Send { named, port, items } => {
            push_send(alloc, *named, port, items.as_slice(), out)
        }
        Simple::Receive {
            named,
            port,
            extras,
            items,
        } => push_receive(
            alloc,
            *named,
            port,
            extras.as_slice(),
            items.as_slice(),
            out,
        ),
        Simple::EndChannel { named, port } => push_end_channel(alloc, *named, port, out),
        Simple::MovePort { from, to } => push_move_port(alloc, from, to, out),
        Simple::Probe { named, port, empty } => push_probe(alloc, *named, port, empty, out),
    }
}
