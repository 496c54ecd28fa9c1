//! The tokens of parts of statements.

ghost use Rattle.std.specs.Prelude.{◌≡◌, [], ◌∷◌, ◌++◌, OnOk};
ghost use Rattle.fm_tree.specs.Forms.{expr, behind, behind_word, optional, optional_behind, parens, pair};
ghost use Rattle.fm_tree.specs.Parts.{loop_form, way_form, unit_form, port_form, call_part_form};
ghost use Rattle.fm_tree.specs.Parts.{var_form, decl_form, array_form, defined_form, loop_label_form, item_form, extra_form, location_form, where_form};

use crate::expression::push_expr;
use crate::list::{ExprForm, Spelled, push_bracketed, push_list, push_parens};
use crate::port_type::BoundForm;
use crate::word::{push_assigning, push_label, push_name, push_token, push_word};
use fm_base::{NoMemory, Op, Seq, Token};
use fm_tree::{
    Bound, CallPart, Decl, Defined, Expr, Extra, Item, LoopHead, LoopLabel, Var, Way, Where,
    WriteUnit,
};
use std::alloc::Global;

/// `name [( list(expr) )]`.
pub fn push_var(alloc: Global, var: &Var, out: &mut Vec<Token>) -> Result<(), NoMemory>
    ensures { OnOk result (out.new.items ≡ out.old.items ++ var_form.spelled var.now) }
{
    push_name(alloc, &var.name, out)?;
    push_bracketed::<Expr, ExprForm>(alloc, var.subscripts.as_slice(), out)
}

/// A variable or an element.
pub struct VarForm;

impl Spelled<Var> for VarForm {
    ghost form = { var_form };

    fn push(alloc: Global, part: &Var, out: &mut Vec<Token>) -> Result<(), NoMemory> {
        push_var(alloc, part, out)
    }
}

/// `OUT = var`.
pub struct OutForm;

impl Spelled<Var> for OutForm {
    ghost use Rattle.std.specs.Prelude.{codes};
    ghost use Rattle.fm_tree.specs.Forms.{assigned};
    ghost use Rattle.fm_tree.specs.Parts.{var_form};

    ghost form = { assigned (codes "OUT") var_form };

    fn push(alloc: Global, part: &Var, out: &mut Vec<Token>) -> Result<(), NoMemory> {
        push_assigning(alloc, b"OUT", out)?;
        push_var(alloc, part, out)
    }
}

/// `name [( list(bound) )]`.
pub struct DeclForm;

impl Spelled<Decl> for DeclForm {
    ghost form = { decl_form };

    fn push(alloc: Global, part: &Decl, out: &mut Vec<Token>) -> Result<(), NoMemory> {
        push_name(alloc, &part.name, out)?;
        push_bracketed::<Bound, BoundForm>(alloc, part.bounds.as_slice(), out)
    }
}

/// `name ( list(bound) )`.
pub struct ArrayForm;

impl Spelled<Decl> for ArrayForm {
    ghost form = { array_form };

    fn push(alloc: Global, part: &Decl, out: &mut Vec<Token>) -> Result<(), NoMemory> {
        push_name(alloc, &part.name, out)?;
        push_parens::<Bound, BoundForm>(alloc, part.bounds.as_slice(), out)
    }
}

/// `name = expr`.
pub struct DefinedForm;

impl Spelled<Defined> for DefinedForm {
    ghost form = { defined_form };

    fn push(alloc: Global, part: &Defined, out: &mut Vec<Token>) -> Result<(), NoMemory> {
        push_name(alloc, &part.name, out)?;
        push_token(Token::Equals, out)?;
        push_expr(alloc, &part.value, out)
    }
}

/// `IN`, `OUT` or `INOUT`.
pub fn push_way(alloc: Global, way: Way, out: &mut Vec<Token>) -> Result<(), NoMemory>
    ensures { OnOk result (out.new.items ≡ out.old.items ++ way_form.spelled way) }
{
    match way {
        Way::In => push_word(alloc, b"IN", out),
        Way::Out => push_word(alloc, b"OUT", out),
        Way::InOut => push_word(alloc, b"INOUT", out),
    }
}

fn push_loop_label(part: LoopLabel, out: &mut Vec<Token>) -> Result<(), NoMemory>
    ensures { OnOk result (out.new.items ≡ out.old.items ++ loop_label_form.spelled part) }
{
    push_label(part.label, out)?;
    if part.comma {
        push_token(Token::Comma, out)?;
    }
    Ok(())
}

// `[label [,]]`
fn push_optional_label(part: Option<LoopLabel>, out: &mut Vec<Token>) -> Result<(), NoMemory>
    ensures { OnOk result (out.new.items ≡ out.old.items ++ (optional loop_label_form).spelled part) }
{
    match part {
        None => Ok(()),
        Some(label) => push_loop_label(label, out),
    }
}

// `, expr`
fn push_next(alloc: Global, value: &Expr, out: &mut Vec<Token>) -> Result<(), NoMemory>
    ensures { OnOk result (out.new.items ≡ out.old.items ++ (behind Token.Comma expr).spelled value.now) }
{
    push_token(Token::Comma, out)?;
    push_expr(alloc, value, out)
}

// `[, expr]`
fn push_step(alloc: Global, step: &Option<Expr>, out: &mut Vec<Token>) -> Result<(), NoMemory>
    ensures { OnOk result (out.new.items ≡ out.old.items ++ (optional_behind Token.Comma expr).spelled step.now) }
{
    match step {
        None => Ok(()),
        Some(value) => push_next(alloc, value, out),
    }
}

/// `[label [,]] name = expr , expr [, expr]`.
pub fn push_loop_head(alloc: Global, head: &LoopHead, out: &mut Vec<Token>) -> Result<(), NoMemory>
    ensures { OnOk result (out.new.items ≡ out.old.items ++ loop_form.spelled head.now) }
{
    push_optional_label(head.label, out)?;
    push_name(alloc, &head.variable, out)?;
    push_token(Token::Equals, out)?;
    push_expr(alloc, &head.from, out)?;
    push_next(alloc, &head.to, out)?;
    push_step(alloc, &head.step, out)
}

/// An expression or a character constant.
pub struct ItemForm;

impl Spelled<Item> for ItemForm {
    ghost form = { item_form };

    fn push(alloc: Global, part: &Item, out: &mut Vec<Token>) -> Result<(), NoMemory> {
        match part {
            Item::Expr(expr) => push_expr(alloc, expr, out),
            Item::Constant(bytes) => push_constant(alloc, bytes.as_slice(), out),
        }
    }
}

fn push_constant(alloc: Global, bytes: &[u8], out: &mut Vec<Token>) -> Result<(), NoMemory>
    ensures { OnOk result (out.new.items ≡ out.old.items ++ Token.Constant bytes.now ∷ []) }
{
    push_token(Token::Constant(Seq::from_slice(alloc, bytes)?), out)
}

/// `*` or `6`.
pub fn push_unit(unit: WriteUnit, out: &mut Vec<Token>) -> Result<(), NoMemory>
    ensures { OnOk result (out.new.items ≡ out.old.items ++ unit_form.spelled unit) }
{
    match unit {
        WriteUnit::Star => push_token(Token::Sign(Op::Mul), out),
        WriteUnit::Six => push_token(Token::Number(6), out),
    }
}

/// `[PORT =] var`.
pub fn push_port(
    alloc: Global,
    named: bool,
    port: &Var,
    out: &mut Vec<Token>,
) -> Result<(), NoMemory>
    ensures { OnOk result (out.new.items ≡ out.old.items ++ port_form.spelled (named, port.now)) }
{
    if named {
        push_assigning(alloc, b"PORT", out)?;
    }
    push_var(alloc, port, out)
}

/// `END = label` or `IOSTAT = var`.
pub struct ExtraForm;

impl Spelled<Extra> for ExtraForm {
    ghost form = { extra_form };

    fn push(alloc: Global, part: &Extra, out: &mut Vec<Token>) -> Result<(), NoMemory> {
        match part {
            Extra::End(label) => {
                push_assigning(alloc, b"END", out)?;
                push_label(*label, out)
            }
            Extra::Iostat(var) => {
                push_assigning(alloc, b"IOSTAT", out)?;
                push_var(alloc, var, out)
            }
        }
    }
}

/// `( expr : expr )`.
fn push_range(
    alloc: Global,
    first: &Expr,
    last: &Expr,
    out: &mut Vec<Token>,
) -> Result<(), NoMemory>
    ensures { OnOk result (out.new.items
        ≡ out.old.items ++ (parens (pair expr (behind Token.Colon expr))).spelled (first.now, last.now)) }
{
    push_token(Token::Open, out)?;
    push_expr(alloc, first, out)?;
    push_token(Token::Colon, out)?;
    push_expr(alloc, last, out)?;
    push_token(Token::Close, out)
}

/// `word ( expr : expr )`.
fn push_worded_range(
    alloc: Global,
    word: &[u8],
    first: &Expr,
    last: &Expr,
    out: &mut Vec<Token>,
) -> Result<(), NoMemory>
    ensures { OnOk result (out.new.items
        ≡ out.old.items
        ++ (behind_word word.now (parens (pair expr (behind Token.Colon expr)))).spelled (first.now, last.now)) }
{
    push_word(alloc, word, out)?;
    push_range(alloc, first, last, out)
}

fn push_location(alloc: Global, subscripts: &[Expr], out: &mut Vec<Token>) -> Result<(), NoMemory>
    ensures { OnOk result (out.new.items ≡ out.old.items ++ location_form.spelled subscripts.now) }
{
    push_word(alloc, b"LOCATION", out)?;
    push_parens::<Expr, ExprForm>(alloc, subscripts, out)
}

fn push_where(alloc: Global, place: &Where, out: &mut Vec<Token>) -> Result<(), NoMemory>
    ensures { OnOk result (out.new.items ≡ out.old.items ++ where_form.spelled place.now) }
{
    match place {
        Where::Location(subscripts) => { push_location(alloc, subscripts.as_slice(), out) }
        Where::Submachine(first, last) => {
            push_worded_range(alloc, b"SUBMACHINE", first, last, out)
        }
    }
}

/// `[list(expr)] ) [where]`.
pub fn push_call_part(alloc: Global, part: &CallPart, out: &mut Vec<Token>) -> Result<(), NoMemory>
    ensures { OnOk result (out.new.items ≡ out.old.items ++ call_part_form.spelled part.now) }
{
    push_list::<Expr, ExprForm>(alloc, part.arguments.as_slice(), out)?;
    push_token(Token::Close, out)?;
    match &part.place {
        None => Ok(()),
        Some(place) => push_where(alloc, place, out),
    }
}
