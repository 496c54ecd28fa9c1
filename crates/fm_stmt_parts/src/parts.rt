//! Parts of statements: variables, bounds, declarations, heads of loops, items, places.

ghost use Rattle.std.specs.Prelude.{◌≡◌};
ghost use Rattle.fm_tree.specs.Parts.{ends_in};
ghost use Rattle.fm_stmt_parts.specs.Gives.{Gives};
ghost use Rattle.fm_stmt_parts.specs.Reading.{any_token, behind_read, expr_read, name_at, optional_behind_read, optional_read, pair_read, starts};
ghost use Rattle.fm_stmt_parts.specs.Parts.{are_each_once, array_part, bound_part, call_part_part, decl_part, defined_part, extra_part, extras_part, is_end, is_number, item_part, location_part, loop_label_part, loop_part, no_constant, port_part, submachine_part, unit_part, var_part, way_of, way_part, where_part};

use crate::list::{Form, bracketed, listed_and_closed, more, optional_behind, some_in_parens};
use crate::mark::{Mark, Word};
use crate::reader::{
    a_constant, a_label, a_mark, a_name, an_expr, an_optional_token, assigned_behind, ended_by,
    expr_behind, starts_with,
};
use fm_base::{Name, Op, ParseFail, Seq, Token};
use fm_tree::{
    Bound, CallPart, Decl, Defined, Expr, Extra, Item, LoopHead, LoopLabel, Var, Way, Where,
    WriteUnit,
};
use std::alloc::Global;

/// A name.
pub struct NameForm;

impl Form for NameForm {
    type Item = Name;

    ghost reads = { name_at };

    fn read_one(alloc: Global, tokens: &[Token]) -> Result<(Name, &[Token]), ParseFail> {
        a_name(alloc, tokens)
    }
}

/// An expression.
pub struct ExprForm;

impl Form for ExprForm {
    type Item = Expr;

    ghost reads = { expr_read };

    fn read_one(alloc: Global, tokens: &[Token]) -> Result<(Expr, &[Token]), ParseFail> {
        an_expr(alloc, tokens)
    }
}

/// `name [( list(expr) )]`.
pub struct VarForm;

impl Form for VarForm {
    type Item = Var;

    ghost reads = { var_part.read };

    fn read_one(alloc: Global, tokens: &[Token]) -> Result<(Var, &[Token]), ParseFail> {
        let (name, rest) = a_name(alloc, tokens)?;
        let (subscripts, rest) = bracketed::<ExprForm>(alloc, rest)?;
        Ok((Var { name, subscripts }, rest))
    }
}

/// `expr [: expr]`.
pub struct BoundForm;

impl Form for BoundForm {
    type Item = Bound;

    ghost reads = { bound_part.read };

    fn read_one(alloc: Global, tokens: &[Token]) -> Result<(Bound, &[Token]), ParseFail> {
        let (first, rest) = an_expr(alloc, tokens)?;
        let (last, rest) = optional_behind::<ExprForm>(alloc, Mark::Colon, rest)?;
        let bound = match last {
            None => Bound {
                low: None,
                high: first,
            },
            Some(high) => Bound {
                low: Some(first),
                high,
            },
        };
        Ok((bound, rest))
    }
}

/// `name [( list(bound) )]`.
pub struct DeclForm;

impl Form for DeclForm {
    type Item = Decl;

    ghost reads = { decl_part.read };

    fn read_one(alloc: Global, tokens: &[Token]) -> Result<(Decl, &[Token]), ParseFail> {
        let (name, rest) = a_name(alloc, tokens)?;
        let (bounds, rest) = bracketed::<BoundForm>(alloc, rest)?;
        Ok((Decl { name, bounds }, rest))
    }
}

/// `name ( list(bound) )`.
pub struct ArrayForm;

impl Form for ArrayForm {
    type Item = Decl;

    ghost reads = { array_part.read };

    fn read_one(alloc: Global, tokens: &[Token]) -> Result<(Decl, &[Token]), ParseFail> {
        let (name, rest) = a_name(alloc, tokens)?;
        let (bounds, rest) = some_in_parens::<BoundForm>(alloc, rest)?;
        Ok((Decl { name, bounds }, rest))
    }
}

/// `name = expr`.
pub struct DefinedForm;

impl Form for DefinedForm {
    type Item = Defined;

    ghost reads = { defined_part.read };

    fn read_one(alloc: Global, tokens: &[Token]) -> Result<(Defined, &[Token]), ParseFail> {
        let (name, rest) = a_name(alloc, tokens)?;
        let (value, rest) = expr_behind(alloc, Mark::Equals, rest)?;
        Ok((Defined { name, value }, rest))
    }
}

/// `word = form`.
pub fn assigned<F: Form>(
    alloc: Global,
    word: Word,
    tokens: &[Token],
) -> Result<(F::Item, &[Token]), ParseFail>
    ensures { Gives (λ p. (p.0, p.1.now)) result
        (behind_read (Mark.Word word) (behind_read Mark.Equals F.reads) tokens.now) }
{
    let rest = a_mark(Mark::Word(word), tokens)?;
    let rest = a_mark(Mark::Equals, rest)?;
    F::read_one(alloc, rest)
}

/// `IN`, `OUT` or `INOUT`.
pub fn a_way(tokens: &[Token]) -> Result<(Way, &[Token]), ParseFail>
    ensures { Gives (λ p. (p.0, p.1.now)) result (way_part.read tokens.now) }
{
    match tokens.split_first() {
        Some((Token::Named(name), rest)) => {
            let way = way_of(name.as_bytes())?;
            Ok((way, rest))
        }
        _ => Err(ParseFail::Bad),
    }
}

fn way_of(name: &[u8]) -> Result<Way, ParseFail>
    ensures { Gives (λ w. w) result (way_of name.now) }
{
    if name == Word::In.text() {
        Ok(Way::In)
    } else if name == Word::Out.text() {
        Ok(Way::Out)
    } else if name == Word::InOut.text() {
        Ok(Way::InOut)
    } else {
        Err(ParseFail::Bad)
    }
}

fn starts_with_number(tokens: &[Token]) -> bool
    ensures { result ≡ starts is_number tokens.now }
{
    match tokens.split_first() {
        Some((Token::Number(_), _)) => true,
        _ => false,
    }
}

// `label [,]`
fn a_loop_label(tokens: &[Token]) -> Result<(LoopLabel, &[Token]), ParseFail>
    ensures { Gives (λ p. (p.0, p.1.now)) result (loop_label_part.read tokens.now) }
{
    let (label, rest) = a_label(tokens)?;
    let (comma, rest) = an_optional_token(Mark::Comma, rest);
    Ok((LoopLabel { label, comma }, rest))
}

// `[label [,]]`
fn optional_label(tokens: &[Token]) -> Result<(Option<LoopLabel>, &[Token]), ParseFail>
    ensures { Gives (λ p. (p.0, p.1.now)) result (optional_read is_number loop_label_part.read tokens.now) }
{
    if !starts_with_number(tokens) {
        return Ok((None, tokens));
    }
    let (label, rest) = a_loop_label(tokens)?;
    Ok((Some(label), rest))
}

// `, expr [, expr]`
fn a_limit_and_step(
    alloc: Global,
    tokens: &[Token],
) -> Result<((Expr, Option<Expr>), &[Token]), ParseFail>
    ensures { Gives (λ p. (p.0, p.1.now)) result
        (pair_read (behind_read Mark.Comma expr_read) (optional_behind_read Mark.Comma expr_read) tokens.now) }
{
    let (limit, rest) = expr_behind(alloc, Mark::Comma, tokens)?;
    let (step, rest) = optional_behind::<ExprForm>(alloc, Mark::Comma, rest)?;
    Ok(((limit, step), rest))
}

/// `[label [,]] name = expr , expr [, expr]`.
pub fn a_loop_head(alloc: Global, tokens: &[Token]) -> Result<(LoopHead, &[Token]), ParseFail>
    ensures { Gives (λ p. (p.0, p.1.now)) result (loop_part.read tokens.now) }
{
    let (label, rest) = optional_label(tokens)?;
    let (variable, rest) = a_name(alloc, rest)?;
    let (from, rest) = expr_behind(alloc, Mark::Equals, rest)?;
    let ((to, step), rest) = a_limit_and_step(alloc, rest)?;
    let head = LoopHead {
        label,
        variable,
        from,
        to,
        step,
    };
    Ok((head, rest))
}

fn starts_with_no_constant(tokens: &[Token]) -> bool
    ensures { result ≡ starts no_constant tokens.now }
{
    match tokens.split_first() {
        None => false,
        Some((Token::Constant(_), _)) => false,
        Some(_) => true,
    }
}

/// An expression or a character constant.
pub struct ItemForm;

impl Form for ItemForm {
    type Item = Item;

    ghost reads = { item_part.read };

    fn read_one(alloc: Global, tokens: &[Token]) -> Result<(Item, &[Token]), ParseFail> {
        if starts_with_no_constant(tokens) {
            let (value, rest) = an_expr(alloc, tokens)?;
            Ok((Item::Expr(value), rest))
        } else {
            let (bytes, rest) = a_constant(alloc, tokens)?;
            Ok((Item::Constant(bytes), rest))
        }
    }
}

/// `*` or `6`.
pub fn a_unit(tokens: &[Token]) -> Result<(WriteUnit, &[Token]), ParseFail>
    ensures { Gives (λ p. (p.0, p.1.now)) result (unit_part.read tokens.now) }
{
    match tokens.split_first() {
        Some((Token::Sign(Op::Mul), rest)) => Ok((WriteUnit::Star, rest)),
        Some((Token::Number(n), rest)) if *n == 6 => Ok((WriteUnit::Six, rest)),
        _ => Err(ParseFail::Bad),
    }
}

/// `[PORT =] var`: whether the word is written, and the variable.
pub fn a_port(alloc: Global, tokens: &[Token]) -> Result<((bool, Var), &[Token]), ParseFail>
    ensures { Gives (λ p. (p.0, p.1.now)) result (port_part.read tokens.now) }
{
    match assigned_behind(Word::Port, tokens) {
        Some(behind) => {
            let (port, rest) = VarForm::read_one(alloc, behind)?;
            Ok(((true, port), rest))
        }
        None => {
            let (port, rest) = VarForm::read_one(alloc, tokens)?;
            Ok(((false, port), rest))
        }
    }
}

/// `END = label` or `IOSTAT = var`.
pub struct ExtraForm;

impl Form for ExtraForm {
    type Item = Extra;

    ghost reads = { extra_part.read };

    fn read_one(alloc: Global, tokens: &[Token]) -> Result<(Extra, &[Token]), ParseFail> {
        if starts_with(Mark::Word(Word::End), tokens) {
            let rest = a_mark(Mark::Word(Word::End), tokens)?;
            let rest = a_mark(Mark::Equals, rest)?;
            let (label, rest) = a_label(rest)?;
            Ok((Extra::End(label), rest))
        } else {
            let (variable, rest) = assigned::<VarForm>(alloc, Word::Iostat, tokens)?;
            Ok((Extra::Iostat(variable), rest))
        }
    }
}

/// `{, extra}`, each extra at most once.
pub fn extras(alloc: Global, tokens: &[Token]) -> Result<(Seq<Extra>, &[Token]), ParseFail>
    ensures { Gives (λ p. (p.0, p.1.now)) result (extras_part.read tokens.now) }
{
    let (extras, rest) = more::<ExtraForm>(alloc, tokens)?;
    if are_each_once(extras.as_slice()) {
        Ok((extras, rest))
    } else {
        Err(ParseFail::Bad)
    }
}

// Whether there are at most one `END =` and one `IOSTAT =`.
#[tactic(auto, using(crate::proofs::ExtraCounts::ends_and_iostats))]
fn are_each_once(extras: &[Extra]) -> bool
    ensures { result ≡ are_each_once extras.now }
{
    let ends = ends_in(extras);
    let iostats = extras.len() - ends;
    ends <= 1 && iostats <= 1
}

fn is_end(extra: &Extra) -> bool
    ensures { result ≡ is_end extra.now }
{
    match extra {
        Extra::End(_) => true,
        Extra::Iostat(_) => false,
    }
}

fn ends_in(extras: &[Extra]) -> usize
    ensures { result ≡ ends_in extras.now }
{
    let mut count: usize = 0;
    'extras: for extra in extras {
        if is_end(extra) {
            count += 1;
        }
    }
    count
}

fn a_location(alloc: Global, tokens: &[Token]) -> Result<(Seq<Expr>, &[Token]), ParseFail>
    ensures { Gives (λ p. (p.0, p.1.now)) result (location_part.read tokens.now) }
{
    let rest = a_mark(Mark::Word(Word::Location), tokens)?;
    some_in_parens::<ExprForm>(alloc, rest)
}

// `expr : expr`
fn a_range(alloc: Global, tokens: &[Token]) -> Result<((Expr, Expr), &[Token]), ParseFail>
    ensures { Gives (λ p. (p.0, p.1.now)) result (pair_read expr_read (behind_read Mark.Colon expr_read) tokens.now) }
{
    let (first, rest) = an_expr(alloc, tokens)?;
    let (last, rest) = expr_behind(alloc, Mark::Colon, rest)?;
    Ok(((first, last), rest))
}

fn a_submachine(alloc: Global, tokens: &[Token]) -> Result<((Expr, Expr), &[Token]), ParseFail>
    ensures { Gives (λ p. (p.0, p.1.now)) result (submachine_part.read tokens.now) }
{
    let rest = a_mark(Mark::Word(Word::Submachine), tokens)?;
    let rest = a_mark(Mark::Open, rest)?;
    let (range, rest) = a_range(alloc, rest)?;
    ended_by(range, Mark::Close, rest)
}

fn a_place(alloc: Global, tokens: &[Token]) -> Result<(Where, &[Token]), ParseFail>
    ensures { Gives (λ p. (p.0, p.1.now)) result (where_part.read tokens.now) }
{
    if starts_with(Mark::Word(Word::Location), tokens) {
        let (subscripts, rest) = a_location(alloc, tokens)?;
        Ok((Where::Location(subscripts), rest))
    } else {
        let ((first, last), rest) = a_submachine(alloc, tokens)?;
        Ok((Where::Submachine(first, last), rest))
    }
}

// `[where]`
fn optional_place(alloc: Global, tokens: &[Token]) -> Result<(Option<Where>, &[Token]), ParseFail>
    ensures { Gives (λ p. (p.0, p.1.now)) result (optional_read any_token where_part.read tokens.now) }
{
    if tokens.is_empty() {
        return Ok((None, tokens));
    }
    let (place, rest) = a_place(alloc, tokens)?;
    Ok((Some(place), rest))
}

/// `[list(expr)] ) [where]`.
pub fn a_call_part(alloc: Global, tokens: &[Token]) -> Result<(CallPart, &[Token]), ParseFail>
    ensures { Gives (λ p. (p.0, p.1.now)) result (call_part_part.read tokens.now) }
{
    let (arguments, rest) = listed_and_closed::<ExprForm>(alloc, tokens)?;
    let (place, rest) = optional_place(alloc, rest)?;
    Ok((CallPart { arguments, place }, rest))
}
