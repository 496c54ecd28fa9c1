//! A reader that goes over the tokens once and keeps what stands open on a stack.

ghost use Rattle.std.specs.Prelude.{◌≡◌, [], ◌∷◌, ◌++◌, IfOk, None, Some, is_some};
ghost use Rattle.fm_tree.specs.Shape.{levels, grade};
ghost use Rattle.fm_tree.specs.Tree.{Ref, Paren, Signed, Not, Binary, trees_from};
ghost use Rattle.fm_expr.specs.Reading.{stack_of, need, demand, operation, reduction, operand_step, call_step, halt, operator_step, close_step, comma_step, behind_step, empty_call, prefix_step, step, whole_around, last_whole, run};

use fm_base::{Name, NoMemory, Op, Seq, Token};
use fm_tree::{Expr, ExprNode, left_level, own_level, right_level};
use std::alloc::Global;

/// What stands open.
#[derive(Drop)]
pub enum Frame {
    /// An operator behind its left operand, and how many tokens there are up to the operator.
    Joins(Expr, Op, usize),
    /// `.NOT.`.
    Negates,
    /// A sign at the head of a sum.
    Signs(Op),
    /// A parenthesis.
    Opens,
    /// A parenthesis behind a name, the arguments so far, and how many tokens there are up to the
    /// parenthesis.
    Calls(Name, Seq<Expr>, usize),
}

/// Whether the reader goes on, and the operand that has just ended, if one has.
type Progress = (bool, Option<Expr>);

fn need_of(frame: &Frame) -> u8
    ensures { result ≡ need frame.now }
{
    match frame {
        Frame::Joins(_, op, _) => right_level(*op),
        Frame::Negates => 5,
        Frame::Signs(_) => 7,
        Frame::Opens | Frame::Calls(_, _, _) => 0,
    }
}

fn demand_of(frames: &Vec<Frame>) -> u8
    ensures { result ≡ demand (stack_of frames.now.items) }
{
    match frames.last() {
        Some(frame) => need_of(frame),
        None => 0,
    }
}

fn grade_of(tree: &Expr) -> u8
    ensures { result ≡ grade tree.now }
{
    match &tree.node {
        ExprNode::Number(_) => 9,
        ExprNode::Truth(_) => 9,
        ExprNode::Named(_) => 9,
        ExprNode::Ref(_, _) => 9,
        ExprNode::Paren(_) => 9,
        ExprNode::Signed(_, _) => 6,
        ExprNode::Not(_) => 4,
        ExprNode::Binary(op, _, _) => own_level(*op),
    }
}

fn joined(alloc: Global, left: Expr, op: Op, right: Expr) -> Result<Expr, NoMemory>
    ensures { IfOk result (λ e. e ≡ Binary op left right) }
{
    let node = ExprNode::Binary(op, Box::new(alloc, left)?, Box::new(alloc, right)?);
    Ok(Expr { node })
}

fn negated(alloc: Global, tree: Expr) -> Result<Expr, NoMemory>
    ensures { IfOk result (λ e. e ≡ Not tree) }
{
    let node = ExprNode::Not(Box::new(alloc, tree)?);
    Ok(Expr { node })
}

fn signed(alloc: Global, op: Op, tree: Expr) -> Result<Expr, NoMemory>
    ensures { IfOk result (λ e. e ≡ Signed op tree) }
{
    let node = ExprNode::Signed(op, Box::new(alloc, tree)?);
    Ok(Expr { node })
}

fn close(alloc: Global, frame: Frame, tree: Expr) -> Result<Expr, NoMemory>
    ensures { IfOk result (λ e. e ≡ operation frame tree) }
{
    match frame {
        Frame::Joins(left, op, _) => joined(alloc, left, op, tree),
        Frame::Negates => negated(alloc, tree),
        Frame::Signs(op) => signed(alloc, op, tree),
        Frame::Opens | Frame::Calls(_, _, _) => Ok(tree),
    }
}

/// Closes each operator whose operand ends before an operator of this level.
fn reduce(alloc: Global, level: u8, frames: &mut Vec<Frame>, tree: Expr) -> Result<Expr, NoMemory>
    ensures { IfOk result (λ e. (stack_of frames.new.items, e) ≡ reduction level (stack_of frames.old.items) tree) }
{
    let mut tree = tree;
    while let Some(frame) = frames.pop() {
        if need_of(&frame) <= level {
            frames.push(frame)?;
            return Ok(tree);
        }
        tree = close(alloc, frame, tree)?;
    }
    Ok(tree)
}

/// A sign or `.NOT.` where an operand begins: whether the reader goes on.
fn prefix(frames: &mut Vec<Frame>, op: Op) -> Result<bool, NoMemory>
    ensures { IfOk result (λ r. (r, stack_of frames.new.items, None) ≡ prefix_step op (stack_of frames.old.items)) }
{
    let demand = demand_of(frames);
    match op {
        Op::Not if demand <= 4 => frames.push(Frame::Negates)?,
        Op::Add | Op::Sub if demand <= 6 => frames.push(Frame::Signs(op))?,
        _ => return Ok(false),
    }
    Ok(true)
}

/// A closing parenthesis where an operand begins: it ends an empty list.
fn end_empty(frames: &mut Vec<Frame>) -> Result<Option<Expr>, NoMemory>
    ensures { IfOk result (λ r. (is_some r, stack_of frames.new.items, r) ≡ empty_call (stack_of frames.old.items)) }
{
    match frames.pop() {
        Some(Frame::Calls(name, args, at)) => {
            if args.is_empty() {
                return Ok(Some(Expr {
                    node: ExprNode::Ref(name, args.into_vec()),
                }));
            }
            frames.push(Frame::Calls(name, args, at))?;
            Ok(None)
        }
        Some(frame) => {
            frames.push(frame)?;
            Ok(None)
        }
        None => Ok(None),
    }
}

/// A token where an operand begins.
fn begin(alloc: Global, frames: &mut Vec<Frame>, token: &Token) -> Result<Progress, NoMemory>
    ensures { IfOk result
        (λ r. (r.0, stack_of frames.new.items, r.1) ≡ operand_step token.now (stack_of frames.old.items)) }
{
    let node = match token {
        Token::Named(name) => ExprNode::Named(name.copy(alloc)?),
        Token::Number(n) => ExprNode::Number(*n),
        Token::True => ExprNode::Truth(true),
        Token::False => ExprNode::Truth(false),
        Token::Open => {
            frames.push(Frame::Opens)?;
            return Ok((true, None));
        }
        Token::Close => {
            let tree = end_empty(frames)?;
            return Ok((tree.is_some(), tree));
        }
        Token::Sign(op) => return Ok((prefix(frames, *op)?, None)),
        _ => return Ok((false, None)),
    };
    Ok((true, Some(Expr { node })))
}

/// An opening parenthesis where an operand has just ended: a list behind a name.
fn call(alloc: Global, frames: &mut Vec<Frame>, tree: Expr, at: usize) -> Result<Progress, NoMemory>
    ensures { IfOk result (λ r. (r.0, stack_of frames.new.items, r.1) ≡ call_step tree (stack_of frames.old.items) at) }
{
    let Expr { node } = tree;
    match node {
        ExprNode::Named(name) => {
            frames.push(Frame::Calls(name, Seq::new(alloc), at))?;
            Ok((true, None))
        }
        node => Ok((false, Some(Expr { node }))),
    }
}

/// An operator where an operand has just ended.
fn join(
    alloc: Global,
    frames: &mut Vec<Frame>,
    tree: Expr,
    op: Op,
    at: usize,
) -> Result<Progress, NoMemory>
    ensures { IfOk result (λ r. (r.0, stack_of frames.new.items, r.1)
        ≡ operator_step op (reduction (levels op).own (stack_of frames.old.items) tree) at) }
{
    let tree = reduce(alloc, own_level(op), frames, tree)?;
    if left_level(op) > grade_of(&tree) {
        return Ok((false, Some(tree)));
    }
    frames.push(Frame::Joins(tree, op, at))?;
    Ok((true, None))
}

/// What stands open goes back to its place, and the reader stops behind the operand.
fn put_back(frames: &mut Vec<Frame>, frame: Frame, tree: Expr) -> Result<Progress, NoMemory>
    ensures { IfOk result
        (λ r. (r.0, stack_of frames.new.items, r.1) ≡ halt (frame ∷ stack_of frames.old.items) (Some tree)) }
{
    frames.push(frame)?;
    Ok((false, Some(tree)))
}

fn in_parentheses(alloc: Global, tree: Expr) -> Result<Expr, NoMemory>
    ensures { IfOk result (λ e. e ≡ Paren tree) }
{
    let node = ExprNode::Paren(Box::new(alloc, tree)?);
    Ok(Expr { node })
}

/// A name with its arguments, of which this is the last.
fn called(name: Name, args: Seq<Expr>, last: Expr) -> Result<Expr, NoMemory>
    ensures { IfOk result (λ e. e ≡ Ref name (trees_from (args ++ last ∷ []))) }
{
    let mut args = args;
    args.push(last)?;
    Ok(Expr {
        node: ExprNode::Ref(name, args.into_vec()),
    })
}

/// A closing parenthesis behind the last operand in it.
fn end(alloc: Global, frames: &mut Vec<Frame>, tree: Expr) -> Result<Progress, NoMemory>
    ensures { IfOk result (λ r. (r.0, stack_of frames.new.items, r.1) ≡ close_step (stack_of frames.old.items) tree) }
{
    match frames.pop() {
        Some(Frame::Opens) => Ok((true, Some(in_parentheses(alloc, tree)?))),
        Some(Frame::Calls(name, args, _)) => Ok((true, Some(called(name, args, tree)?))),
        Some(frame) => put_back(frames, frame, tree),
        None => Ok((false, Some(tree))),
    }
}

/// The call stands open with one argument more.
fn with_argument(
    frames: &mut Vec<Frame>,
    name: Name,
    args: Seq<Expr>,
    at: usize,
    tree: Expr,
) -> Result<Progress, NoMemory>
    ensures { IfOk result (λ r. (r.0, stack_of frames.new.items, r.1)
        ≡ comma_step (Frame.Calls name args at ∷ stack_of frames.old.items) tree) }
{
    let mut args = args;
    args.push(tree)?;
    frames.push(Frame::Calls(name, args, at))?;
    Ok((true, None))
}

/// A comma behind an argument.
fn go_on(frames: &mut Vec<Frame>, tree: Expr) -> Result<Progress, NoMemory>
    ensures { IfOk result (λ r. (r.0, stack_of frames.new.items, r.1) ≡ comma_step (stack_of frames.old.items) tree) }
{
    match frames.pop() {
        Some(Frame::Calls(name, args, at)) => with_argument(frames, name, args, at, tree),
        Some(frame) => put_back(frames, frame, tree),
        None => Ok((false, Some(tree))),
    }
}

/// A token where an operand has just ended.
fn follow(
    alloc: Global,
    frames: &mut Vec<Frame>,
    token: &Token,
    tree: Expr,
    at: usize,
) -> Result<Progress, NoMemory>
    ensures { IfOk result (λ r. (r.0, stack_of frames.new.items, r.1)
        ≡ behind_step token.now (stack_of frames.old.items) tree at) }
{
    match token {
        Token::Open => call(alloc, frames, tree, at),
        Token::Close => {
            let tree = reduce(alloc, 0, frames, tree)?;
            end(alloc, frames, tree)
        }
        Token::Comma => {
            let tree = reduce(alloc, 0, frames, tree)?;
            go_on(frames, tree)
        }
        Token::Sign(op) => join(alloc, frames, tree, *op, at),
        _ => Ok((false, Some(tree))),
    }
}

fn step(
    alloc: Global,
    frames: &mut Vec<Frame>,
    token: &Token,
    tree: Option<Expr>,
    at: usize,
) -> Result<Progress, NoMemory>
    ensures { IfOk result (λ r. (r.0, stack_of frames.new.items, r.1)
        ≡ step token.now (stack_of frames.old.items) tree at) }
{
    match tree {
        Some(tree) => follow(alloc, frames, token, tree, at),
        None => begin(alloc, frames, token),
    }
}

/// The whole expression that ends last, where what stands open is round it.
fn enclose(
    alloc: Global,
    frame: Frame,
    found: Option<(Expr, usize)>,
) -> Result<Option<(Expr, usize)>, NoMemory>
    ensures { IfOk result (λ r. r ≡ whole_around frame found) }
{
    match found {
        None => match frame {
            Frame::Joins(left, _, at) => Ok(Some((left, at))),
            Frame::Calls(name, _, at) => Ok(Some((
                Expr {
                    node: ExprNode::Named(name),
                },
                at,
            ))),
            Frame::Negates | Frame::Signs(_) | Frame::Opens => Ok(None),
        },
        Some((tree, n)) => match frame {
            Frame::Opens => Ok(None),
            Frame::Calls(name, _, at) => Ok(Some((
                Expr {
                    node: ExprNode::Named(name),
                },
                at,
            ))),
            frame => Ok(Some((close(alloc, frame, tree)?, n))),
        },
    }
}

/// The last whole expression, and how many tokens there are up to its end.
fn last_whole(
    alloc: Global,
    frames: Vec<Frame>,
    found: Option<(Expr, usize)>,
) -> Result<Option<(Expr, usize)>, NoMemory>
    ensures { IfOk result (λ r. r ≡ last_whole (stack_of frames.items) found) }
{
    let mut frames = frames;
    let mut found = found;
    while let Some(frame) = frames.pop() {
        found = enclose(alloc, frame, found)?;
    }
    Ok(found)
}

/// One pass over the tokens.
pub fn read(alloc: Global, tokens: &[Token]) -> Result<Option<(Expr, usize)>, NoMemory>
    ensures { IfOk result (λ r. r ≡ run tokens.now [] None 0) }
{
    let mut frames = Vec::new(alloc);
    let mut tree = None;
    for (at, token) in tokens.iter().enumerate() {
        let (goes, next) = step(alloc, &mut frames, token, tree, at)?;
        tree = next;
        if !goes {
            return last_whole(alloc, frames, tree.map(|tree| (tree, at)));
        }
    }
    last_whole(alloc, frames, tree.map(|tree| (tree, tokens.len())))
}
