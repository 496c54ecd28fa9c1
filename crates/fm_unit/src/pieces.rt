//! What the units' parts are made of: the statements before the body, and the statements of its entries.

ghost use Rattle.std.specs.Prelude.{◌≡◌, ◌++◌, ◌||◌, [], ◌∷◌, if◌then◌else◌, reverse, option_to_list, OnOk, IfOk};
ghost use Rattle.fm_tree.specs.Structure.{form_of, is_executable};
ghost use Rattle.fm_tree.specs.Units.{before_body};
ghost use Rattle.fm_unit.specs.Pieces.{body_in, made, piece, pieces_in, pieces_left, pieces_of};

use crate::owned::{push, push_both};
use fm_base::NoMemory;
use fm_tree::{Form, Placed, Simple, Stmt, form_of, is_executable};
use std::alloc::Global;

/// The statements of a statement's own entries.
#[tactic(auto, unfolding(crate::specs::Pieces::pieces_of))]
fn split(stmt: Stmt) -> (Option<Stmt>, Option<Stmt>)
    ensures { option_to_list result.0 ++ option_to_list result.1 ≡ pieces_of stmt }
{
    match stmt {
        Stmt::LogicalIf(condition, contained) => (
            Some(Stmt::LogicalIf(condition, Simple::Continue)),
            Some(Stmt::Simple(contained)),
        ),
        Stmt::LoopEnd => (None, None),
        other => (Some(other), None),
    }
}

fn add_pieces(stmt: Stmt, pieces: &mut Vec<Stmt>) -> Result<(), NoMemory>
    ensures { OnOk result (pieces.new.items ≡ pieces.old.items ++ pieces_of stmt) }
{
    push_both(split(stmt), pieces)
}

/// Whether the body has begun with this statement or before it.
fn is_begun(before: bool, placed: &Placed) -> bool
    ensures { result ≡ (before || is_executable (form_of placed.now.stmt)) }
{
    before || is_executable(form_of(&placed.stmt))
}

/// Adds a statement to what stands before the body, or its pieces to those of the body.
fn add_part(
    placed: Placed,
    in_body: bool,
    front: &mut Vec<Placed>,
    pieces: &mut Vec<Stmt>,
) -> Result<(), NoMemory>
    ensures front { OnOk result
        (front.new.items ≡ (if in_body then front.old.items else front.old.items ++ placed ∷ [])) }
    ensures pieces { OnOk result
        (pieces.new.items ≡ (if in_body then pieces.old.items ++ pieces_of placed.stmt else pieces.old.items)) }
{
    if in_body {
        add_pieces(placed.into_stmt(), pieces)
    } else {
        push(front, placed)
    }
}

/// The statements before the first executable one, and the pieces of the others.
pub(crate) fn parts(
    alloc: Global,
    statements: Vec<Placed>,
) -> Result<(Vec<Placed>, Vec<Stmt>), NoMemory>
    ensures front { IfOk result (λ r. r.0.items ≡ before_body statements.items) }
    ensures pieces { IfOk result (λ r. r.1.items ≡ pieces_in (body_in statements.items)) }
{
    let mut front = Vec::new(alloc);
    let mut pieces = Vec::new(alloc);
    let mut in_body = false;
    'statements: for placed in statements {
        in_body = is_begun(in_body, &placed);
        add_part(placed, in_body, &mut front, &mut pieces)?;
    }
    Ok((front, pieces))
}

/// The statement of an entry that is no statement of the source.
#[tactic(auto, unfolding(crate::specs::Pieces::made))]
fn made(form: Form) -> Option<Stmt>
    ensures { result ≡ made form }
{
    match form {
        Form::Wrap => Some(Stmt::Processes),
        Form::EndWrap => Some(Stmt::EndProcesses),
        Form::LoopEnd(_) => Some(Stmt::LoopEnd),
        _ => None,
    }
}

/// The statement of the next entry, which has this form. The next piece stands last.
pub(crate) fn next_piece(form: Form, pieces: &mut Vec<Stmt>) -> Stmt
    ensures piece { result ≡ piece (made form) (reverse pieces.old.items) }
    ensures left { reverse pieces.new.items ≡ pieces_left (made form) (reverse pieces.old.items) }
{
    match made(form) {
        Some(stmt) => stmt,
        None => match pieces.pop() {
            Some(stmt) => stmt,
            None => Stmt::LoopEnd,
        },
    }
}
