//! The tokens of bounds and of types of ports.

ghost use Rattle.std.specs.Prelude.{◌≡◌, [], ◌∷◌, ◌++◌, OnOk};
ghost use Rattle.fm_tree.specs.Forms.{bracketed};
ghost use Rattle.fm_tree.specs.PortReading.{kind_of};
ghost use Rattle.fm_tree.specs.Parts.{bound_form, name_tokens, kind_spelled, fields_spelled, port_type_form};

use crate::expression::push_expr;
use crate::list::{Spelled, push_bracketed};
use crate::word::{push_joined, push_optional_name, push_token, push_word};
use fm_base::{Name, NoMemory, Token};
use fm_tree::{Bound, Field, Kind, PortType};
use std::alloc::Global;

/// `expr [: expr]`.
pub struct BoundForm;

impl Spelled<Bound> for BoundForm {
    ghost form = { bound_form };

    fn push(alloc: Global, part: &Bound, out: &mut Vec<Token>) -> Result<(), NoMemory> {
        if let Some(low) = &part.low {
            push_expr(alloc, low, out)?;
            push_token(Token::Colon, out)?;
        }
        push_expr(alloc, &part.high, out)
    }
}

/// `( [list(field)] )`.
pub fn push_port_type(
    alloc: Global,
    port_type: &PortType,
    out: &mut Vec<Token>,
) -> Result<(), NoMemory>
    ensures { OnOk result (out.new.items ≡ out.old.items ++ port_type_form.spelled port_type.now) }
{
    push_token(Token::Open, out)?;
    push_fields(alloc, port_type, out)?;
    push_token(Token::Close, out)
}

#[cycle(fields)]
fn push_fields(alloc: Global, port_type: &PortType, out: &mut Vec<Token>) -> Result<(), NoMemory>
    ensures { OnOk result (out.new.items ≡ out.old.items ++ fields_spelled port_type.now) }
{
    let Some((first, rest)) = port_type.as_slice().split_first() else {
        return Ok(());
    };
    push_field(alloc, first, out)?;
    for field in rest {
        push_token(Token::Comma, out)?;
        push_field(alloc, field, out)?;
    }
    Ok(())
}

#[cycle(fields)]
fn push_field(alloc: Global, field: &Field, out: &mut Vec<Token>) -> Result<(), NoMemory>
    ensures { OnOk result (out.new.items
        ≡ out.old.items
        ++ (kind_spelled (kind_of field.now.kind) field.now.name ++ (bracketed bound_form).spelled field.now.bounds)) }
{
    push_kind(alloc, &field.kind, &field.name, out)?;
    push_bracketed::<Bound, BoundForm>(alloc, field.bounds.as_slice(), out)
}

// `word (`
fn push_opened(alloc: Global, word: &[u8], out: &mut Vec<Token>) -> Result<(), NoMemory>
    ensures { OnOk result (out.new.items ≡ out.old.items ++ Token.Named word.now ∷ Token.Open ∷ []) }
{
    push_word(alloc, word, out)?;
    push_token(Token::Open, out)
}

// `) [name]`
fn push_closed(alloc: Global, name: &Option<Name>, out: &mut Vec<Token>) -> Result<(), NoMemory>
    ensures { OnOk result (out.new.items ≡ out.old.items ++ Token.Close ∷ name_tokens name.now) }
{
    push_token(Token::Close, out)?;
    push_optional_name(alloc, name, out)
}

#[cycle(fields)]
fn push_kind(
    alloc: Global,
    kind: &Kind,
    name: &Option<Name>,
    out: &mut Vec<Token>,
) -> Result<(), NoMemory>
    ensures { OnOk result (out.new.items ≡ out.old.items ++ kind_spelled (kind_of kind.now) name.now) }
{
    match kind {
        Kind::Integer => push_joined(alloc, b"INTEGER", name, out),
        Kind::Logical => push_joined(alloc, b"LOGICAL", name, out),
        Kind::In(fields) => {
            push_opened(alloc, b"INPORT", out)?;
            push_fields(alloc, fields, out)?;
            push_closed(alloc, name, out)
        }
        Kind::Out(fields) => {
            push_opened(alloc, b"OUTPORT", out)?;
            push_fields(alloc, fields, out)?;
            push_closed(alloc, name, out)
        }
    }
}
