//! Types of ports: the fields of a message, some of which are ports themselves.

ghost use Rattle.std.specs.Prelude.{◌≡◌, ◌++◌, ◌∷◌, [], length, MatchOption, None, Some};
ghost use Rattle.fm_tree.specs.PortReading.{fields_of};
ghost use Rattle.fm_stmt_parts.specs.Gives.{Gives};
ghost use Rattle.fm_stmt_parts.specs.Reading.{listed_read, over_read, some_read, optional_read, name_at, starts, after_items, more_read};
ghost use Rattle.fm_stmt_parts.specs.Fields.{behind_text, bounds_read, field_read, fields_read, head_read, is_named, name_behind, port_read, port_type_part, scalar_head};

use crate::list::bracketed;
use crate::mark::{Mark, Word, is_comma};
use crate::parts::BoundForm;
use crate::reader::{a_mark, a_name, ended_by, front, goes_on};
use fm_base::{Name, ParseFail, Seq, Token, is_name_text};
use fm_tree::{Bound, Field, Kind, PortType};
use std::alloc::Global;

// The name behind a keyword in one word with it, if something stands there.
fn name_behind(alloc: Global, text: &[u8]) -> Result<Option<Name>, ParseFail>
    ensures { Gives (λ n. n) result (name_behind text.now) }
{
    match text.split_first() {
        None => Ok(None),
        Some(_) if is_name_text(text) => Ok(Some(Name::from_bytes(alloc, text)?)),
        Some(_) => Err(ParseFail::Bad),
    }
}

fn behind_text<'a>(keyword: &[u8], text: &'a [u8]) -> Option<&'a [u8]>
    ensures { MatchOption result (behind_text keyword.now text.now ≡ None)
        (λ rest. behind_text keyword.now text.now ≡ Some rest.now) }
{
    text.strip_prefix(keyword)
}

// INTEGER or LOGICAL, and the name in one word with it.
fn a_scalar(alloc: Global, word: &[u8]) -> Result<(Kind, Option<Name>), ParseFail>
    ensures { Gives (λ h. h) result (scalar_head word.now) }
{
    match behind_text(Word::Integer.text(), word) {
        Some(rest) => Ok((Kind::Integer, name_behind(alloc, rest)?)),
        None => match behind_text(Word::Logical.text(), word) {
            Some(rest) => Ok((Kind::Logical, name_behind(alloc, rest)?)),
            None => Err(ParseFail::Bad),
        },
    }
}

fn starts_with_name(tokens: &[Token]) -> bool
    ensures { result ≡ starts is_named tokens.now }
{
    match tokens.split_first() {
        Some((Token::Named(_), _)) => true,
        _ => false,
    }
}

fn optional_name(alloc: Global, tokens: &[Token]) -> Result<(Option<Name>, &[Token]), ParseFail>
    ensures { Gives (λ p. (p.0, p.1.now)) result (optional_read is_named name_at tokens.now) }
{
    if !starts_with_name(tokens) {
        return Ok((None, tokens));
    }
    let (name, rest) = a_name(alloc, tokens)?;
    Ok((Some(name), rest))
}

// The bounds behind a name. None behind none.
fn bounds<'a>(
    alloc: Global,
    name: &Option<Name>,
    tokens: &'a [Token],
) -> Result<(Seq<Bound>, &'a [Token]), ParseFail>
    ensures { Gives (λ p. (p.0, p.1.now)) result (bounds_read name.now tokens.now) }
{
    match name {
        None => Ok((Seq::new(alloc), tokens)),
        Some(_) => bracketed::<BoundForm>(alloc, tokens),
    }
}

// What stands in the parentheses of a port, and its name.
#[cycle(fields)]
fn a_port_head(
    alloc: Global,
    depth: usize,
    tokens: &[Token],
) -> Result<((PortType, Option<Name>), &[Token]), ParseFail>
    ensures { Gives (λ p. (p.0, p.1.now)) result (port_read (fields_read depth) tokens.now) }
{
    let rest = a_mark(Mark::Open, tokens)?;
    let (inside, rest) = fields(alloc, depth, rest)?;
    let (inside, rest) = ended_by(inside, Mark::Close, rest)?;
    let (name, rest) = optional_name(alloc, rest)?;
    Ok(((inside, name), rest))
}

// The kind and the name of a field.
#[cycle(fields)]
fn a_head(
    alloc: Global,
    depth: usize,
    tokens: &[Token],
) -> Result<((Kind, Option<Name>), &[Token]), ParseFail>
    ensures { Gives (λ p. (p.0, p.1.now)) result (head_read (fields_read depth) tokens.now) }
{
    let Some((Token::Named(word), rest)) = tokens.split_first() else {
        return Err(ParseFail::Bad);
    };
    if word.as_bytes() == Word::Inport.text() {
        let ((inside, name), rest) = a_port_head(alloc, depth, rest)?;
        Ok(((Kind::In(inside), name), rest))
    } else if word.as_bytes() == Word::Outport.text() {
        let ((inside, name), rest) = a_port_head(alloc, depth, rest)?;
        Ok(((Kind::Out(inside), name), rest))
    } else {
        let head = a_scalar(alloc, word.as_bytes())?;
        Ok((head, rest))
    }
}

#[cycle(fields)]
fn a_field(alloc: Global, depth: usize, tokens: &[Token]) -> Result<(Field, &[Token]), ParseFail>
    ensures { Gives (λ p. (p.0, p.1.now)) result (field_read (fields_read depth) tokens.now) }
{
    let ((kind, name), rest) = a_head(alloc, depth, tokens)?;
    let (bounds, rest) = bounds(alloc, &name, rest)?;
    Ok((Field { kind, name, bounds }, rest))
}

// Fields, each behind a comma, put behind the fields that there are.
#[cycle(fields)]
fn grow(
    alloc: Global,
    depth: usize,
    mut fields: Vec<Field>,
    tokens: &[Token],
) -> Result<(Vec<Field>, &[Token]), ParseFail>
    ensures { Gives (λ p. (p.0.items, p.1.now)) result
        (after_items fields.items (more_read (field_read (fields_read depth)) tokens.now)) }
{
    let mut rest = tokens;
    'fields: for _ in 0..tokens.len() {
        let Some((token, behind)) = front(rest) else {
            return Ok((fields, rest));
        };
        if !is_comma(token) {
            return Ok((fields, rest));
        }
        let (field, behind) = match a_field(alloc, depth, behind) {
            Ok(found) => found,
            Err(e) => return Err(e),
        };
        fields.push(field)?;
        rest = behind;
    }
    Ok((fields, rest))
}

// One field or more.
#[cycle(fields)]
fn some_fields(
    alloc: Global,
    depth: usize,
    tokens: &[Token],
) -> Result<(Vec<Field>, &[Token]), ParseFail>
    ensures { Gives (λ p. (p.0.items, p.1.now)) result (some_read (field_read (fields_read depth)) tokens.now) }
{
    let (first, rest) = a_field(alloc, depth, tokens)?;
    let mut fields = Vec::new(alloc);
    fields.push(first)?;
    grow(alloc, depth, fields, rest)
}

// Fields, perhaps none.
#[cycle(fields)]
fn listed_fields(
    alloc: Global,
    depth: usize,
    tokens: &[Token],
) -> Result<(PortType, &[Token]), ParseFail>
    ensures { Gives (λ p. (p.0, p.1.now)) result
        (over_read fields_of (listed_read (field_read (fields_read depth))) tokens.now) }
{
    if goes_on(tokens) {
        let (fields, rest) = some_fields(alloc, depth, tokens)?;
        Ok((PortType::new(alloc, fields)?, rest))
    } else {
        let fields = Vec::new(alloc);
        Ok((PortType::new(alloc, fields)?, tokens))
    }
}

// The fields of a message, of ports in ports up to a depth.
#[cycle(fields)]
fn fields(alloc: Global, depth: usize, tokens: &[Token]) -> Result<(PortType, &[Token]), ParseFail>
    ensures { Gives (λ p. (p.0, p.1.now)) result (fields_read depth tokens.now) }
{
    if depth == 0 {
        return Err(ParseFail::Bad);
    }
    listed_fields(alloc, depth - 1, tokens)
}

/// `( [list(field)] )`.
pub fn a_port_type(alloc: Global, tokens: &[Token]) -> Result<(PortType, &[Token]), ParseFail>
    ensures { Gives (λ p. (p.0, p.1.now)) result (port_type_part.read tokens.now) }
{
    let depth = tokens.len();
    let rest = a_mark(Mark::Open, tokens)?;
    let (inside, rest) = fields(alloc, depth, rest)?;
    ended_by(inside, Mark::Close, rest)
}
