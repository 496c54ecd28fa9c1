//! The reader: one pass over the lines, with the statement whose continuations may still come.

ghost use Rattle.std.specs.Prelude.{◌≡◌, ◌+◌, ◌<◌, ◌≤◌, ◌++◌, length, IfOk, IfErr, IfSome};
ghost use Rattle.fm_base.specs.Verdict.{IsClean, IsRefusal, least};
ghost use Rattle.fm_cards.specs.Lines.{row_at};
ghost use Rattle.fm_cards.specs.Cards.{cards_of};
ghost use Rattle.fm_cards.specs.Broken.{places_of, IsBroken};
ghost use Rattle.fm_cards.specs.Scan.{squeezed_if, inside_after, after_end, after_initial, after_continuation, after_row};

use crate::card::Card;
use crate::judging::{check_continuation, check_front, check_initial};
use crate::label::label;
use crate::line::{columns_of, first_line, is_comment, is_continuation};
use fm_base::{CheckFail, Line, NoMemory, Refusal, Rule, Seq, keep_if};
use std::alloc::Global;

// A statement whose continuations may still come: how many have come, and whether a constant is
// open at its end.
#[derive(Drop)]
struct Started {
    card: Card,
    continuations: usize,
    inside: bool,
}

// The statements that ended, the one that was started, and the least place so far.
#[derive(Drop)]
struct Reader {
    cards: Seq<Card>,
    started: Option<Started>,
    best: Option<Refusal>,
}

// Puts columns behind a text, and says whether a constant is open at the end.
fn squeeze(text: &mut Seq<u8>, columns: &[u8], inside: bool) -> Result<bool, NoMemory>
    ensures text { IfOk result (λ _. text.new ≡ text.old ++ squeezed_if inside columns.now) }
    ensures inside { IfOk result (λ r. r ≡ inside_after inside columns.now) }
{
    let mut inside = inside;
    'bytes: for byte in columns {
        if inside {
            text.push(*byte)?;
        } else if *byte != b' ' {
            text.push(byte.to_ascii_uppercase())?;
        }
        if *byte == b'\'' {
            inside = !inside;
        }
    }
    Ok(inside)
}

// The statement that was started ends.
fn finish(reader: &mut Reader) -> Result<(), NoMemory>
    ensures { IfOk result (λ _. reader.new ≡ after_end reader.old) }
{
    if let Some(started) = reader.started.take() {
        reader.best = keep_if(reader.best, started.inside, started.card.line, Rule::E05);
        reader.cards.push(started.card)?;
    }
    Ok(())
}

// An initial row comes.
fn begin(alloc: Global, reader: &mut Reader, line: Line, row: &[u8]) -> Result<(), NoMemory>
    requires { length row.now ≡ 72 }
    ensures reader { IfOk result (λ _. reader.new ≡ after_initial reader.old (row_at line.0 row.now)) }
    ensures few { IfOk result (λ _. IfSome reader.new.started (λ s. s.continuations ≡ 0)) }
{
    finish(reader)?;
    reader.best = check_initial(reader.best, line, row);
    let (field, _) = row.split_at(5);
    let (_, columns) = row.split_at(6);
    let mut text = Seq::new(alloc);
    let inside = squeeze(&mut text, columns, false)?;
    let card = Card {
        line,
        label: label(field),
        text,
    };
    reader.started = Some(Started {
        card,
        continuations: 0,
        inside,
    });
    Ok(())
}

// A continuation row comes.
fn grow(reader: &mut Reader, line: Line, row: &[u8]) -> Result<(), NoMemory>
    requires length { length row.now ≡ 72 }
    requires few { IfSome reader.old.started (λ s. s.continuations < line.0) }
    ensures few { IfOk result (λ _. IfSome reader.new.started (λ s. s.continuations < line.0 + 1)) }
    ensures reader { IfOk result (λ _. reader.new ≡ after_continuation reader.old (row_at line.0 row.now)) }
{
    match reader.started.take() {
        None => reader.best = check_front(reader.best, line, row),
        Some(mut started) => {
            reader.best = check_continuation(reader.best, line, row, started.continuations);
            let (_, columns) = row.split_at(6);
            started.inside = squeeze(&mut started.card.text, columns, started.inside)?;
            started.continuations += 1;
            reader.started = Some(started);
        }
    }
    Ok(())
}

// A line comes.
fn take(alloc: Global, reader: &mut Reader, line: Line, row: &[u8]) -> Result<(), NoMemory>
    requires length { length row.now ≡ 72 }
    requires few { IfSome reader.old.started (λ s. s.continuations < line.0) }
    ensures reader { IfOk result (λ _. reader.new ≡ after_row reader.old line.0 row.now) }
    ensures few { IfOk result (λ _. IfSome reader.new.started (λ s. s.continuations < line.0 + 1)) }
{
    if is_comment(row) {
        return Ok(());
    }
    if is_continuation(row) {
        grow(reader, line, row)
    } else {
        begin(alloc, reader, line, row)
    }
}

// The whole text read.
fn scan(alloc: Global, source: &[u8]) -> Result<Reader, NoMemory>
    requires { length source.now ≤ 1_000_000 }
    ensures cards { IfOk result (λ r. r.cards ≡ cards_of source.now) }
    ensures best { IfOk result (λ r. r.best ≡ least (places_of source.now)) }
{
    let mut reader = Reader {
        cards: Seq::new(alloc),
        started: None,
        best: None,
    };
    let mut rest = source;
    let mut line = 1u32;
    'lines: while let Some((bytes, behind)) = first_line(rest) {
        let row = columns_of(alloc, bytes)?;
        take(alloc, &mut reader, Line(line), &row)?;
        rest = behind;
        line += 1;
    }
    finish(&mut reader)?;
    Ok(reader)
}

/// The statements of a text of at most 1,000,000 bytes in fixed form (ANSI X3.9-1978, section 3,
/// with the line ends and marks of this profile), in the order of their lines. Refuses with the
/// least rule of E01 to E05 that the text breaks, by line and then by number, or for want of memory.
pub fn cards(alloc: Global, source: &[u8]) -> Result<Vec<Card>, CheckFail>
    requires { length source.now ≤ 1_000_000 }
    ensures cards { IfOk result (λ v. v.items ≡ cards_of source.now) }
    ensures clean { IfOk result (λ _. IsClean (IsBroken source.now)) }
    ensures refused { IfErr result (IsRefusal (IsBroken source.now)) }
{
    let reader = scan(alloc, source)?;
    match reader.best {
        None => Ok(reader.cards.into_vec()),
        Some(place) => Err(CheckFail::Refused(place)),
    }
}
