//! Instructions that add to what their statement builds.

ghost use Rattle.std.specs.Prelude.{◌≡◌, [], ◌∷◌, ◌++◌, map, length, true, false, IfOk, OnOk, MatchOption, Some, None};
ghost use Rattle.std.specs.Prelude.{if◌then◌else◌};
ghost use Rattle.fm_base.specs.declared.output.Printed.TheVariants as printed;
ghost use Rattle.fm_code.specs.declared.ask.Operand.TheVariants as operand;
ghost use Rattle.fm_code.specs.declared.scratch.Place.TheVariants as place;
ghost use Rattle.fm_code.specs.Acts.{On, with_one, with_two, with_words, spanned, at_word, span_of, has_span, numbered, number_in, number_item, truth_item, shown, passed, single, builds};
ghost use Rattle.fm_machine_instr.specs.Told.{progressed};

use crate::cutting::cut;
use crate::work::{Progress, Work};
use fm_base::{NoMemory, Printed, Seq};
use fm_code::{Build, Frame, Operand, Place, Span};
use fm_values::is_truth;
use std::alloc::Global;

/// The words of a span, if the frame has them.
#[inline(always)]
pub(crate) fn span_of(words: &Seq<i64>, span: Span) -> Option<&[i64]>
    ensures { MatchOption result (has_span (length words.now) span ≡ false)
        (λ ws. (has_span (length words.now) span ≡ true) × (ws.now ≡ span_of words.now span)) }
{
    let words = words.as_slice();
    let first = span.first as usize;
    let count = span.count as usize;
    if words.len() < first + count {
        return None;
    }
    let (_, from) = words.split_at(first);
    let (span, _) = from.split_at(count);
    Some(span)
}

/// A word as the number of a word that the frame has. A frame has fewer than 2^32 words.
#[inline(always)]
pub(crate) fn word_number(frame: &Frame, word: i64) -> Result<Option<u32>, NoMemory>
    ensures { IfOk result (λ k. k ≡ numbered frame.now (number_in word)) }
{
    if word < 0 {
        return Ok(None);
    }
    if frame.words.len() <= word as usize {
        return Ok(None);
    }
    let number = u32::try_from(word).map_err(|_| NoMemory)?;
    Ok(Some(number))
}

fn show_text(alloc: Global, work: &mut Work) -> Result<Progress, NoMemory>
    ensures { IfOk result (λ p. progressed p work.new.stack work.new.scratch
        ≡ On work.old.stack (record (shown work.old.scratch (printed.Text work.old.scratch.text ∷ [])) { text = [] })) }
{
    let text = work.scratch.text.take(alloc);
    work.scratch.line.push(Printed::Text(text))?;
    Ok(Progress::On)
}

fn show_number(work: &mut Work) -> Result<Progress, NoMemory>
    ensures { IfOk result (λ p. progressed p work.new.stack work.new.scratch
        ≡ with_one work.old.stack (λ x s. On s (shown work.old.scratch (number_item x ∷ [])))) }
{
    let Some(word) = work.stack.pop() else {
        return Ok(Progress::Stuck);
    };
    work.scratch.line.push(Printed::Number(word))?;
    Ok(Progress::On)
}

fn show_truth(work: &mut Work) -> Result<Progress, NoMemory>
    ensures { IfOk result (λ p. progressed p work.new.stack work.new.scratch
        ≡ with_one work.old.stack (λ x s. On s (shown work.old.scratch (truth_item x ∷ [])))) }
{
    let Some(word) = work.stack.pop() else {
        return Ok(Progress::Stuck);
    };
    work.scratch.line.push(Printed::Truth(is_truth(word)))?;
    Ok(Progress::On)
}

fn push_numbers(line: &mut Seq<Printed>, words: &[i64]) -> Result<(), NoMemory>
    ensures { OnOk result (line.new ≡ line.old ++ map number_item words.now) }
{
    'words: for word in words {
        line.push(Printed::Number(*word))?;
    }
    Ok(())
}

fn push_truths(line: &mut Seq<Printed>, words: &[i64]) -> Result<(), NoMemory>
    ensures { OnOk result (line.new ≡ line.old ++ map truth_item words.now) }
{
    'words: for word in words {
        line.push(Printed::Truth(is_truth(*word)))?;
    }
    Ok(())
}

fn show_numbers(work: &mut Work, span: Span, frame: &Frame) -> Result<Progress, NoMemory>
    ensures { IfOk result (λ p. progressed p work.new.stack work.new.scratch
        ≡ spanned frame.now span (λ ws. On work.old.stack (shown work.old.scratch (map number_item ws)))) }
{
    let Some(words) = span_of(&frame.words, span) else {
        return Ok(Progress::Stuck);
    };
    push_numbers(&mut work.scratch.line, words)?;
    Ok(Progress::On)
}

fn show_truths(work: &mut Work, span: Span, frame: &Frame) -> Result<Progress, NoMemory>
    ensures { IfOk result (λ p. progressed p work.new.stack work.new.scratch
        ≡ spanned frame.now span (λ ws. On work.old.stack (shown work.old.scratch (map truth_item ws)))) }
{
    let Some(words) = span_of(&frame.words, span) else {
        return Ok(Progress::Stuck);
    };
    push_truths(&mut work.scratch.line, words)?;
    Ok(Progress::On)
}

#[inline(always)]
fn pass(work: &mut Work, operand: Operand) -> Result<Progress, NoMemory>
    ensures { IfOk result
        (λ p. progressed p work.new.stack work.new.scratch ≡ On work.old.stack (passed work.old.scratch operand)) }
{
    work.scratch.operands.push(operand)?;
    Ok(Progress::On)
}

#[inline(always)]
fn pass_value(work: &mut Work) -> Result<Progress, NoMemory>
    ensures { IfOk result (λ p. progressed p work.new.stack work.new.scratch
        ≡ with_one work.old.stack (λ x s. On s (passed work.old.scratch (operand.Value x)))) }
{
    let Some(word) = work.stack.pop() else {
        return Ok(Progress::Stuck);
    };
    pass(work, Operand::Value(word))
}

#[inline(always)]
fn pass_span(work: &mut Work, span: Span, port: bool, frame: &Frame) -> Result<Progress, NoMemory>
    ensures { IfOk result (λ p. progressed p work.new.stack work.new.scratch
        ≡ spanned frame.now span
        (λ ws. On work.old.stack (passed work.old.scratch (if port then operand.Ports span else operand.Words span)))) }
{
    if span_of(&frame.words, span).is_none() {
        return Ok(Progress::Stuck);
    }
    if port {
        pass(work, Operand::Ports(span))
    } else {
        pass(work, Operand::Words(span))
    }
}

fn pass_at(work: &mut Work, port: bool, frame: &Frame) -> Result<Progress, NoMemory>
    ensures { IfOk result (λ p. progressed p work.new.stack work.new.scratch
        ≡ with_one work.old.stack (λ x s. at_word frame.now x
        (λ k. On s (passed work.old.scratch (if port then operand.Ports (single k) else operand.Words (single k)))))) }
{
    let Some(word) = work.stack.pop() else {
        return Ok(Progress::Stuck);
    };
    let Some(first) = word_number(frame, word)? else {
        return Ok(Progress::Stuck);
    };
    let span = Span { first, count: 1 };
    if port {
        pass(work, Operand::Ports(span))
    } else {
        pass(work, Operand::Words(span))
    }
}

fn status(work: &mut Work, frame: &Frame) -> Result<Progress, NoMemory>
    ensures { IfOk result (λ p. progressed p work.new.stack work.new.scratch
        ≡ with_one work.old.stack
        (λ x s. at_word frame.now x (λ k. On s (record work.old.scratch { status = Some k })))) }
{
    let Some(word) = work.stack.pop() else {
        return Ok(Progress::Stuck);
    };
    let Some(number) = word_number(frame, word)? else {
        return Ok(Progress::Stuck);
    };
    work.scratch.status = Some(number);
    Ok(Progress::On)
}

fn location(alloc: Global, work: &mut Work, count: u32) -> Result<Progress, NoMemory>
    ensures { IfOk result (λ p. progressed p work.new.stack work.new.scratch
        ≡ with_words count work.old.stack (λ xs s. On s (record work.old.scratch { place = place.Location xs }))) }
{
    let count = count as usize;
    let subscripts = match work.stack.top(count) {
        Some(words) => Seq::from_slice(alloc, words)?,
        None => return Ok(Progress::Stuck),
    };
    work.stack.drop_top(count);
    work.scratch.place = Place::Location(subscripts);
    Ok(Progress::On)
}

fn submachine(work: &mut Work) -> Result<Progress, NoMemory>
    ensures { IfOk result (λ p. progressed p work.new.stack work.new.scratch
        ≡ with_two work.old.stack
        (λ low high s. On s (record work.old.scratch { place = place.Submachine low high }))) }
{
    let Some(high) = work.stack.pop() else {
        return Ok(Progress::Stuck);
    };
    let Some(low) = work.stack.pop() else {
        return Ok(Progress::Stuck);
    };
    work.scratch.place = Place::Submachine(low, high);
    Ok(Progress::On)
}

/// Does an instruction that builds.
#[inline(always)]
pub(crate) fn build(
    alloc: Global,
    instr: Build,
    work: &mut Work,
    frame: &Frame,
) -> Result<Progress, NoMemory>
    ensures { IfOk result
        (λ p. progressed p work.new.stack work.new.scratch ≡ builds instr work.old.stack work.old.scratch frame.now) }
{
    match instr {
        Build::Letter(byte) => {
            work.scratch.text.push(byte)?;
            Ok(Progress::On)
        }
        Build::ShowText => show_text(alloc, work),
        Build::Show => show_number(work),
        Build::ShowTruth => show_truth(work),
        Build::ShowWords(span) => show_numbers(work, span, frame),
        Build::ShowTruths(span) => show_truths(work, span, frame),
        Build::PassValue => pass_value(work),
        Build::PassWords(span) => pass_span(work, span, false, frame),
        Build::PassPorts(span) => pass_span(work, span, true, frame),
        Build::PassWordAt => pass_at(work, false, frame),
        Build::PassPortAt => pass_at(work, true, frame),
        Build::Status => status(work, frame),
        Build::Loop(counts) => {
            work.scratch.counts = Some(counts);
            Ok(Progress::On)
        }
        Build::Location(count) => location(alloc, work, count),
        Build::Submachine => submachine(work),
        Build::Cut(item, size) => cut(work, item, size, frame),
    }
}
