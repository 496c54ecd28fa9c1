//! Lines, and what single lines say.

ghost use Rattle.std.specs.Prelude.{◌≡◌, ◌≤◌, option_map, IfOk, IfSome};
ghost use Rattle.std.specs.Option.{option_copied};
ghost use Rattle.std.specs.Str.{bytes_eq};
ghost use Rattle.fm_trace.specs.Reading.{Gives, behind, cut_at, entry_behind, entry_of, fixed_at, form_of, line_by, may_stand, none_before, number_at, number_behind, steps_of, with_entry};
ghost use Rattle.fm_trace.specs.Texts.{count_word, may_follow, same_turn};

use crate::fail::TraceFail;
use crate::numerals::number_in;
use crate::trace::{Form, Run};
use fm_base::{Line, Turn};

/// The greatest number of 32 bits.
const MOST: u64 = 4_294_967_295;

/// The most entries.
pub(crate) const MOST_ENTRIES: u32 = 1_000_000_001;

/// What stands before an entry: the form, the entry before it, and how many entries may still come.
#[derive(Clone, Copy)]
pub(crate) struct Before {
    form: Form,
    turn: Option<Turn>,
    room: u32,
}

/// The front up to the first of these bytes, and what is behind it.
fn cut_at(bytes: &[u8], byte: u8) -> Option<(&[u8], &[u8])>
    ensures { option_map (λ p. (p.0.now, p.1.now)) result ≡ cut_at byte bytes.now }
{
    'places: for place in 0..bytes.len() {
        if bytes[place] == byte {
            return Some((&bytes[..place], &bytes[place + 1..]));
        }
    }
    None
}

/// The answer where a line is malformed.
fn malformed(line: u32) -> TraceFail
    ensures { result ≡ TraceFail.Malformed (record { 0 = line }) }
{
    TraceFail::Malformed(Line(line))
}

/// Whether these are the same bytes.
fn same(a: &[u8], b: &[u8]) -> bool
    ensures { result ≡ bytes_eq a.now b.now }
{
    a == b
}

/// What stands behind a front.
fn behind<'a>(front: &[u8], text: &'a [u8]) -> Option<&'a [u8]>
    ensures { option_copied result ≡ behind front.now text.now }
{
    if text.len() < front.len() {
        return None;
    }
    let (first, rest) = text.split_at(front.len());
    if same(first, front) { Some(rest) } else { None }
}

/// The number behind a word.
fn number_behind(word: &[u8], low: u64, high: u64, text: &[u8]) -> Option<u64>
    ensures number { result ≡ number_behind word.now low high text.now }
    ensures within { IfSome result (λ n. n ≤ high) }
{
    match behind(word, text) {
        Some(number) => number_in(number, low, high),
        None => None,
    }
}

/// The steps of an entry, and its times where they stand behind them.
fn steps_of(text: &[u8]) -> Option<(u64, u64)>
    ensures parts { result ≡ steps_of text.now (cut_at 32 text.now) }
    ensures few_steps { IfSome result (λ r. r.0 ≤ 4294967295) }
    ensures few_times { IfSome result (λ r. r.1 ≤ 1000000001) }
{
    match cut_at(text, b' ') {
        Some((steps, times)) => {
            let steps = number_in(steps, 1, MOST)?;
            let times = number_in(times, 2, u64::from(MOST_ENTRIES))?;
            Some((steps, times))
        }
        None => {
            let steps = number_in(text, 1, MOST)?;
            Some((steps, 1))
        }
    }
}

/// The entry that a line tells.
fn entry_of(text: &[u8]) -> Option<Run>
    ensures { result ≡ entry_of text.now }
{
    let Some((number, rest)) = cut_at(text, b' ') else {
        return None;
    };
    let number = number_in(number, 0, MOST)?;
    let (steps, times) = steps_of(rest)?;
    Some(Run {
        turn: Turn {
            number: number as u32,
            steps: steps as u32,
        },
        times: times as u32,
    })
}

/// Whether two entries are the same.
pub(crate) fn same_turn(a: Turn, b: Turn) -> bool
    ensures { result ≡ same_turn a b }
{
    a.number == b.number && a.steps == b.steps
}

/// Whether the form has a line for an entry behind the one before it.
fn may_follow(form: Form, before: Option<Turn>, entry: Run) -> bool
    ensures { result ≡ may_follow form before entry }
{
    match form {
        Form::One => entry.times == 1,
        Form::Two => match before {
            None => true,
            Some(turn) => !same_turn(turn, entry.turn),
        },
    }
}

fn may_stand(before: Before, entry: Run) -> bool
    ensures { result ≡ may_stand before entry }
{
    entry.times <= before.room && may_follow(before.form, before.turn, entry)
}

/// The entry that a line tells, if it may stand there.
fn entry_behind(before: Before, text: &[u8]) -> Option<Run>
    ensures entry { result ≡ entry_behind before text.now }
    ensures within { IfSome result (λ r. r.times ≤ before.room) }
{
    let entry = entry_of(text)?;
    if may_stand(before, entry) {
        Some(entry)
    } else {
        None
    }
}

/// Before the first entry.
pub(crate) fn none_before(form: Form) -> Before
    ensures { result ≡ none_before form }
{
    Before {
        form,
        turn: None,
        room: MOST_ENTRIES,
    }
}

/// Behind one entry more.
pub(crate) fn with_entry(before: Before, entry: Run) -> Before
    requires { entry.times ≤ before.room }
    ensures { result ≡ with_entry before entry }
{
    Before {
        form: before.form,
        turn: Some(entry.turn),
        room: before.room - entry.times,
    }
}

/// The form that a first line names.
fn form_of(text: &[u8]) -> Option<Form>
    ensures { result ≡ form_of text.now }
{
    if same(text, b"fmc trace 1") {
        return Some(Form::One);
    }
    if same(text, b"fmc trace 2") {
        Some(Form::Two)
    } else {
        None
    }
}

/// The word before the count of a form.
pub(crate) fn count_word(form: Form) -> &'static [u8]
    ensures { result.now ≡ count_word form }
{
    match form {
        Form::One => b"entries ",
        Form::Two => b"lines ",
    }
}

/// The first line: the form, and what is behind it.
pub(crate) fn form_at(bytes: &[u8]) -> Result<(Form, &[u8]), TraceFail>
    ensures { Gives (λ x. (x.0, x.1.now)) result (line_by form_of 1 bytes.now) }
{
    match cut_at(bytes, b'\n') {
        Some((text, rest)) => match form_of(text) {
            Some(form) => Ok((form, rest)),
            None => Err(malformed(1)),
        },
        None => Err(malformed(1)),
    }
}

/// A line of this text: what is behind it.
pub(crate) fn fixed_at<'a>(text: &[u8], line: u32, bytes: &'a [u8]) -> Result<&'a [u8], TraceFail>
    ensures { Gives (λ r. (text.now, r.now)) result (fixed_at text.now line bytes.now) }
{
    match cut_at(bytes, b'\n') {
        Some((first, rest)) => {
            if same(first, text) {
                Ok(rest)
            } else {
                Err(malformed(line))
            }
        }
        None => Err(malformed(line)),
    }
}

/// A line of a word and a number: the number, and what is behind the line.
pub(crate) fn number_at<'a>(
    word: &[u8],
    low: u64,
    high: u64,
    line: u32,
    bytes: &'a [u8],
) -> Result<(u64, &'a [u8]), TraceFail>
    ensures number { Gives (λ x. (x.0, x.1.now)) result (number_at word.now low high line bytes.now) }
    ensures within { IfOk result (λ x. x.0 ≤ high) }
{
    match cut_at(bytes, b'\n') {
        Some((text, rest)) => match number_behind(word, low, high, text) {
            Some(number) => Ok((number, rest)),
            None => Err(malformed(line)),
        },
        None => Err(malformed(line)),
    }
}

/// A line of an entry behind others: the entry, and what is behind the line.
pub(crate) fn entry_at(before: Before, line: u32, bytes: &[u8]) -> Result<(Run, &[u8]), TraceFail>
    ensures entry { Gives (λ x. (x.0, x.1.now)) result (line_by (entry_behind before) line bytes.now) }
    ensures within { IfOk result (λ x. x.0.times ≤ before.room) }
{
    match cut_at(bytes, b'\n') {
        Some((text, rest)) => match entry_behind(before, text) {
            Some(entry) => Ok((entry, rest)),
            None => Err(malformed(line)),
        },
        None => Err(malformed(line)),
    }
}
