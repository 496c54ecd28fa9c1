//! Writing a trace.

ghost use Rattle.std.specs.Prelude.{◌≡◌, ◌≤◌, ◌<◌, ◌++◌, ◌∷◌, [], None, codes, length, OnOk, IfOk, IfSome};
ghost use Rattle.std.specs.List.{flat_map};
ghost use Rattle.std.specs.String.{string_bytes};
ghost use Rattle.fm_trace.specs.Texts.{IsTraceText, IsTraceable, ended, runs_of, trace_of_history, trace_text};
ghost use Rattle.fm_trace.specs.Writing.{AreSmall, IsFront, IsSmall, entry_line, head_text};

use crate::lines::same_turn;
use fm_base::{NoMemory, Turn};
use std::alloc::Global;

/// How many entries at the front are this one.
fn front_of(turn: Turn, history: &[Turn]) -> usize
    ensures { IsFront turn result history.now }
{
    'places: for place in 0..history.len() {
        if !same_turn(turn, history[place]) {
            return place;
        }
    }
    history.len()
}

/// The first entry, how often it comes in succession, and what is behind it.
fn first_run(history: &[Turn]) -> Option<(Turn, usize, &[Turn])>
    ensures run { IfSome result (λ r. runs_of history.now ≡ record { turn = r.0; times = r.1 } ∷ runs_of r.2.now) }
    ensures less { IfSome result (λ r. length r.2.now < length history.now) }
    ensures none { result ≡ None → history.now ≡ [] }
{
    if history.is_empty() {
        return None;
    }
    let turn = history[0];
    let times = front_of(turn, history);
    let (_front, rest) = history.split_at(times);
    Some((turn, times, rest))
}

/// How many lines a history has.
fn count_runs(history: &[Turn]) -> usize
    ensures { result ≡ length (runs_of history.now) }
{
    let mut count = 0;
    let mut rest = history;
    'runs: while let Some((_turn, _times, after)) = first_run(rest) {
        count += 1;
        rest = after;
    }
    count
}

/// The lines before the entries.
fn push_head(out: &mut String, turns: u64, count: usize) -> Result<(), NoMemory>
    ensures { OnOk result (string_bytes out.new ≡ string_bytes out.old ++ head_text turns count) }
{
    writeln!(out, "fmc trace 2\nturns {turns}\nlines {count}")?;
    Ok(())
}

/// The line before the program.
fn push_end(out: &mut String) -> Result<(), NoMemory>
    ensures { OnOk result (string_bytes out.new ≡ string_bytes out.old ++ ended (codes "source")) }
{
    writeln!(out, "source")?;
    Ok(())
}

/// The line of an entry that comes so many times.
fn push_run(out: &mut String, turn: Turn, times: usize) -> Result<(), NoMemory>
    ensures text { OnOk result
        (string_bytes out.new ≡ string_bytes out.old ++ entry_line (record { turn = turn; times = times })) }
    ensures small { IsSmall turn }
{
    let Turn { number, steps } = turn;
    if times == 1 {
        writeln!(out, "{number} {steps}")?;
    } else {
        writeln!(out, "{number} {steps} {times}")?;
    }
    Ok(())
}

/// The lines of a history.
fn push_runs(out: &mut String, history: &[Turn]) -> Result<(), NoMemory>
    ensures text { OnOk result
        (string_bytes out.new ≡ string_bytes out.old ++ flat_map entry_line (runs_of history.now)) }
    ensures small { OnOk result (AreSmall (runs_of history.now)) }
{
    let mut rest = history;
    'runs: while let Some((turn, times, after)) = first_run(rest) {
        push_run(out, turn, times)?;
        rest = after;
    }
    Ok(())
}

/// The text, in form 2, of a history with the turns that bounded it and its program. `read` reads it again where the
/// turns are 1 to 1,000,000,000 and the entries at most 1,000,000,001, each of a step or more. Linear in both.
///
/// # Errors
/// `NoMemory` is want of memory.
pub fn write(
    alloc: Global,
    history: &[Turn],
    turns: u64,
    source: &[u8],
) -> Result<Vec<u8>, NoMemory>
    // It is the text of the history's trace.
    ensures text { IfOk result (λ v. v.items ≡ trace_text (trace_of_history turns history.now source.now)) }
    // Where the history is within the ranges, that is what `read` asks for.
    ensures readable { IsTraceable turns history.now →
        IfOk result (λ v. IsTraceText v.items (trace_of_history turns history.now source.now)) }
{
    let mut out = String::new(alloc);
    push_head(&mut out, turns, count_runs(history))?;
    push_runs(&mut out, history)?;
    push_end(&mut out)?;
    let mut bytes = out.into_bytes();
    bytes.extend_from_slice(source)?;
    Ok(bytes)
}
