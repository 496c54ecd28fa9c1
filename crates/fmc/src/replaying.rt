//! The reply to a trace.

ghost use Rattle.std.specs.Prelude.{◌≡◌, ◌+◌, ◌≤◌, ◌<◌, Some, option_map, slice_get, ◌++◌, ◌∷◌, ℕ, List, [], length, nat_lt, true, false, codes, All, IfOk, IfSome};
ghost use Rattle.std.specs.Fmt.{decimal};
ghost use Rattle.fm_table.specs.Told.{cost_of as told_cost, first_told};
ghost use Rattle.fm_table.specs.Turning.{MakesSteps};
ghost use Rattle.fm_trace.specs.Texts.{IsEntry, IsTrace, IsTraceText, each_time, entries_of, history_of};
ghost use Rattle.fm_words.specs.declared.command.Command.TheVariants as command;
ghost use Rattle.fmc.specs.Exits.{is_decided};
ghost use Rattle.fmc.specs.Outcomes.{IsUnplayed, source_limit};
ghost use Rattle.fmc.specs.Replay.{ComesTo, HasCome, IsLacking, SaysTable, told_after, trace_limit};
ghost use Rattle.fmc.specs.Reply.{IsReply, bytes_of, places_in};

use crate::answer::{Exit, Reply, Text};
use crate::replies::{exit_of, refusal_reply, unplayed_reply};
use fm_base::{CheckFail, Line, NoMemory, Plan, Setup, Turn};
use fm_front::front;
use fm_report::{report, spent_text};
use fm_rules::Program;
use fm_table::{Phase, Table};
use fm_trace::{Run, Trace, TraceFail, read};
use std::alloc::Global;
use std::sync::Arc;

/// The most bytes of a trace's program.
const SOURCE_LIMIT: usize = 1_000_000;

// How a run is set up whose entries are handed in.
fn setup_of(turns: u64) -> Setup
    requires some { 1 ≤ turns }
    requires few { turns ≤ 1_000_000_000 }
    ensures { result.turns ≡ turns }
{
    Setup {
        turns,
        slice: 1,
        workers: 1,
        plan: Plan::Cyclic,
    }
}

// A text with a number behind it, on a line.
fn numbered(alloc: Global, text: &[u8], number: u64) -> Result<Vec<u8>, NoMemory>
    ensures { IfOk result (λ v. v.items ≡ text.now ++ decimal number ++ 10 ∷ []) }
{
    let mut line = Vec::from_slice(alloc, text)?;
    line.extend_from_slice(number.to_string(alloc)?.as_bytes())?;
    line.push(b'\n')?;
    Ok(line)
}

// Whether a source is over its limit.
fn is_long(source: &[u8]) -> bool
    ensures { result ≡ nat_lt source_limit (length source.now) }
{
    SOURCE_LIMIT < source.len()
}

// The run at a place.
fn run_at(runs: &[Run], place: usize) -> Run
    requires { place < length runs.now }
    ensures { slice_get runs.now place ≡ Some result }
{
    runs[place]
}

// Plays an entry, where the turns aren't spent: whether it asks for a step that isn't there.
fn lacks_step(alloc: Global, table: &mut Table, entry: Turn) -> Result<bool, NoMemory>
    requires { told_cost table.old ≤ table.old.setup.turns }
    ensures none { IfOk result (λ r. r ≡ false → MakesSteps entry.number entry.steps table.old table.new) }
    ensures some { IfOk result (λ r. r ≡ true → IsLacking table.old entry) }
{
    table.promise();
    let missing = table.play(alloc, entry)?;
    Ok(missing.is_some())
}

// Plays an entry as often as it comes, until it asks for a step that isn't there, or there are entries that cost more
// than the turns: how many were made before the one that asks for such a step.
fn play_run(alloc: Global, table: &mut Table, run: Run) -> Result<Option<u32>, NoMemory>
    requires told { table.old ≡ told_after table.old.program table.old.setup table.old.history }
    requires steps { 1 ≤ run.turn.steps }
    ensures come { IfOk result (λ r. HasCome table.old.program table.old.setup (table.old.history ++ each_time run)
        table.new (option_map (λ made. length table.old.history + made) r)) }
    ensures fewer { IfOk result (λ r. IfSome r (λ made. made < run.times)) }
{
    'times: for made in 0..run.times {
        if table.is_spent() {
            return Ok(None);
        }
        let lacks = lacks_step(alloc, table, run.turn)?;
        if lacks {
            return Ok(Some(made));
        }
    }
    Ok(None)
}

// Plays entries from the first until one asks for a step that isn't there, or they cost more than the turns: the place
// of that one.
fn play_entries(alloc: Global, table: &mut Table, runs: &[Run]) -> Result<Option<u64>, NoMemory>
    requires fresh { table.old ≡ first_told table.old.program table.old.setup }
    requires runs { All IsEntry runs.now }
    requires few { length (entries_of runs.now) ≤ 1000000001 }
    ensures come { IfOk result (λ r. HasCome table.old.program table.old.setup (entries_of runs.now) table.new r) }
    ensures fewer { IfOk result (λ r. IfSome r (λ place. place < length (entries_of runs.now))) }
{
    let mut played: u64 = 0;
    'runs: for place in 0..runs.len() {
        let run = run_at(runs, place);
        let lacking = play_run(alloc, table, run)?;
        if let Some(made) = lacking {
            return Ok(Some(played + u64::from(made)));
        }
        if table.is_spent() {
            return Ok(None);
        }
        played += u64::from(run.times);
    }
    Ok(None)
}

// The exit of a replay whose entries were played, and its text.
fn end_of(alloc: Global, table: &Table, turns: u64, vars: bool) -> Result<(Exit, Text), NoMemory>
    requires { table.now.setup.turns ≡ turns }
    ensures { IfOk result (λ r. SaysTable vars table.now r.0 (bytes_of r.1)) }
{
    table.promise();
    match table.phase() {
        Phase::Spent => {
            let text = spent_text(alloc, turns)?;
            Ok((Exit::Spent, Text::Made(text)))
        }
        Phase::Going => Ok((Exit::Unfinished, Text::Fixed(b"unfinished\n"))),
        Phase::Ended => {
            let outcome = table.outcome(alloc)?;
            let text = report(alloc, &outcome, vars)?;
            Ok((exit_of(&outcome), Text::Made(text)))
        }
    }
}

// The exit of a replay of entries, and its text.
fn replay_in(
    alloc: Global,
    program: Arc<Program>,
    turns: u64,
    runs: &[Run],
    vars: bool,
) -> Result<(Exit, Text), NoMemory>
    requires some { 1 ≤ turns }
    requires few { turns ≤ 1_000_000_000 }
    requires runs { All IsEntry runs.now }
    requires few_entries { length (entries_of runs.now) ≤ 1000000001 }
    ensures { IfOk result (λ r. ComesTo vars r.0 program.value turns (entries_of runs.now) (bytes_of r.1)) }
{
    let mut table = Table::new(alloc, program, setup_of(turns))?;
    let come = play_entries(alloc, &mut table, runs)?;
    match come {
        Some(place) => {
            let text = numbered(alloc, b"illegal turn: entry ", place + 1)?;
            Ok((Exit::Illegal, Text::Made(text)))
        }
        None => {
            table.promise();
            end_of(alloc, &table, turns, vars)
        }
    }
}

// The reply to a trace of a program that breaks no rule.
fn replay_of(alloc: Global, program: Program, trace: &Trace, vars: bool) -> Result<Reply, NoMemory>
    requires { IsTrace trace.now }
    ensures exit { IfOk result (λ r. (told : List ℕ)
        × ComesTo vars r.ran.exit program trace.now.turns (history_of trace.now) told
        × IsUnplayed r.ran.history.items (places_in r.ran) (bytes_of r.text) told) }
    ensures kind { IfOk result (λ r. is_decided r.ran.exit ≡ true) }
{
    let shared = Arc::new(alloc, program)?;
    let (exit, text) = replay_in(alloc, shared, trace.turns, trace.entries.as_slice(), vars)?;
    Ok(unplayed_reply(alloc, exit, text))
}

// The reply to a trace, whose form is whole.
fn trace_reply(alloc: Global, trace: &Trace, vars: bool) -> Result<Reply, NoMemory>
    requires { IsTrace trace.now }
    ensures reply { IfOk result
        (λ r. (b : List ℕ) → length b ≤ trace_limit → IsTraceText b trace.now → IsReply (command.Replay vars) b r) }
    ensures kind { IfOk result (λ r. is_decided r.ran.exit ≡ true) }
{
    if is_long(trace.source.as_slice()) {
        return Ok(unplayed_reply(alloc, Exit::TooLong, Text::Fixed(b"source too long\n")));
    }
    match front(alloc, trace.source.as_slice()) {
        Ok(program) => replay_of(alloc, program, trace, vars),
        Err(CheckFail::Refused(refusal)) => refusal_reply(alloc, refusal),
        Err(CheckFail::NoMemory) => Err(NoMemory),
    }
}

// The reply where a line of a trace is malformed.
fn malformed_reply(alloc: Global, line: Line) -> Result<Reply, NoMemory>
    ensures exit { IfOk result (λ r. r.ran.exit ≡ Exit.Malformed) }
    ensures text { IfOk result (λ r. IsUnplayed r.ran.history.items (places_in r.ran) (bytes_of r.text)
        (codes "malformed trace: line " ++ decimal line.0 ++ 10 ∷ [])) }
{
    let text = Text::Made(numbered(alloc, b"malformed trace: line ", u64::from(line.0))?);
    Ok(unplayed_reply(alloc, Exit::Malformed, text))
}

/// The reply to the bytes of a trace.
pub fn try_replay(alloc: Global, bytes: &[u8], vars: bool) -> Result<Reply, NoMemory>
    requires { length bytes.now ≤ trace_limit }
    ensures reply { IfOk result (λ r. IsReply (command.Replay vars) bytes.now r) }
    ensures kind { IfOk result (λ r. is_decided r.ran.exit ≡ true) }
{
    match read(alloc, bytes) {
        Ok(trace) => trace_reply(alloc, &trace, vars),
        Err(TraceFail::Malformed(line)) => malformed_reply(alloc, line),
        Err(TraceFail::NoMemory) => Err(NoMemory),
    }
}
