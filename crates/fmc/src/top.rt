//! The top call.

ghost use Rattle.std.specs.Prelude.{◌≡◌, ◌≢◌, ◌≤◌, ℕ, Bool, true, false, List, [], length, IfSome, IfOk, IfErr, Some, is_none, codes};
ghost use Rattle.std.specs.Io.KnownBytes.{Appends, IsAtEnd};
ghost use Rattle.fm_base.specs.Verdict.{IsRefusal};
ghost use Rattle.fm_io.specs.Causes.{Rose};
ghost use Rattle.fm_io.specs.Streams.{WritesFront};
ghost use Rattle.fm_front.specs.Laws.{OneVerdict};
ghost use Rattle.fm_verdict.specs.Verdict.{IsBroken};
ghost use Rattle.fm_trace.specs.Texts.{IsTraceText};
ghost use Rattle.fm_trace.specs.declared.trace.Trace.{Trace};
ghost use Rattle.fm_words.specs.declared.command.Command.{Command};
ghost use Rattle.fm_words.specs.declared.command.Command.TheVariants as command;
ghost use Rattle.fm_base.specs.declared.schedule.Setup as declared_setup;
ghost use Rattle.fm_base.specs.declared.schedule.Turn.{Turn};
ghost use Rattle.fm_net.specs.Machine.{Place};
ghost use Rattle.fmc.specs.declared.answer.Exit as declared_exit;
ghost use Rattle.fmc.specs.Exits.{is_usage, is_read};
ghost use Rattle.fmc.specs.Outcomes.{source_limit};
ghost use Rattle.fmc.specs.Replay.{trace_limit};
ghost use Rattle.fmc.specs.Answer.{Answers, Asked, FollowsIn, ForBytes, IsPlayedExit, Says, SaysRun, are_reading, command_in, is_reading, limit_of, report_asked};
ghost use Rattle.fmc.specs.Decided.{IsDecidedBy};
ghost use Rattle.fmc.specs.Reply.{IsReplyOf, bytes_of, places_in};

use crate::answer::{Exit, Ran, Reply, Text};
use crate::laws::plain_or_not;
use crate::replies::{no_memory, unplayed_reply};
use crate::response::{play_source, reply};
use fm_base::{CheckFail, Plan, Setup};
use fm_io::{ReadFail, Sink, Source, WriteFail, read_all, write_all};
use fm_table::Table;
use fm_words::{Command, WordsFail};
use fm_workers::Workers;
use std::alloc::Global;

/// The most bytes of a source.
const LIMIT: usize = 1_000_000;

/// The most bytes of a trace.
const TRACE_LIMIT: usize = 100_000_000;

/// The most bytes of an object text.
const OBJECT_LIMIT: usize = 100_000_000;

/// The most steps of a piece under a schedule of the caller's.
const SLICE: u32 = 1_000;

const USAGE: &[u8] =
    b"usage: fmc run or trace or replay or check or list or make N or demo N or compile or exec or flow or nodes N\n";

fn limit_of(command: &Command) -> usize
    ensures { result ≡ limit_of command.now }
{
    match command {
        Command::Run { .. } => LIMIT,
        Command::Trace { .. } => LIMIT,
        Command::Replay { .. } => TRACE_LIMIT,
        Command::Check => LIMIT,
        Command::List => LIMIT,
        Command::Flow => LIMIT,
        Command::Compile => LIMIT,
        Command::Exec { .. } => OBJECT_LIMIT,
        Command::Make { .. } => LIMIT,
        Command::Demo { .. } => LIMIT,
        Command::Nodes { .. } => LIMIT,
    }
}

/// The reply to a command that works on the source.
fn respond_to<S: Source, W: Workers<Table>>(
    alloc: Global,
    command: Command,
    source: &mut S,
    workers: &W,
) -> Reply
    requires crosses { W.crosses }
    requires reading { is_reading command ≡ true }
    ensures reply { IsReplyOf (Some command) (S.left source.old) result }
    ensures no_usage { is_usage result.ran.exit ≡ false }
    ensures no_write { result.ran.exit ≢ Exit.WriteFault }
    ensures read_fault { result.ran.exit ≡ Exit.ReadFault → Rose (S.faults source.old) (S.faults source.new) }
    ensures read { is_read result.ran.exit ≡ true → IsAtEnd (S.left source.new) }
    ensures later { S.faults source.old ≤ S.faults source.new }
{
    match read_all(alloc, source, limit_of(&command)) {
        Ok(bytes) => reply(alloc, command, &bytes, workers),
        Err(ReadFail::Fault) => {
            unplayed_reply(alloc, Exit::ReadFault, Text::Fixed(b"read fault\n"))
        }
        Err(ReadFail::TooLong) => {
            unplayed_reply(alloc, Exit::TooLong, Text::Fixed(b"source too long\n"))
        }
        Err(ReadFail::NoMemory) => no_memory(alloc),
    }
}

fn is_reading(command: &Command) -> bool
    ensures { result ≡ is_reading command.now }
{
    match command {
        Command::Run { .. } => true,
        Command::Trace { .. } => true,
        Command::Replay { .. } => true,
        Command::Check => true,
        Command::List => true,
        Command::Flow => true,
        Command::Compile => true,
        Command::Exec { .. } => true,
        Command::Make { .. } => false,
        Command::Demo { .. } => false,
        Command::Nodes { .. } => true,
    }
}

fn respond<S: Source, W: Workers<Table>>(
    alloc: Global,
    words: &[&str],
    source: &mut S,
    workers: &W,
) -> Reply
    requires { W.crosses }
    ensures reply { IsReplyOf (command_in words.now) (S.left source.old) result }
    ensures words { is_usage result.ran.exit ≡ is_none (command_in words.now) }
    ensures no_write { result.ran.exit ≢ Exit.WriteFault }
    ensures read_fault { result.ran.exit ≡ Exit.ReadFault → Rose (S.faults source.old) (S.faults source.new) }
    ensures read { are_reading (command_in words.now) ≡ true
        → is_read result.ran.exit ≡ true → IsAtEnd (S.left source.new) }
    ensures unread { are_reading (command_in words.now) ≡ false → source.new ≡ source.old }
    ensures later { S.faults source.old ≤ S.faults source.new }
{
    match fm_words::words(alloc, words) {
        Ok(command) => {
            if is_reading(&command) {
                respond_to(alloc, command, source, workers)
            } else {
                reply(alloc, command, &[], workers)
            }
        }
        Err(WordsFail::Usage) => unplayed_reply(alloc, Exit::Usage, Text::Fixed(USAGE)),
        Err(WordsFail::NoMemory) => no_memory(alloc),
    }
}

fn finish<K: Sink>(sink: &mut K, reply: Reply) -> Ran
    requires { reply.ran.exit ≢ Exit.WriteFault }
    ensures whole { result.exit ≢ Exit.WriteFault
        → (result.exit ≡ reply.ran.exit) × Appends (K.written sink.old) (K.written sink.new) (bytes_of reply.text) }
    ensures flushed { result.exit ≢ Exit.WriteFault → K.flushed sink.new }
    ensures cut { result.exit ≡ Exit.WriteFault
        → Rose (K.faults sink.old) (K.faults sink.new)
        × WritesFront (K.written sink.old) (K.written sink.new) (bytes_of reply.text) }
    ensures history { result.history ≡ reply.ran.history }
    ensures paths { result.paths ≡ reply.ran.paths }
    ensures later { K.faults sink.old ≤ K.faults sink.new }
{
    let Reply { ran, text } = reply;
    let written = match &text {
        Text::Fixed(bytes) => write_all(sink, bytes),
        Text::Made(bytes) => write_all(sink, bytes.as_slice()),
    };
    let Ran {
        exit,
        history,
        paths,
    } = ran;
    let exit = match written {
        Ok(()) => exit,
        Err(WriteFail) => Exit::WriteFault,
    };
    Ran {
        exit,
        history,
        paths,
    }
}

/// Does what the words say, and writes one text. The order of work is: words, reading, checking, running,
/// writing; the first refusal in this order is the answer. The words are those after the program's name;
/// the answer's exit, schedule and text are those of the bytes that the source had left. `make` and
/// `demo` don't read the source.
///
/// What is run is played by workers, whatever they do with the table that they are lent; the run goes on from what they
/// give back, by turns, and begins anew where they give none back, or another one.
pub fn fmc<S: Source, K: Sink, W: Workers<Table>>(
    alloc: Global,
    words: &[&str],
    source: &mut S,
    sink: &mut K,
    workers: &W,
) -> Ran
    // What the type of workers needs to start threads.
    requires { W.crosses }

    // Exit, kept schedule and text are those of the bytes that the source had left; of some, where it doesn't tell
    // which, as standard input; and of any, where nothing is read. The whole text was written and handed on, or a front
    // of the text that would have been.
    ensures answers { ForBytes (are_reading (command_in words.now)) (S.left source.old) (λ b.
        Answers (command_in words.now) b result.exit result.history.items (places_in result)
        (S.faults source.old) (S.faults source.new) (S.left source.new) (K.written sink.old) (K.written sink.new)) }
    ensures flushed { result.exit ≢ Exit.WriteFault → K.flushed sink.new }
    ensures usage { result.exit ≢ Exit.WriteFault → is_usage result.exit ≡ is_none (command_in words.now) }

    // Nothing but the words, the bytes and the memory decides the exit, where nothing failed. Where nothing is read, it
    // doesn't matter whether the source failed.
    ensures decided { (command : Command) → command_in words.now ≡ Some command
        → ¬ Rose (S.faults source.old) (S.faults source.new) → ¬ Rose (K.faults sink.old) (K.faults sink.new)
        → IfSome (S.left source.old) (λ b. IsDecidedBy command b result.exit) }
    ensures unread_decided { (command : Command) → command_in words.now ≡ Some command
        → is_reading command ≡ false → ¬ Rose (K.faults sink.old) (K.faults sink.new)
        → (b : List ℕ) → IsDecidedBy command b result.exit }

    // A fault is told only where the source or the sink failed in this call.
    ensures read_fault { result.exit ≡ Exit.ReadFault → Rose (S.faults source.old) (S.faults source.new) }
    ensures write_fault { result.exit ≡ Exit.WriteFault → Rose (K.faults sink.old) (K.faults sink.new) }
    ensures all_read { are_reading (command_in words.now) ≡ true
        → is_read result.exit ≡ true → IsAtEnd (S.left source.new) }
    ensures unread { are_reading (command_in words.now) ≡ false → source.new ≡ source.old }
{
    plain_or_not();
    let reply = respond(alloc, words, source, workers);
    finish(sink, reply)
}

/// Does with a source of these bytes what `run` does, under a schedule of the caller's: piece i, of at
/// most 1,000 local steps with its event behind them, goes to number `choices[i]`, from 0 and modulo their count, of
/// those that can step, in their order, and to the first one when the choices are used up. Gives the exit with the kept
/// schedule, and the text.
pub fn play_choices(
    alloc: Global,
    source: &[u8],
    choices: &[u64],
    turns: u64,
    vars: bool,
) -> Result<(Ran, Vec<u8>), CheckFail>
    requires size { length source.now ≤ source_limit }
    requires some_turns { 1 ≤ turns }
    requires few_turns { turns ≤ 1_000_000_000 }
    ensures answers { IfOk result (λ r. SaysRun (report_asked turns vars choices.now) source.now r.0.exit
        r.0.history.items (places_in r.0) r.1.items) }
    ensures follows { IfOk result (λ r. FollowsIn source.now 1_000 choices.now r.0.history.items) }
    ensures exit { IfOk result (λ r. IsPlayedExit r.0.exit) }
    ensures refused { IfErr result (IsRefusal (IsBroken source.now)) }
{
    let setup = Setup {
        turns,
        slice: SLICE,
        workers: 1,
        plan: Plan::Cyclic,
    };
    play_source(alloc, source, choices, setup, vars)
}

/// A source has one verdict.
pub fn one_verdict()
    ensures { OneVerdict }
{
    fm_front::one_verdict();
}

/// What `trace` writes of a run, where it has at most 100,000,000 bytes, is replayed to what `run` would say under the
/// same schedule: the same exit and the same report.
pub fn replay_tells_the_run()
    ensures { (setup : declared_setup.Setup) (vars : Bool) (source : List ℕ) (exit : declared_exit.Exit)
        (history : List Turn) (places : List Place) (text : List ℕ)
        → Says (command.Trace setup) source exit history places text
        → IsPlayedExit exit → length text ≤ trace_limit
        → (told : List ℕ) × SaysRun (report_asked setup.turns vars []) source exit history places told
        × Says (command.Replay vars) text exit [] [] told }
{}

/// Where `flow` writes `no deadlock` of a source, no run of it ends with main waiting, under whatever schedule: not
/// `run`, nor `trace`, nor a schedule of the caller's, nor `replay` of a trace of it, whoever wrote that.
pub fn flow_excludes_deadlock()
    ensures runs { (source : List ℕ) (before : List Turn) (starts : List Place)
        → Says command.Flow source Exit.Done before starts (codes "no deadlock\n")
        → (asked : Asked) (history : List Turn) (places : List Place) (text : List ℕ)
        → SaysRun asked source Exit.Deadlocked history places text
        → ⊥ }
    ensures replays { (source : List ℕ) (before : List Turn) (starts : List Place)
        → Says command.Flow source Exit.Done before starts (codes "no deadlock\n")
        → (vars : Bool) (b : List ℕ) (trace : Trace) → IsTraceText b trace
        → trace.source ≡ source → (history : List Turn) (places : List Place) (text : List ℕ)
        → Says (command.Replay vars) b Exit.Deadlocked history places text
        → ⊥ }
{
    fm_front::one_program();
}
