//! The reply to a source.

ghost use Rattle.std.specs.Prelude.{◌≡◌, ◌≤◌, ◌++◌, ℕ, List, [], length, IfOk, IfErr, OnOk, true};
ghost use Rattle.fm_base.specs.Verdict.{IsClean, IsRefusal};
ghost use Rattle.fm_cards.specs.Cards.{cards_of};
ghost use Rattle.fm_rules.specs.Program.{AreShaped};
ghost use Rattle.fm_verdict.specs.Verdict.{AreStatementsOf, IsBroken, IsBrokenForm};
ghost use Rattle.fm_gen.specs.Programs.{code_of};
ghost use Rattle.fm_image.specs.ImageOf.{NamesAreNames, image_of};
ghost use Rattle.fm_object.specs.Texts.{IsImage, object_text};
ghost use Rattle.fmc.specs.Listing.{listed_text};
ghost use Rattle.fm_run.specs.Orders.{places_of};
ghost use Rattle.fm_words.specs.declared.command.Command.TheVariants as command;
ghost use Rattle.fmc.specs.Exits.{is_decided};
ghost use Rattle.fmc.specs.Outcomes.{source_limit, exit_in};
ghost use Rattle.fmc.specs.Answer.{FollowsIn, IsListOf, determinism_text, flow_text, IsPlayedExit, SaysDemo, SaysMade, SaysRun, SaysTrace, count_line, ended_word, limit_of, report_asked, summary_asked, summary_by};
ghost use Rattle.fmc.specs.Reply.{bytes_of, places_in, IsFlowReply, IsObjectReply, IsReply, IsSummary, text_in};

use crate::answer::{Exit, Ran, Reply, Text};
use crate::executing::try_exec;
use crate::hosting::try_nodes;
use crate::listing::list_text;
use crate::playing::{run_chosen, run_source};
use crate::replaying::try_replay;
use crate::replies::{exit_of, no_memory, refusal_reply, unplayed_reply};
use fm_base::{CheckFail, Line, NoMemory, Path, Setup};
use fm_flow::flow;
use fm_front::{check_statements, front, statements};
use fm_gen::generate;
use fm_image::image;
use fm_make::make;
use fm_mean::Outcome;
use fm_report::{report, spent_text};
use fm_rules::Program;
use fm_run::{Ending, Run};
use fm_table::Table;
use fm_trace::write;
use fm_tree::Placed;
use fm_words::Command;
use fm_workers::Workers;
use std::alloc::Global;
use std::sync::Arc;

fn exit_in(ending: &Ending) -> Exit
    ensures { result ≡ exit_in ending.now }
{
    match ending {
        Ending::Ended(outcome) => exit_of(outcome),
        Ending::Spent => Exit::Spent,
    }
}

// The text of a run: its report, or that it was spent.
pub(crate) fn report_in(
    alloc: Global,
    run: &Run,
    turns: u64,
    vars: bool,
) -> Result<Vec<u8>, NoMemory>
    ensures { IfOk result (λ v. v.items
        ≡ text_in (report_asked turns vars []) run.now.history.items (places_of run.now.paths.items) run.now.ending) }
{
    match &run.ending {
        Ending::Ended(outcome) => report(alloc, outcome, vars),
        Ending::Spent => spent_text(alloc, turns),
    }
}

// The answer of a run.
pub(crate) fn answer_of(run: Run) -> Ran
    ensures exit { result.exit ≡ exit_in run.ending }
    ensures history { result.history ≡ run.history }
    ensures paths { result.paths ≡ run.paths }
{
    let exit = exit_in(&run.ending);
    Ran {
        exit,
        history: run.history,
        paths: run.paths,
    }
}

/// The answer of a run of a source of these bytes, and its text.
pub fn play_source(
    alloc: Global,
    bytes: &[u8],
    choices: &[u64],
    setup: Setup,
    vars: bool,
) -> Result<(Ran, Vec<u8>), CheckFail>
    requires { length bytes.now ≤ source_limit }
    ensures says { IfOk result (λ r. SaysRun (report_asked setup.turns vars choices.now) bytes.now r.0.exit
        r.0.history.items (places_in r.0) r.1.items) }
    ensures follows { IfOk result (λ r. FollowsIn bytes.now setup.slice choices.now r.0.history.items) }
    ensures exit { IfOk result (λ r. IsPlayedExit r.0.exit) }
    ensures refused { IfErr result (IsRefusal (IsBroken bytes.now)) }
{
    let run = run_chosen(alloc, bytes, choices, setup)?;
    let text = report_in(alloc, &run, setup.turns, vars)?;
    Ok((answer_of(run), text))
}

/// The answer of a run that workers play of a source of these bytes, and its text.
fn drive_source<W: Workers<Table>>(
    alloc: Global,
    bytes: &[u8],
    setup: Setup,
    vars: bool,
    workers: &W,
) -> Result<(Ran, Vec<u8>), CheckFail>
    requires crosses { W.crosses }
    requires size { length bytes.now ≤ source_limit }
    ensures says { IfOk result (λ r. SaysRun (report_asked setup.turns vars []) bytes.now r.0.exit r.0.history.items
        (places_in r.0) r.1.items) }
    ensures exit { IfOk result (λ r. IsPlayedExit r.0.exit) }
    ensures refused { IfErr result (IsRefusal (IsBroken bytes.now)) }
{
    let run = run_source(alloc, bytes, setup, workers)?;
    let text = report_in(alloc, &run, setup.turns, vars)?;
    Ok((answer_of(run), text))
}

fn try_run<W: Workers<Table>>(
    alloc: Global,
    bytes: &[u8],
    setup: Setup,
    vars: bool,
    workers: &W,
) -> Result<Reply, NoMemory>
    requires crosses { W.crosses }
    requires size { length bytes.now ≤ source_limit }
    ensures reply { IfOk result (λ r. IsReply (command.Run setup vars) bytes.now r) }
    ensures kind { IfOk result (λ r. is_decided r.ran.exit ≡ true) }
{
    match drive_source(alloc, bytes, setup, vars, workers) {
        Ok((ran, text)) => Ok(Reply {
            ran,
            text: Text::Made(text),
        }),
        Err(CheckFail::Refused(refusal)) => refusal_reply(alloc, refusal),
        Err(CheckFail::NoMemory) => Err(NoMemory),
    }
}

/// The answer of a run of a source of these bytes, and its trace.
fn trace_source<W: Workers<Table>>(
    alloc: Global,
    bytes: &[u8],
    setup: Setup,
    workers: &W,
) -> Result<(Ran, Vec<u8>), CheckFail>
    requires crosses { W.crosses }
    requires size { length bytes.now ≤ source_limit }
    ensures says { IfOk result
        (λ r. SaysTrace setup.turns bytes.now r.0.exit r.0.history.items (places_in r.0) r.1.items) }
    ensures exit { IfOk result (λ r. IsPlayedExit r.0.exit) }
    ensures refused { IfErr result (IsRefusal (IsBroken bytes.now)) }
{
    let run = run_source(alloc, bytes, setup, workers)?;
    let text = write(alloc, &run.history, setup.turns, bytes)?;
    Ok((answer_of(run), text))
}

fn try_trace<W: Workers<Table>>(
    alloc: Global,
    bytes: &[u8],
    setup: Setup,
    workers: &W,
) -> Result<Reply, NoMemory>
    requires crosses { W.crosses }
    requires size { length bytes.now ≤ source_limit }
    ensures reply { IfOk result (λ r. IsReply (command.Trace setup) bytes.now r) }
    ensures kind { IfOk result (λ r. is_decided r.ran.exit ≡ true) }
{
    match trace_source(alloc, bytes, setup, workers) {
        Ok((ran, text)) => Ok(Reply {
            ran,
            text: Text::Made(text),
        }),
        Err(CheckFail::Refused(refusal)) => refusal_reply(alloc, refusal),
        Err(CheckFail::NoMemory) => Err(NoMemory),
    }
}

// Puts a word and a number on a line of their own.
pub(crate) fn push_count(
    alloc: Global,
    out: &mut Vec<u8>,
    word: &[u8],
    count: u64,
) -> Result<(), NoMemory>
    ensures { OnOk result (out.new.items ≡ out.old.items ++ count_line word.now count) }
{
    out.extend_from_slice(word)?;
    out.extend_from_slice(count.to_string(alloc)?.as_bytes())?;
    out.push(b'\n')?;
    Ok(())
}

fn ended_word(outcome: &Outcome) -> &'static [u8]
    ensures { result.now ≡ ended_word outcome.now.faults outcome.now.main_ended }
{
    match outcome.faults.as_slice() {
        [] => if outcome.main_ended {
            b"done\n"
        } else {
            b"deadlocked\n"
        },
        [_, ..] => b"faulted\n",
    }
}

fn summary(alloc: Global, paths: &[Arc<Path>], outcome: &Outcome) -> Result<Vec<u8>, NoMemory>
    ensures { IfOk result (λ v. v.items ≡ summary_by (places_of paths.now) outcome.now) }
{
    let mut out = Vec::new(alloc);
    push_count(alloc, &mut out, b"processes ", paths.len() as u64)?;
    push_count(alloc, &mut out, b"turns ", outcome.used)?;
    push_count(alloc, &mut out, b"lines ", outcome.lines.len() as u64)?;
    out.extend_from_slice(ended_word(outcome))?;
    Ok(out)
}

// The text of a demonstration: its summary, or that it was spent.
fn summary_in(alloc: Global, run: &Run, turns: u64) -> Result<Vec<u8>, NoMemory>
    ensures { IfOk result (λ v. v.items
        ≡ text_in (summary_asked turns) run.now.history.items (places_of run.now.paths.items) run.now.ending) }
{
    match &run.ending {
        Ending::Ended(outcome) => summary(alloc, &run.paths, outcome),
        Ending::Spent => spent_text(alloc, turns),
    }
}

/// The answer of a demonstration by a source of these bytes, and its text.
fn show_source<W: Workers<Table>>(
    alloc: Global,
    bytes: &[u8],
    setup: Setup,
    workers: &W,
) -> Result<(Ran, Vec<u8>), CheckFail>
    requires crosses { W.crosses }
    requires size { length bytes.now ≤ source_limit }
    ensures says { IfOk result
        (λ r. SaysRun (summary_asked setup.turns) bytes.now r.0.exit r.0.history.items (places_in r.0) r.1.items) }
    ensures exit { IfOk result (λ r. IsPlayedExit r.0.exit) }
    ensures refused { IfErr result (IsRefusal (IsBroken bytes.now)) }
{
    let run = run_source(alloc, bytes, setup, workers)?;
    let text = summary_in(alloc, &run, setup.turns)?;
    Ok((answer_of(run), text))
}

fn summary_reply<W: Workers<Table>>(
    alloc: Global,
    bytes: &[u8],
    setup: Setup,
    workers: &W,
) -> Result<Reply, NoMemory>
    requires crosses { W.crosses }
    requires size { length bytes.now ≤ source_limit }
    ensures summary { IfOk result (IsSummary bytes.now setup.turns) }
    ensures kind { IfOk result (λ r. is_decided r.ran.exit ≡ true) }
{
    match show_source(alloc, bytes, setup, workers) {
        Ok((ran, text)) => Ok(Reply {
            ran,
            text: Text::Made(text),
        }),
        Err(CheckFail::Refused(refusal)) => refusal_reply(alloc, refusal),
        Err(CheckFail::NoMemory) => Err(NoMemory),
    }
}

/// The program of a number is made and run.
fn try_demo<W: Workers<Table>>(
    alloc: Global,
    number: u64,
    setup: Setup,
    workers: &W,
) -> Result<Reply, NoMemory>
    requires { W.crosses }
    ensures reply { IfOk result
        (λ r. SaysDemo number setup.turns r.ran.exit r.ran.history.items (places_in r.ran) (bytes_of r.text)) }
    ensures kind { IfOk result (λ r. is_decided r.ran.exit ≡ true) }
{
    let source = make(alloc, number)?;
    summary_reply(alloc, &source, setup, workers)
}

/// The program of a number is written.
fn try_make(alloc: Global, number: u64) -> Result<Reply, NoMemory>
    ensures reply { IfOk result
        (λ r. SaysMade number r.ran.exit r.ran.history.items (places_in r.ran) (bytes_of r.text)) }
    ensures kind { IfOk result (λ r. is_decided r.ran.exit ≡ true) }
{
    let text = Text::Made(make(alloc, number)?);
    Ok(unplayed_reply(alloc, Exit::Done, text))
}

fn determinism_text(alloc: Global, race: Option<Line>) -> Result<Text, NoMemory>
    ensures { IfOk result (λ t. bytes_of t ≡ determinism_text race) }
{
    match race {
        None => Ok(Text::Fixed(b"deterministic\n")),
        Some(line) => {
            let mut text = Vec::from_slice(alloc, b"not deterministic: line ")?;
            text.extend_from_slice(line.0.to_string(alloc)?.as_bytes())?;
            text.push(b'\n')?;
            Ok(Text::Made(text))
        }
    }
}

fn flow_text(alloc: Global, risk: Option<Line>) -> Result<Text, NoMemory>
    ensures { IfOk result (λ t. bytes_of t ≡ flow_text risk) }
{
    match risk {
        None => Ok(Text::Fixed(b"no deadlock\n")),
        Some(line) => {
            let mut text = Vec::from_slice(alloc, b"may deadlock: line ")?;
            text.extend_from_slice(line.0.to_string(alloc)?.as_bytes())?;
            text.push(b'\n')?;
            Ok(Text::Made(text))
        }
    }
}

fn try_check(alloc: Global, bytes: &[u8]) -> Result<Reply, NoMemory>
    requires { length bytes.now ≤ source_limit }
    ensures reply { IfOk result (λ r. IsReply command.Check bytes.now r) }
    ensures kind { IfOk result (λ r. is_decided r.ran.exit ≡ true) }
{
    match front(alloc, bytes) {
        Ok(program) => {
            let text = determinism_text(alloc, program.first_race())?;
            Ok(unplayed_reply(alloc, Exit::Done, text))
        }
        Err(CheckFail::Refused(refusal)) => refusal_reply(alloc, refusal),
        Err(CheckFail::NoMemory) => Err(NoMemory),
    }
}

/// The reply of the flow check of a program.
fn flow_reply(alloc: Global, program: &Program) -> Result<Reply, NoMemory>
    ensures exit { IfOk result (λ r. r.ran.exit ≡ Exit.Done) }
    ensures text { IfOk result (IsFlowReply program.now) }
{
    let risk = flow(alloc, program)?;
    let text = flow_text(alloc, risk)?;
    Ok(unplayed_reply(alloc, Exit::Done, text))
}

fn try_flow(alloc: Global, bytes: &[u8]) -> Result<Reply, NoMemory>
    requires { length bytes.now ≤ source_limit }
    ensures reply { IfOk result (λ r. IsReply command.Flow bytes.now r) }
    ensures kind { IfOk result (λ r. is_decided r.ran.exit ≡ true) }
{
    match front(alloc, bytes) {
        Ok(program) => flow_reply(alloc, &program),
        Err(CheckFail::Refused(refusal)) => refusal_reply(alloc, refusal),
        Err(CheckFail::NoMemory) => Err(NoMemory),
    }
}

/// The object text of the image of a program and its code.
fn object_of(alloc: Global, program: &Program) -> Result<Vec<u8>, NoMemory>
    ensures text { IfOk result (λ v. v.items ≡ object_text (image_of program.now (code_of program.now))) }
    ensures fits { IfOk result (λ _. NamesAreNames program.now → IsImage (image_of program.now (code_of program.now))) }
{
    let code = generate(alloc, program)?;
    let image = image(alloc, program, &code)?;
    fm_object::write(alloc, &image)
}

/// The reply that is the object text of a program.
fn object_reply(alloc: Global, program: &Program) -> Result<Reply, NoMemory>
    ensures exit { IfOk result (λ r. r.ran.exit ≡ Exit.Done) }
    ensures text { IfOk result (IsObjectReply program.now) }
{
    let object = object_of(alloc, program)?;
    Ok(unplayed_reply(alloc, Exit::Done, Text::Made(object)))
}

fn try_compile(alloc: Global, bytes: &[u8]) -> Result<Reply, NoMemory>
    requires { length bytes.now ≤ source_limit }
    ensures reply { IfOk result (λ r. IsReply command.Compile bytes.now r) }
    ensures kind { IfOk result (λ r. is_decided r.ran.exit ≡ true) }
{
    match front(alloc, bytes) {
        Ok(program) => object_reply(alloc, &program),
        Err(CheckFail::Refused(refusal)) => refusal_reply(alloc, refusal),
        Err(CheckFail::NoMemory) => Err(NoMemory),
    }
}

/// The list of statements that break no rule, of a source whose form breaks none.
fn checked_list(alloc: Global, statements: Vec<Placed>) -> Result<Vec<u8>, CheckFail>
    requires { AreShaped statements.items }
    ensures text { IfOk result (λ v. v.items ≡ listed_text statements.items) }
    ensures clean { IfOk result (λ _. (source : List ℕ) → AreStatementsOf (cards_of source) statements.items
        → IsClean (IsBrokenForm source) → IsClean (IsBroken source)) }
    ensures refused { IfErr result (λ e. (source : List ℕ) → AreStatementsOf (cards_of source) statements.items
        → IsClean (IsBrokenForm source) → IsRefusal (IsBroken source) e) }
{
    let text = list_text(alloc, &statements)?;
    match check_statements(alloc, statements) {
        Ok(program) => {
            drop(program);
            Ok(text)
        }
        Err(fail) => Err(fail),
    }
}

/// The list of the statements of a source of these bytes.
fn list_source(alloc: Global, bytes: &[u8]) -> Result<Vec<u8>, CheckFail>
    requires { length bytes.now ≤ source_limit }
    ensures text { IfOk result (λ v. IsListOf bytes.now v.items) }
    ensures refused { IfErr result (IsRefusal (IsBroken bytes.now)) }
{
    match statements(alloc, bytes) {
        Ok(statements) => checked_list(alloc, statements),
        Err(fail) => Err(fail),
    }
}

fn try_list(alloc: Global, bytes: &[u8]) -> Result<Reply, NoMemory>
    requires { length bytes.now ≤ source_limit }
    ensures reply { IfOk result (λ r. IsReply command.List bytes.now r) }
    ensures kind { IfOk result (λ r. is_decided r.ran.exit ≡ true) }
{
    match list_source(alloc, bytes) {
        Ok(text) => Ok(unplayed_reply(alloc, Exit::Done, Text::Made(text))),
        Err(CheckFail::Refused(refusal)) => refusal_reply(alloc, refusal),
        Err(CheckFail::NoMemory) => Err(NoMemory),
    }
}

/// The reply to a source of these bytes, on which `make` and `demo` don't depend. Workers play what is run.
pub fn reply<W: Workers<Table>>(alloc: Global, command: Command, bytes: &[u8], workers: &W) -> Reply
    requires crosses { W.crosses }
    requires size { length bytes.now ≤ limit_of command }
    ensures reply { IsReply command bytes.now result }
    ensures kind { is_decided result.ran.exit ≡ true }
{
    let tried = match command {
        Command::Run { setup, vars } => try_run(alloc, bytes, setup, vars, workers),
        Command::Trace { setup } => try_trace(alloc, bytes, setup, workers),
        Command::Replay { vars } => try_replay(alloc, bytes, vars),
        Command::Check => try_check(alloc, bytes),
        Command::List => try_list(alloc, bytes),
        Command::Flow => try_flow(alloc, bytes),
        Command::Compile => try_compile(alloc, bytes),
        Command::Exec { turns, vars } => try_exec(alloc, bytes, turns, vars),
        Command::Make { number } => try_make(alloc, number),
        Command::Demo { number, setup } => try_demo(alloc, number, setup, workers),
        Command::Nodes {
            number,
            setup,
            vars,
        } => try_nodes(alloc, bytes, number, setup, vars),
    };
    match tried {
        Ok(reply) => reply,
        Err(NoMemory) => no_memory(alloc),
    }
}
