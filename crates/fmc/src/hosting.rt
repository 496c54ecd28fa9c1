//! The reply to a source whose program hosts play, over links that lose, repeat and reorder packets.

ghost use Rattle.std.specs.Prelude.{◌≡◌, ◌≤◌, length, true, List, [], ℕ, IfOk};
ghost use Rattle.fm_verdict.specs.Program.{IsCheckedOf};
ghost use Rattle.fm_run.specs.Orders.{places_of};
ghost use Rattle.fm_words.specs.declared.command.Command.TheVariants as command;
ghost use Rattle.fmc.specs.Answer.{report_asked};
ghost use Rattle.fmc.specs.Exits.{is_decided};
ghost use Rattle.fmc.specs.Outcomes.{source_limit, exit_in};
ghost use Rattle.fmc.specs.Plain.{unplain_text};
ghost use Rattle.fmc.specs.Reply.{bytes_of, text_in, IsReply};

use crate::answer::{Exit, Reply, Text};
use crate::replies::{refusal_reply, unplayed_reply};
use crate::response::{answer_of, report_in};
use fm_base::{CheckFail, Line, NoMemory, Setup};
use fm_front::front;
use fm_nodes::{NodesFail, run_on_hosts};
use fm_rules::Program;
use fm_run::Run;
use std::alloc::Global;
use std::sync::Arc;

fn unplain_text(alloc: Global, line: Line) -> Result<Text, NoMemory>
    ensures { IfOk result (λ t. bytes_of t ≡ unplain_text line) }
{
    let mut text = Vec::from_slice(alloc, b"not for nodes: line ")?;
    text.extend_from_slice(line.0.to_string(alloc)?.as_bytes())?;
    text.push(b'\n')?;
    Ok(Text::Made(text))
}

// The reply of a run: its report, or that it was spent.
pub(crate) fn report_reply(
    alloc: Global,
    run: Run,
    turns: u64,
    vars: bool,
) -> Result<Reply, NoMemory>
    ensures exit { IfOk result (λ r. r.ran.exit ≡ exit_in run.ending) }
    ensures history { IfOk result (λ r. r.ran.history ≡ run.history) }
    ensures paths { IfOk result (λ r. r.ran.paths ≡ run.paths) }
    ensures text { IfOk result (λ r. bytes_of r.text
        ≡ text_in (report_asked turns vars []) run.history.items (places_of run.paths.items) run.ending) }
{
    let text = report_in(alloc, &run, turns, vars)?;
    Ok(Reply {
        ran: answer_of(run),
        text: Text::Made(text),
    })
}

// The reply of a checked program that hosts play.
fn nodes_reply(
    alloc: Global,
    program: Program,
    number: u64,
    setup: Setup,
    vars: bool,
) -> Result<Reply, NoMemory>
    ensures reply { IfOk result (λ r. (source : List ℕ) → length source ≤ source_limit
        → IsCheckedOf source program → IsReply (command.Nodes number setup vars) source r) }
    ensures kind { IfOk result (λ r. is_decided r.ran.exit ≡ true) }
{
    let shared = Arc::new(alloc, program)?;
    match run_on_hosts(alloc, shared, number, setup.turns, setup.plan) {
        Ok(run) => report_reply(alloc, run, setup.turns, vars),
        Err(NodesFail::NotPlain(line)) => {
            let text = unplain_text(alloc, line)?;
            Ok(unplayed_reply(alloc, Exit::NotPlain, text))
        }
        Err(NodesFail::NoMemory) => Err(NoMemory),
    }
}

/// The reply to a source of these bytes whose program hosts play, over a network of this number.
pub(crate) fn try_nodes(
    alloc: Global,
    bytes: &[u8],
    number: u64,
    setup: Setup,
    vars: bool,
) -> Result<Reply, NoMemory>
    requires { length bytes.now ≤ source_limit }
    ensures reply { IfOk result (λ r. IsReply (command.Nodes number setup vars) bytes.now r) }
    ensures kind { IfOk result (λ r. is_decided r.ran.exit ≡ true) }
{
    match front(alloc, bytes) {
        Ok(program) => nodes_reply(alloc, program, number, setup, vars),
        Err(CheckFail::Refused(refusal)) => refusal_reply(alloc, refusal),
        Err(CheckFail::NoMemory) => Err(NoMemory),
    }
}
