//! Replies where nothing was played, and exits of runs that ended.

ghost use Rattle.std.specs.Prelude.{◌≡◌, codes, IfOk};
ghost use Rattle.fm_base.specs.Rules.{refusal_text};
ghost use Rattle.fmc.specs.Outcomes.{IsUnplayed, exit_of};
ghost use Rattle.fmc.specs.Reply.{bytes_of, places_in};

use crate::answer::{Exit, Ran, Reply, Text};
use fm_base::{NoMemory, Refusal};
use fm_mean::Outcome;
use std::alloc::Global;

/// A reply where nothing was played. Takes no memory.
pub fn unplayed_reply(alloc: Global, exit: Exit, text: Text) -> Reply
    ensures exit { result.ran.exit ≡ exit }
    ensures text { IsUnplayed result.ran.history.items (places_in result.ran) (bytes_of result.text) (bytes_of text) }
{
    Reply {
        ran: Ran {
            exit,
            history: Vec::new(alloc),
            paths: Vec::new(alloc),
        },
        text,
    }
}

/// The reply where memory was asked for and not found. Takes no memory.
pub fn no_memory(alloc: Global) -> Reply
    ensures exit { result.ran.exit ≡ Exit.NoMemory }
    ensures text { IsUnplayed result.ran.history.items (places_in result.ran) (bytes_of result.text)
        (codes "no memory\n") }
{
    unplayed_reply(alloc, Exit::NoMemory, Text::Fixed(b"no memory\n"))
}

/// The reply where a program breaks a rule.
pub fn refusal_reply(alloc: Global, refusal: Refusal) -> Result<Reply, NoMemory>
    ensures exit { IfOk result (λ r. r.ran.exit ≡ Exit.Refused) }
    ensures text { IfOk result
        (λ r. IsUnplayed r.ran.history.items (places_in r.ran) (bytes_of r.text) (refusal_text refusal)) }
{
    let text = Text::Made(refusal.text(alloc)?);
    Ok(unplayed_reply(alloc, Exit::Refused, text))
}

/// The exit of a run that ended.
pub fn exit_of(outcome: &Outcome) -> Exit
    ensures { result ≡ exit_of outcome.now }
{
    match outcome.faults.as_slice() {
        [] => if outcome.main_ended {
            Exit::Done
        } else {
            Exit::Deadlocked
        },
        [_, ..] => Exit::Faulted,
    }
}
