//! The reply to an object text, whose image is run.

ghost use Rattle.std.specs.Prelude.{◌≡◌, ◌≤◌, length, true, IfOk};
ghost use Rattle.fm_words.specs.declared.command.Command.TheVariants as command;
ghost use Rattle.fmc.specs.Answer.{count_line};
ghost use Rattle.fmc.specs.Executes.{object_limit};
ghost use Rattle.fmc.specs.Exits.{is_decided};
ghost use Rattle.fmc.specs.Reply.{bytes_of, IsReply};

use crate::answer::{Exit, Reply, Text};
use crate::hosting::report_reply;
use crate::replies::unplayed_reply;
use crate::response::push_count;
use fm_base::NoMemory;
use fm_execute::{ExecuteFail, execute_text};
use std::alloc::Global;

// A word and a number on a line.
fn counted_text(alloc: Global, word: &[u8], number: u32) -> Result<Text, NoMemory>
    ensures { IfOk result (λ t. bytes_of t ≡ count_line word.now number) }
{
    let mut text = Vec::new(alloc);
    push_count(alloc, &mut text, word, u64::from(number))?;
    Ok(Text::Made(text))
}

/// The reply to an object text of these bytes, which runs on one thread.
pub(crate) fn try_exec(
    alloc: Global,
    bytes: &[u8],
    turns: u64,
    vars: bool,
) -> Result<Reply, NoMemory>
    requires { length bytes.now ≤ object_limit }
    ensures reply { IfOk result (λ r. IsReply (command.Exec turns vars) bytes.now r) }
    ensures kind { IfOk result (λ r. is_decided r.ran.exit ≡ true) }
{
    match execute_text(alloc, bytes, turns) {
        Ok(run) => report_reply(alloc, run, turns, vars),
        Err(ExecuteFail::Malformed(line)) => {
            let text = counted_text(alloc, b"malformed object: line ", line.0)?;
            Ok(unplayed_reply(alloc, Exit::BadObject, text))
        }
        Err(ExecuteFail::Unverified(unit)) => {
            let text = counted_text(alloc, b"unverified: unit ", unit)?;
            Ok(unplayed_reply(alloc, Exit::Unverified, text))
        }
        Err(ExecuteFail::NoMemory) => Err(NoMemory),
    }
}
