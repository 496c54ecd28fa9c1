//! The words of a call, and its exit, whoever plays what is run: what the programs that differ in their workers alone
//! have in common.

ghost use Rattle.std.specs.Prelude.{◌≡◌, ◌≢◌, [], map, false, string_bytes, IfErr, IfOk};
ghost use Rattle.std.specs.IoError.{error_kind};
ghost use Rattle.fm_io.specs.Causes.{Rose};
ghost use Rattle.fm_words.specs.Words.{command_of};
ghost use Rattle.fmc.specs.Answer.{are_reading};
ghost use Rattle.fmc.specs.Calling.{AnswersCall, LacksMemory};

use crate::answer::Exit;
use crate::top::fmc;
use fm_io::{Sink, Source, WriteFail, write_all};
use fm_table::Table;
use fm_workers::Workers;
use std::alloc::{AllocError, Global};
use std::io::ErrorKind;
use std::rt::Env;
use std::{env, io};

/// The words after the program's name. `InvalidData` where one isn't UTF-8.
pub fn words<R: Env + AllocGlobal>(rt: &R) -> io::Result<Vec<String>> {
    let mut words = Vec::new(rt.alloc());
    'words: for (i, word) in env::args(rt)?.enumerate() {
        if 0 < i {
            words.push(word)?;
        }
    }
    Ok(words)
}

fn views<'a>(alloc: Global, words: &'a [String]) -> Result<Vec<&'a str>, AllocError>
    ensures { IfOk result (λ v. map (λ w. w.now) v.items ≡ map string_bytes words.now) }
{
    let mut views = Vec::new(alloc);
    'words: for word in words {
        views.push(word.as_str())?;
    }
    Ok(views)
}

// The exit where memory is wanting while the words are read, and its text.
fn without_memory<K: Sink>(sink: &mut K) -> Exit
    ensures answers { LacksMemory result (K.written sink.old) (K.written sink.new) }
    ensures flushed { result ≢ Exit.WriteFault → K.flushed sink.new }
    ensures read_fault { result ≢ Exit.ReadFault }
    ensures write_fault { result ≡ Exit.WriteFault → Rose (K.faults sink.old) (K.faults sink.new) }
{
    match write_all(sink, b"no memory\n") {
        Ok(()) => Exit::NoMemory,
        Err(WriteFail) => Exit::WriteFault,
    }
}

// The exit of a call whose words are all UTF-8.
fn answered<S: Source, K: Sink, W: Workers<Table>>(
    alloc: Global,
    words: &[String],
    source: &mut S,
    sink: &mut K,
    workers: &W,
) -> Exit
    requires { W.crosses }
    ensures answers { AnswersCall (map string_bytes words.now) result (S.faults source.old) (S.faults source.new)
        (S.left source.old) (S.left source.new) (K.written sink.old) (K.written sink.new) }
    ensures unread { are_reading (command_of (map string_bytes words.now)) ≡ false → source.new ≡ source.old }
    ensures flushed { result ≢ Exit.WriteFault → K.flushed sink.new }
    ensures read_fault { result ≡ Exit.ReadFault → Rose (S.faults source.old) (S.faults source.new) }
    ensures write_fault { result ≡ Exit.WriteFault → Rose (K.faults sink.old) (K.faults sink.new) }
{
    match views(alloc, words) {
        Ok(views) => fmc(alloc, &views, source, sink, workers).exit,
        Err(AllocError) => without_memory(sink),
    }
}

/// The exit of a call with these words, which writes one text, and whose runs these workers play: what `fmc` answers
/// for them, or that no memory was found for them. A fault is told only where the source or the sink failed in this
/// call.
pub fn exit_of_call<S: Source, K: Sink, W: Workers<Table>>(
    alloc: Global,
    words: io::Result<Vec<String>>,
    source: &mut S,
    sink: &mut K,
    workers: &W,
) -> Exit
    requires { W.crosses }
    // Exit and text are those of these very words.
    ensures answers { IfOk words (λ ws. AnswersCall (map string_bytes ws.items) result (S.faults source.old)
        (S.faults source.new) (S.left source.old) (S.left source.new) (K.written sink.old) (K.written sink.new)) }
    ensures unread { IfOk words
        (λ ws. are_reading (command_of (map string_bytes ws.items)) ≡ false → source.new ≡ source.old) }
    // Words that aren't UTF-8 are answered as no words, which are no command; where they couldn't be had, memory was
    // wanting.
    ensures unspelt { IfErr words (λ e. AnswersCall [] result (S.faults source.old) (S.faults source.new)
        (S.left source.old) (S.left source.new) (K.written sink.old) (K.written sink.new)) }
    ensures lacking { IfErr words
        (λ e. error_kind e ≢ ErrorKind.InvalidData → LacksMemory result (K.written sink.old) (K.written sink.new)) }
    ensures no_words { IfErr words (λ e. source.new ≡ source.old) }
    ensures flushed { result ≢ Exit.WriteFault → K.flushed sink.new }
    ensures read_fault { result ≡ Exit.ReadFault → Rose (S.faults source.old) (S.faults source.new) }
    ensures write_fault { result ≡ Exit.WriteFault → Rose (K.faults sink.old) (K.faults sink.new) }
{
    match words {
        Ok(words) => answered(alloc, &words, source, sink, workers),
        Err(error) => {
            if error.kind() == ErrorKind::InvalidData {
                // No command has a word that isn't UTF-8, and none has no words.
                answered(alloc, &[], source, sink, workers)
            } else {
                without_memory(sink)
            }
        }
    }
}
