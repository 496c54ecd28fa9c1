//! Changes of a frame.

ghost use Rattle.std.specs.Prelude.{◌≡◌, slice_set};
ghost use Rattle.fm_code.specs.Statements.{at_statement};
ghost use Rattle.fm_machine_instr.specs.Told.{changed};

use crate::statement_end::Change;
use fm_base::Seq;
use fm_code::{Frame, Trips};

/// Goes on at a statement: no reference of that one is done yet.
pub fn go_to(frame: &mut Frame, to: u32)
    ensures { frame.new ≡ at_statement frame.old to }
{
    frame.address = to;
    frame.results.clear();
}

/// Writes a word, if it is there.
pub fn write(words: &mut Seq<i64>, number: usize, word: i64)
    ensures { words.new ≡ slice_set words.old number word }
{
    if number < words.len() {
        words.set(number, word);
    }
}

fn write_trips(loops: &mut Seq<Option<Trips>>, number: usize, trips: Option<Trips>)
    ensures { loops.new ≡ slice_set loops.old number trips }
{
    if number < loops.len() {
        loops.set(number, trips);
    }
}

/// What a statement changes in its frame.
pub fn change(frame: &mut Frame, change: Change)
    ensures { frame.new ≡ at_statement (changed change frame.old) change.to }
{
    if let Some((number, word)) = change.word {
        write(&mut frame.words, number, word);
    }
    if let Some((number, trips)) = change.trips {
        write_trips(&mut frame.loops, number, Some(trips));
    }
    go_to(frame, change.to);
}
