//! A trace: the text of a kept schedule with its turns and its program. It is written after a run, kept in a file, and
//! read again to play the very same schedule.
//!
//! Form 2, in which traces are written, has these lines, and then the program's bytes to the end:
//!
//! ```text
//! fmc trace 2
//! turns T             the bound on the run's cost, 1 to 1,000,000,000
//! lines N             how many lines of entries follow, 0 to 1,000,000,001
//! NUMBER STEPS        an entry: STEPS steps, 1 to 4,294,967,295, of the process whose place in the order of starting
//!                     is NUMBER, 0 to 4,294,967,295, where main is 0
//! NUMBER STEPS TIMES  the same entry TIMES times in succession, 2 to 1,000,000,001
//! source
//! ```
//!
//! Two lines in succession are of different entries, and all lines together stand for at most 1,000,000,001 entries.
//!
//! Form 1 is read too. Its first line is `fmc trace 1`, its third `entries N`, and it has a line `NUMBER STEPS` for
//! each entry, also where the one before is the same.
//!
//! Numbers are decimal without zeros in front, one blank stands between two, and each line up to `source` ends with a
//! line feed alone. So a trace has one text in each form that has lines for its entries, and a text one trace. The
//! program may be empty. Of bytes that are no trace's text, one line is the first that is malformed: the lines before
//! it begin some trace's text, and with it they begin none.
#![tactic(auto)]

mod fail;
mod laws;
mod lines;
mod numerals;
mod reading;
mod trace;
mod writing;

pub use fail::TraceFail;
pub use laws::{one_answer, one_history};
pub use reading::read;
pub use trace::{Form, Run, Trace};
pub use writing::write;
