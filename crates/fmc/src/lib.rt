//! Checks and runs Fortran M programs. The call of the program is `fmc`, whose runs are played by workers of the
//! caller's; `play_choices` runs a source under a schedule of the caller's. `words` and `exit_of_call` are what each
//! program does that makes this call.
#![tactic(auto)]

mod answer;
mod call;
mod executing;
mod hosting;
mod laws;
mod listing;
mod playing;
mod replaying;
mod replies;
mod response;
mod top;

pub use answer::{Exit, Ran};
pub use call::{exit_of_call, words};
pub use laws::{
    compiled_makes_sense, exec_has_one_answer, exec_has_one_cause, exec_tells_the_run,
    replay_has_one_answer,
};
pub use top::{flow_excludes_deadlock, fmc, one_verdict, play_choices, replay_tells_the_run};
