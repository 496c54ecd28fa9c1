//! The command that words are.

ghost use Rattle.std.specs.Prelude.{◌≡◌, Some, map, is_none, MatchResult};
ghost use Rattle.fm_words.specs.Words.{run_with, trace_with, replay_with, has_vars_only, has_no_threads, has_turns_only, demo_with, nodes_with, exec_with, alone, run_of, trace_of, replay_of, exec_of, make_of, numbered_of, demo_of, nodes_of, command_of};
ghost use Rattle.fm_words.specs.Fails.{is_usage, IsCause};

use crate::option::number;
use crate::settings::{Settings, options_of};
use crate::setup::setup_of;
use crate::values::{make_values, numbered_values, run_values};
use fm_base::Setup;
use std::alloc::{AllocError, Global};
use thiserror::Error;

/// What the words ask for.
#[derive(Clone, Copy, Debug, PartialEq, Eq)]
pub enum Command {
    /// Checks a program, runs it and writes its report.
    Run {
        /// How the run is set up.
        setup: Setup,
        /// Whether the report has the variables of main, and the cost.
        vars: bool,
    },
    /// Checks a program, runs it and writes the trace of its run.
    Trace {
        /// How the run is set up.
        setup: Setup,
    },
    /// Reads a trace, plays its entries and writes the report.
    Replay {
        /// Whether the report has the variables of main, and the cost.
        vars: bool,
    },
    /// Checks a program and says whether it is deterministic.
    Check,
    /// Checks a program and lists it.
    List,
    /// Checks a program and says whether it may deadlock.
    Flow,
    /// Checks a program and writes its object text.
    Compile,
    /// Reads an object text, runs its image and writes the report.
    Exec {
        /// The most that the run may cost, 1 to 1,000,000,000.
        turns: u64,
        /// Whether the report has the variables of main, and the cost.
        vars: bool,
    },
    /// Writes a generated program.
    Make {
        /// The number of the program, below 10 to the 18.
        number: u64,
    },
    /// Runs a generated program and writes a summary.
    Demo {
        /// The number of the program, below 10 to the 18.
        number: u64,
        /// How the run is set up.
        setup: Setup,
    },
    /// Checks a program, runs it on hosts whose channels go over links, and writes its report.
    Nodes {
        /// The seed of the network, below 10 to the 18.
        number: u64,
        /// How the run is set up.
        setup: Setup,
        /// Whether the report has the variables of main, and the cost.
        vars: bool,
    },
}

/// Why words give no command.
#[derive(Clone, Copy, Debug, Drop, PartialEq, Eq, Error)]
pub enum WordsFail {
    /// The words aren't in the command set.
    #[error("the words are no command")]
    Usage,
    /// Memory was asked for and not found.
    #[error("no memory was found")]
    NoMemory,
}

impl From<AllocError> for WordsFail {
    ghost use Rattle.std.specs.Prelude.{◌≡◌};
    ghost use Rattle.fm_words.specs.declared.command.WordsFail.TheVariants as fails;

    ghost from_gives = { λ _ e. e ≡ fails.NoMemory };

    fn from(_error: AllocError) -> WordsFail {
        WordsFail::NoMemory
    }
}

// The words were tested before, so no cause but memory is left.
impl From<clap::Error> for WordsFail {
    ghost use Rattle.std.specs.Prelude.{◌≡◌};
    ghost use Rattle.fm_words.specs.declared.command.WordsFail.TheVariants as fails;

    ghost from_gives = { λ _ e. e ≡ fails.NoMemory };

    fn from(_error: clap::Error) -> WordsFail {
        WordsFail::NoMemory
    }
}

fn run_with(settings: Settings) -> Option<Command>
    ensures { result ≡ run_with settings }
{
    Some(Command::Run {
        setup: setup_of(settings)?,
        vars: settings.vars,
    })
}

// A trace is the same whether the variables are asked for or not.
fn trace_with(settings: Settings) -> Option<Command>
    ensures { result ≡ trace_with settings }
{
    Some(Command::Trace {
        setup: setup_of(settings)?,
    })
}

// Whether nothing is asked for but the variables, or nothing at all.
fn has_vars_only(settings: Settings) -> bool
    ensures { result ≡ has_vars_only settings }
{
    settings.turns.is_none()
        && settings.workers.is_none()
        && settings.slice.is_none()
        && settings.plan.is_none()
}

fn replay_with(settings: Settings) -> Option<Command>
    ensures { result ≡ replay_with settings }
{
    if has_vars_only(settings) {
        Some(Command::Replay {
            vars: settings.vars,
        })
    } else {
        None
    }
}

fn demo_with(number: u64, settings: Settings) -> Option<Command>
    ensures { result ≡ demo_with number settings }
{
    if settings.vars {
        return None;
    }
    Some(Command::Demo {
        number,
        setup: setup_of(settings)?,
    })
}

// Whether no threads and no pieces are asked for: `nodes` has one thread and takes its steps one by one.
fn has_no_threads(settings: Settings) -> bool
    ensures { result ≡ has_no_threads settings }
{
    settings.workers.is_none() && settings.slice.is_none()
}

fn nodes_with(number: u64, settings: Settings) -> Option<Command>
    ensures { result ≡ nodes_with number settings }
{
    if has_no_threads(settings) {
        Some(Command::Nodes {
            number,
            setup: setup_of(settings)?,
            vars: settings.vars,
        })
    } else {
        None
    }
}

// Whether nothing of the setup is asked for but the turns: `exec` has one thread, and pieces of its own.
fn has_turns_only(settings: Settings) -> bool
    ensures { result ≡ has_turns_only settings }
{
    has_no_threads(settings) && settings.plan.is_none()
}

fn exec_with(settings: Settings) -> Option<Command>
    ensures { result ≡ exec_with settings }
{
    if has_turns_only(settings) {
        let setup = setup_of(settings)?;
        Some(Command::Exec {
            turns: setup.turns,
            vars: settings.vars,
        })
    } else {
        None
    }
}

fn alone(command: Command, words: &[&str]) -> Result<Command, WordsFail>
    ensures { MatchResult result (λ c. alone command (map (λ w. w.now) words.now) ≡ Some c)
        (λ e. is_usage e ≡ is_none (alone command (map (λ w. w.now) words.now))) }
{
    if words.is_empty() {
        Ok(command)
    } else {
        Err(WordsFail::Usage)
    }
}

fn make_of(words: &[&str]) -> Option<Command>
    ensures { result ≡ make_of (map (λ w. w.now) words.now) }
{
    let (word, behind) = words.split_first()?;
    if behind.is_empty() {
        Some(Command::Make {
            number: number(word)?,
        })
    } else {
        None
    }
}

// A number and options behind it.
fn numbered_of(words: &[&str]) -> Option<(u64, Settings)>
    ensures { result ≡ numbered_of (map (λ w. w.now) words.now) }
{
    let (word, behind) = words.split_first()?;
    let number = number(word)?;
    Some((number, options_of(behind)?))
}

fn demo_of(words: &[&str]) -> Option<Command>
    ensures { result ≡ demo_of (map (λ w. w.now) words.now) }
{
    let (number, settings) = numbered_of(words)?;
    demo_with(number, settings)
}

fn nodes_of(words: &[&str]) -> Option<Command>
    ensures { result ≡ nodes_of (map (λ w. w.now) words.now) }
{
    let (number, settings) = numbered_of(words)?;
    nodes_with(number, settings)
}

fn run_of(words: &[&str]) -> Option<Command>
    ensures { result ≡ run_of (map (λ w. w.now) words.now) }
{
    run_with(options_of(words)?)
}

fn trace_of(words: &[&str]) -> Option<Command>
    ensures { result ≡ trace_of (map (λ w. w.now) words.now) }
{
    trace_with(options_of(words)?)
}

fn replay_of(words: &[&str]) -> Option<Command>
    ensures { result ≡ replay_of (map (λ w. w.now) words.now) }
{
    replay_with(options_of(words)?)
}

fn exec_of(words: &[&str]) -> Option<Command>
    ensures { result ≡ exec_of (map (λ w. w.now) words.now) }
{
    exec_with(options_of(words)?)
}

fn run(alloc: Global, words: &[&str]) -> Result<Command, WordsFail>
    ensures { MatchResult result (λ c. run_of (map (λ w. w.now) words.now) ≡ Some c)
        (λ e. is_usage e ≡ is_none (run_of (map (λ w. w.now) words.now))) }
{
    if run_of(words).is_none() {
        return Err(WordsFail::Usage);
    }
    match run_with(run_values(alloc, words)?) {
        Some(command) => Ok(command),
        None => unreachable!(),
    }
}

fn trace(alloc: Global, words: &[&str]) -> Result<Command, WordsFail>
    ensures { MatchResult result (λ c. trace_of (map (λ w. w.now) words.now) ≡ Some c)
        (λ e. is_usage e ≡ is_none (trace_of (map (λ w. w.now) words.now))) }
{
    if trace_of(words).is_none() {
        return Err(WordsFail::Usage);
    }
    match trace_with(run_values(alloc, words)?) {
        Some(command) => Ok(command),
        None => unreachable!(),
    }
}

fn replay(alloc: Global, words: &[&str]) -> Result<Command, WordsFail>
    ensures { MatchResult result (λ c. replay_of (map (λ w. w.now) words.now) ≡ Some c)
        (λ e. is_usage e ≡ is_none (replay_of (map (λ w. w.now) words.now))) }
{
    if replay_of(words).is_none() {
        return Err(WordsFail::Usage);
    }
    match replay_with(run_values(alloc, words)?) {
        Some(command) => Ok(command),
        None => unreachable!(),
    }
}

fn exec(alloc: Global, words: &[&str]) -> Result<Command, WordsFail>
    ensures { MatchResult result (λ c. exec_of (map (λ w. w.now) words.now) ≡ Some c)
        (λ e. is_usage e ≡ is_none (exec_of (map (λ w. w.now) words.now))) }
{
    if exec_of(words).is_none() {
        return Err(WordsFail::Usage);
    }
    match exec_with(run_values(alloc, words)?) {
        Some(command) => Ok(command),
        None => unreachable!(),
    }
}

fn make(alloc: Global, words: &[&str]) -> Result<Command, WordsFail>
    ensures { MatchResult result (λ c. make_of (map (λ w. w.now) words.now) ≡ Some c)
        (λ e. is_usage e ≡ is_none (make_of (map (λ w. w.now) words.now))) }
{
    if make_of(words).is_none() {
        return Err(WordsFail::Usage);
    }
    let number = make_values(alloc, words)?;
    Ok(Command::Make { number })
}

fn demo(alloc: Global, words: &[&str]) -> Result<Command, WordsFail>
    ensures { MatchResult result (λ c. demo_of (map (λ w. w.now) words.now) ≡ Some c)
        (λ e. is_usage e ≡ is_none (demo_of (map (λ w. w.now) words.now))) }
{
    if demo_of(words).is_none() {
        return Err(WordsFail::Usage);
    }
    let (number, settings) = numbered_values(alloc, words)?;
    match demo_with(number, settings) {
        Some(command) => Ok(command),
        None => unreachable!(),
    }
}

fn nodes(alloc: Global, words: &[&str]) -> Result<Command, WordsFail>
    ensures { MatchResult result (λ c. nodes_of (map (λ w. w.now) words.now) ≡ Some c)
        (λ e. is_usage e ≡ is_none (nodes_of (map (λ w. w.now) words.now))) }
{
    if nodes_of(words).is_none() {
        return Err(WordsFail::Usage);
    }
    let (number, settings) = numbered_values(alloc, words)?;
    match nodes_with(number, settings) {
        Some(command) => Ok(command),
        None => unreachable!(),
    }
}

/// The command that the words after the program's name are. `Usage` comes exactly where they aren't
/// in the command set, and `NoMemory` never comes for words that aren't. Linear in the number of
/// words.
pub fn words(alloc: Global, words: &[&str]) -> Result<Command, WordsFail>
    ensures { MatchResult result (λ c. command_of (map (λ w. w.now) words.now) ≡ Some c)
        (IsCause (map (λ w. w.now) words.now)) }
{
    let Some((first, behind)) = words.split_first() else {
        return Err(WordsFail::Usage);
    };
    if *first == "run" {
        run(alloc, behind)
    } else if *first == "trace" {
        trace(alloc, behind)
    } else if *first == "replay" {
        replay(alloc, behind)
    } else if *first == "check" {
        alone(Command::Check, behind)
    } else if *first == "list" {
        alone(Command::List, behind)
    } else if *first == "make" {
        make(alloc, behind)
    } else if *first == "demo" {
        demo(alloc, behind)
    } else if *first == "flow" {
        alone(Command::Flow, behind)
    } else if *first == "compile" {
        alone(Command::Compile, behind)
    } else if *first == "exec" {
        exec(alloc, behind)
    } else if *first == "nodes" {
        nodes(alloc, behind)
    } else {
        Err(WordsFail::Usage)
    }
}
