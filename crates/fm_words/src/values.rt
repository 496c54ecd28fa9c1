//! The values of accepted words, as `clap` reads them.

ghost use Rattle.std.specs.Prelude.{◌≡◌, true, false, Some, map, codes, option_and_then, is_some, IfOk, IfErr};
ghost use Rattle.clap.specs.Words.{app_of, first_value, found_of, one_text, rows_of, with_rule};
ghost use Rattle.fm_words.specs.Words.{number_of, plan_of, options_of, make_of, numbered_of};
ghost use Rattle.fm_words.specs.Values.{bare, valued_rule, vars_rule, with_number, with_options, run_found, make_found, numbered_found};
ghost use Rattle.fm_words.specs.declared.command.Command.TheVariants as command;

use crate::command::WordsFail;
use crate::option::{number, plan_of};
use crate::settings::Settings;
use clap::{Arg, ArgAction, ArgMatches};
use std::alloc::{AllocError, Global};

// A command whose words have no name of it in front.
fn bare<'a>(alloc: Global, name: &'a str) -> clap::Command<'a>
    ensures { app_of result ≡ bare name.entry.now }
{
    clap::Command::new(alloc, name).no_binary_name(true)
}

fn with_number<'a>(
    alloc: Global,
    command: clap::Command<'a>,
) -> Result<clap::Command<'a>, AllocError>
    ensures { IfOk result (λ c. app_of c ≡ with_number (app_of command.entry)) }
{
    command.arg(Arg::new(alloc, "number"))
}

// An option that takes a value.
fn with_valued<'a>(
    alloc: Global,
    command: clap::Command<'a>,
    name: &'a str,
) -> Result<clap::Command<'a>, AllocError>
    ensures { IfOk result (λ c. app_of c ≡ with_rule (app_of command.entry) (valued_rule name.entry.now)) }
{
    command.arg(Arg::new(alloc, name).long(name))
}

fn with_vars<'a>(alloc: Global, command: clap::Command<'a>) -> Result<clap::Command<'a>, AllocError>
    ensures { IfOk result (λ c. app_of c ≡ with_rule (app_of command.entry) vars_rule) }
{
    let vars = Arg::new(alloc, "vars")
        .long("vars")
        .action(ArgAction::SetTrue);
    command.arg(vars)
}

fn with_options<'a>(
    alloc: Global,
    command: clap::Command<'a>,
) -> Result<clap::Command<'a>, AllocError>
    ensures { IfOk result (λ c. app_of c ≡ with_options (app_of command.entry)) }
{
    let command = with_valued(alloc, command, "turns")?;
    let command = with_valued(alloc, command, "workers")?;
    let command = with_valued(alloc, command, "slice")?;
    let command = with_valued(alloc, command, "plan")?;
    with_vars(alloc, command)
}

fn run_matches<'a>(alloc: Global, words: &'a [&'a str]) -> Result<ArgMatches<'a>, WordsFail>
    ensures rows { IfOk result (λ m. rows_of (found_of m) ≡ run_found (map (λ w. w.now) words.entry.now)) }
    ensures memory { IfErr result (λ e. e ≡ WordsFail.NoMemory) }
{
    let command = with_options(alloc, bare(alloc, "run"))?;
    Ok(command.try_get_matches_from(words)?)
}

fn make_matches<'a>(alloc: Global, words: &'a [&'a str]) -> Result<ArgMatches<'a>, WordsFail>
    ensures rows { IfOk result (λ m. rows_of (found_of m) ≡ make_found (map (λ w. w.now) words.entry.now)) }
    ensures memory { IfErr result (λ e. e ≡ WordsFail.NoMemory) }
{
    let command = with_number(alloc, bare(alloc, "make"))?;
    Ok(command.try_get_matches_from(words)?)
}

fn numbered_matches<'a>(alloc: Global, words: &'a [&'a str]) -> Result<ArgMatches<'a>, WordsFail>
    ensures rows { IfOk result (λ m. rows_of (found_of m) ≡ numbered_found (map (λ w. w.now) words.entry.now)) }
    ensures memory { IfErr result (λ e. e ≡ WordsFail.NoMemory) }
{
    let numbered = with_number(alloc, bare(alloc, "demo"))?;
    let command = with_options(alloc, numbered)?;
    Ok(command.try_get_matches_from(words)?)
}

fn number_in(matches: &ArgMatches<'_>, id: &str) -> Option<u64>
    ensures { result ≡ option_and_then number_of (first_value (found_of matches.now) id.now) }
{
    number(matches.get_str(id)?)
}

fn plan_in(matches: &ArgMatches<'_>, id: &str) -> Option<fm_base::Plan>
    ensures { result ≡ option_and_then plan_of (first_value (found_of matches.now) id.now) }
{
    plan_of(matches.get_str(id)?)
}

fn settings_in(matches: &ArgMatches<'_>) -> Settings
    ensures turns { result.turns ≡ option_and_then number_of (first_value (found_of matches.now) (codes "turns")) }
    ensures workers { result.workers
        ≡ option_and_then number_of (first_value (found_of matches.now) (codes "workers")) }
    ensures slice { result.slice ≡ option_and_then number_of (first_value (found_of matches.now) (codes "slice")) }
    ensures plan { result.plan ≡ option_and_then plan_of (first_value (found_of matches.now) (codes "plan")) }
    ensures vars { one_text (found_of matches.now) (codes "vars") ≡ Some (codes "true") → result.vars ≡ true }
    ensures no_vars { one_text (found_of matches.now) (codes "vars") ≡ Some (codes "false") → result.vars ≡ false }
{
    Settings {
        turns: number_in(matches, "turns"),
        workers: number_in(matches, "workers"),
        slice: number_in(matches, "slice"),
        plan: plan_in(matches, "plan"),
        vars: matches.get_flag("vars"),
    }
}

/// What the options of an accepted `run`, `trace` or `replay` ask for. `replay` takes fewer than the parser that they
/// share.
pub fn run_values(alloc: Global, words: &[&str]) -> Result<Settings, WordsFail>
    requires { is_some (options_of (map (λ w. w.now) words.now)) ≡ true }
    ensures values { IfOk result (λ s. options_of (map (λ w. w.now) words.now) ≡ Some s) }
    ensures memory { IfErr result (λ e. e ≡ WordsFail.NoMemory) }
{
    let matches = run_matches(alloc, words)?;
    Ok(settings_in(&matches))
}

/// The number of an accepted `make`.
pub fn make_values(alloc: Global, words: &[&str]) -> Result<u64, WordsFail>
    requires { is_some (make_of (map (λ w. w.now) words.now)) ≡ true }
    ensures values { IfOk result (λ n. make_of (map (λ w. w.now) words.now) ≡ Some (command.Make n)) }
    ensures memory { IfErr result (λ e. e ≡ WordsFail.NoMemory) }
{
    let matches = make_matches(alloc, words)?;
    match number_in(&matches, "number") {
        Some(number) => Ok(number),
        None => unreachable!(),
    }
}

/// The number of an accepted `demo` or `nodes`, and what its options ask for. Each takes fewer than the parser that
/// they share.
pub fn numbered_values(alloc: Global, words: &[&str]) -> Result<(u64, Settings), WordsFail>
    requires { is_some (numbered_of (map (λ w. w.now) words.now)) ≡ true }
    ensures values { IfOk result (λ r. numbered_of (map (λ w. w.now) words.now) ≡ Some r) }
    ensures memory { IfErr result (λ e. e ≡ WordsFail.NoMemory) }
{
    let matches = numbered_matches(alloc, words)?;
    match number_in(&matches, "number") {
        Some(number) => Ok((number, settings_in(&matches))),
        None => unreachable!(),
    }
}
