//! Options and their values.

ghost use Rattle.std.specs.Prelude.{◌≡◌, ◌∷◌, ◌≤◌, map, length, None, Some, option_map, MatchOption};
ghost use Rattle.std.specs.Char.{is_ascii_digit};
ghost use Rattle.std.specs.List.{list_all};
ghost use Rattle.fm_words.specs.Words.{is_numeral, number_of, plan_of, name_of, name_and_value, setting_with, setting_of, first_and_others, settings_of};

use fm_base::Plan;

/// The most digits of a number.
const MOST_DIGITS: usize = 18;

/// An option that takes a value.
#[derive(Clone, Copy)]
pub enum OptionName {
    /// `--turns`
    Turns,
    /// `--workers`
    Workers,
    /// `--slice`
    Slice,
    /// `--plan`
    Plan,
}

/// An option as it was written, its number in range or not.
#[derive(Clone, Copy)]
pub enum Setting {
    /// The bound on the cost of the run, in turns.
    Turns(u64),
    /// How many workers there are.
    Workers(u64),
    /// The most steps of a piece.
    Slice(u64),
    /// How nodes are mapped to workers.
    PlanIs(Plan),
    /// The report has the variables of main, and the cost.
    Vars,
}

fn all_digits(bytes: &[u8]) -> bool
    ensures { result ≡ list_all is_ascii_digit bytes.now }
{
    bytes.iter().all(|byte| byte.is_ascii_digit())
}

fn is_numeral(word: &str) -> bool
    ensures { result ≡ is_numeral word.now }
{
    let digits = word.as_bytes();
    0 < digits.len() && digits.len() <= MOST_DIGITS && all_digits(digits)
}

/// The number that a word of 1 to 18 digits writes.
pub fn number(word: &str) -> Option<u64>
    ensures { result ≡ number_of word.now }
{
    if is_numeral(word) {
        word.parse().ok()
    } else {
        None
    }
}

/// The plan that a word names.
pub fn plan_of(word: &str) -> Option<Plan>
    ensures { result ≡ plan_of word.now }
{
    if word == "cyclic" {
        Some(Plan::Cyclic)
    } else if word == "block" {
        Some(Plan::Block)
    } else {
        None
    }
}

fn setting_with(name: OptionName, value: &str) -> Option<Setting>
    ensures { result ≡ setting_with name value.now }
{
    match name {
        OptionName::Turns => Some(Setting::Turns(number(value)?)),
        OptionName::Workers => Some(Setting::Workers(number(value)?)),
        OptionName::Slice => Some(Setting::Slice(number(value)?)),
        OptionName::Plan => Some(Setting::PlanIs(plan_of(value)?)),
    }
}

fn name_of(word: &str) -> Option<OptionName>
    ensures { result ≡ name_of word.now }
{
    if word == "--turns" {
        Some(OptionName::Turns)
    } else if word == "--workers" {
        Some(OptionName::Workers)
    } else if word == "--slice" {
        Some(OptionName::Slice)
    } else if word == "--plan" {
        Some(OptionName::Plan)
    } else {
        None
    }
}

fn name_and_value(word: &str) -> Option<(OptionName, &str)>
    ensures { option_map (λ p. (p.0, p.1.now)) result ≡ name_and_value word.now }
{
    if let Some(value) = word.strip_prefix("--turns=") {
        Some((OptionName::Turns, value))
    } else if let Some(value) = word.strip_prefix("--workers=") {
        Some((OptionName::Workers, value))
    } else if let Some(value) = word.strip_prefix("--slice=") {
        Some((OptionName::Slice, value))
    } else if let Some(value) = word.strip_prefix("--plan=") {
        Some((OptionName::Plan, value))
    } else {
        None
    }
}

/// The option of one word.
fn setting_of(word: &str) -> Option<Setting>
    ensures { result ≡ setting_of word.now }
{
    if word == "--vars" {
        return Some(Setting::Vars);
    }
    let (name, value) = name_and_value(word)?;
    setting_with(name, value)
}

/// The option that begins with a word, and the words behind it.
pub fn next_option<'a, 'b>(word: &str, behind: &'a [&'b str]) -> Option<(Setting, &'a [&'b str])>
    ensures { MatchOption result (settings_of (word.now ∷ map (λ w. w.now) behind.now) ≡ None)
        (λ r. (settings_of (word.now ∷ map (λ w. w.now) behind.now)
        ≡ first_and_others (Some r.0) (settings_of (map (λ w. w.now) r.1.now)))
        × (length r.1.now ≤ length behind.now)) }
{
    if let Some(name) = name_of(word) {
        let (value, behind) = behind.split_first()?;
        return Some((setting_with(name, value)?, behind));
    }
    Some((setting_of(word)?, behind))
}
