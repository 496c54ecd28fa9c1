//! What options ask for, each at most once.

ghost use Rattle.std.specs.Prelude.{◌≡◌, ◌∷◌, None, Some, List, map, option_and_then, MatchOption};
ghost use Rattle.fm_words.specs.declared.option.Setting.{Setting};
ghost use Rattle.fm_words.specs.Words.{settings_of, options_of, asked, given};
ghost use Rattle.fm_words.specs.Held.{asked_with};

use crate::option::{Setting, next_option};
use fm_base::Plan;

/// What the options ask for.
#[derive(Clone, Copy)]
pub struct Settings {
    /// The bound on the cost, in turns, where it is set.
    pub turns: Option<u64>,
    /// How many workers, where it is set.
    pub workers: Option<u64>,
    /// The most steps of a piece, where it is set.
    pub slice: Option<u64>,
    /// How nodes are mapped, where it is set.
    pub plan: Option<Plan>,
    /// Whether the variables are asked for.
    pub vars: bool,
}

fn no_settings() -> Settings
    ensures { (ss : List Setting) → asked_with result ss ≡ asked (given ss) }
{
    Settings {
        turns: None,
        workers: None,
        slice: None,
        plan: None,
        vars: false,
    }
}

// With one more, or none where that option stands there already.
fn settings_with(settings: Settings, next: Setting) -> Option<Settings>
    ensures { MatchOption result ((ss : List Setting) → asked_with settings (next ∷ ss) ≡ None)
        (λ r. (ss : List Setting) → asked_with settings (next ∷ ss) ≡ asked_with r ss) }
{
    match next {
        Setting::Turns(number) => match settings.turns {
            Some(_) => None,
            None => Some(Settings {
                turns: Some(number),
                ..settings
            }),
        },
        Setting::Workers(number) => match settings.workers {
            Some(_) => None,
            None => Some(Settings {
                workers: Some(number),
                ..settings
            }),
        },
        Setting::Slice(number) => match settings.slice {
            Some(_) => None,
            None => Some(Settings {
                slice: Some(number),
                ..settings
            }),
        },
        Setting::PlanIs(named) => match settings.plan {
            Some(_) => None,
            None => Some(Settings {
                plan: Some(named),
                ..settings
            }),
        },
        Setting::Vars => if settings.vars {
            None
        } else {
            Some(Settings {
                vars: true,
                ..settings
            })
        },
    }
}

// The options so far and those that the words spell. An option that stands twice ends it, so it
// goes six deep at most.
fn options_behind(settings: Settings, words: &[&str]) -> Option<Settings>
    ensures { result ≡ option_and_then (asked_with settings) (settings_of (map (λ w. w.now) words.now)) }
{
    let Some((word, others)) = words.split_first() else {
        return Some(settings);
    };
    let (setting, behind) = next_option(word, others)?;
    options_behind(settings_with(settings, setting)?, behind)
}

/// What the words ask for, or none where they are no options or an option stands twice.
pub fn options_of(words: &[&str]) -> Option<Settings>
    ensures { result ≡ options_of (map (λ w. w.now) words.now) }
{
    options_behind(no_settings(), words)
}
