//! The rules of the language, and what a check answers.

ghost use Rattle.std.specs.Prelude.{◌≡◌, IfOk};
ghost use Rattle.fm_base.specs.Rules.{number_of, phase_of, rule_text, refusal_text};

use crate::memory::NoMemory;
use crate::name::Line;
use std::alloc::{AllocError, AllocFailed, Global};

/// A rule of the language that a program may break. The tens digit of its number is its phase.
#[derive(Clone, Copy)]
pub enum Rule {
    /// Bad character.
    E01 = 1,
    /// Bad label field.
    E02 = 2,
    /// Bad continuation.
    E03 = 3,
    /// Too many continuations.
    E04 = 4,
    /// Open character constant.
    E05 = 5,
    /// No statement of the grammar.
    E10 = 10,
    /// Number too large.
    E11 = 11,
    /// Name too long.
    E12 = 12,
    /// Statement out of place.
    E20 = 20,
    /// Unmatched block.
    E21 = 21,
    /// Label twice.
    E22 = 22,
    /// Label missing.
    E23 = 23,
    /// Jump into a block.
    E24 = 24,
    /// Wrong end of a loop.
    E25 = 25,
    /// Not exactly one PROGRAM.
    E26 = 26,
    /// Unit name twice.
    E27 = 27,
    /// No END.
    E28 = 28,
    /// Not allowed in a process block.
    E29 = 29,
    /// Declared twice.
    E30 = 30,
    /// No type.
    E31 = 31,
    /// Bad bounds.
    E32 = 32,
    /// No constant.
    E33 = 33,
    /// Too many words.
    E34 = 34,
    /// Wrong operand.
    E40 = 40,
    /// Wrong subscripts.
    E41 = 41,
    /// Wrong arguments.
    E42 = 42,
    /// Unknown unit.
    E43 = 43,
    /// Not changeable.
    E44 = 44,
    /// Recursion.
    E45 = 45,
    /// Not allowed in a function.
    E46 = 46,
    /// Port as a value.
    E50 = 50,
    /// Wrong port direction.
    E51 = 51,
    /// Wrong message list.
    E52 = 52,
    /// Port types differ.
    E53 = 53,
    /// Wrong mapping rank.
    E54 = 54,
}

impl Rule {
    /// The number of the rule, 1 to 54.
    pub fn number(self) -> u8
        ensures { result ≡ number_of self }
    {
        self as u8
    }

    /// The phase of the rule, 0 to 5. A phase is asked only where no earlier one is broken.
    pub fn phase(self) -> u8
        ensures { result ≡ phase_of self }
    {
        self.number() / 10
    }

    /// The name and the text of the rule, as a refusal has them.
    pub fn text(self) -> &'static [u8]
        ensures { result.now ≡ rule_text self }
    {
        match self {
            Rule::E01 => b"E01 bad character",
            Rule::E02 => b"E02 bad label field",
            Rule::E03 => b"E03 bad continuation",
            Rule::E04 => b"E04 too many continuations",
            Rule::E05 => b"E05 open character constant",
            Rule::E10 => b"E10 no statement of the grammar",
            Rule::E11 => b"E11 number too large",
            Rule::E12 => b"E12 name too long",
            Rule::E20 => b"E20 statement out of place",
            Rule::E21 => b"E21 unmatched block",
            Rule::E22 => b"E22 label twice",
            Rule::E23 => b"E23 label missing",
            Rule::E24 => b"E24 jump into a block",
            Rule::E25 => b"E25 wrong end of a loop",
            Rule::E26 => b"E26 not exactly one PROGRAM",
            Rule::E27 => b"E27 unit name twice",
            Rule::E28 => b"E28 no END",
            Rule::E29 => b"E29 not allowed in a process block",
            Rule::E30 => b"E30 declared twice",
            Rule::E31 => b"E31 no type",
            Rule::E32 => b"E32 bad bounds",
            Rule::E33 => b"E33 no constant",
            Rule::E34 => b"E34 too many words",
            Rule::E40 => b"E40 wrong operand",
            Rule::E41 => b"E41 wrong subscripts",
            Rule::E42 => b"E42 wrong arguments",
            Rule::E43 => b"E43 unknown unit",
            Rule::E44 => b"E44 not changeable",
            Rule::E45 => b"E45 recursion",
            Rule::E46 => b"E46 not allowed in a function",
            Rule::E50 => b"E50 port as a value",
            Rule::E51 => b"E51 wrong port direction",
            Rule::E52 => b"E52 wrong message list",
            Rule::E53 => b"E53 port types differ",
            Rule::E54 => b"E54 wrong mapping rank",
        }
    }
}

/// A rule that is broken, and the line at which it is.
#[derive(Clone, Copy)]
pub struct Refusal {
    /// The line.
    pub line: Line,
    /// The rule.
    pub rule: Rule,
}

impl Refusal {
    /// The text of a refusal: `line L: RULE TEXT` with its line feed.
    pub fn text(self, alloc: Global) -> Result<Vec<u8>, NoMemory>
        ensures { IfOk result (λ v. v.items ≡ refusal_text self) }
    {
        let mut out = Vec::from_slice(alloc, b"line ")?;
        out.extend_from_slice(self.line.0.to_string(alloc)?.as_bytes())?;
        out.extend_from_slice(b": ")?;
        out.extend_from_slice(self.rule.text())?;
        out.push(b'\n')?;
        Ok(out)
    }
}

/// Why a check gave no program.
#[derive(Clone, Copy)]
pub enum CheckFail {
    /// A rule is broken: the least one.
    Refused(Refusal),
    /// Memory was asked for and not found.
    NoMemory,
}

impl From<NoMemory> for CheckFail {
    ghost use Rattle.std.specs.Prelude.{◌≡◌};
    ghost use Rattle.fm_base.specs.declared.rule.CheckFail.TheVariants as fails;

    ghost from_gives = { λ _ e. e ≡ fails.NoMemory };

    fn from(_error: NoMemory) -> CheckFail {
        CheckFail::NoMemory
    }
}

impl From<AllocError> for CheckFail {
    ghost use Rattle.std.specs.Prelude.{◌≡◌};
    ghost use Rattle.fm_base.specs.declared.rule.CheckFail.TheVariants as fails;

    ghost from_gives = { λ _ e. e ≡ fails.NoMemory };

    fn from(_error: AllocError) -> CheckFail {
        CheckFail::NoMemory
    }
}

impl<T: Drop> From<AllocFailed<T>> for CheckFail {
    ghost use Rattle.std.specs.Prelude.{◌≡◌};
    ghost use Rattle.fm_base.specs.declared.rule.CheckFail.TheVariants as fails;

    ghost from_gives = { λ _ e. e ≡ fails.NoMemory };

    fn from(_failed: AllocFailed<T>) -> CheckFail {
        CheckFail::NoMemory
    }
}
