//! What can be said of a name.

ghost use Rattle.std.specs.Prelude.{◌≡◌};
ghost use Rattle.fm_rules.specs.Declarations.{aspect_number, clashes, is_of_variables, same_aspect};
ghost use Rattle.fm_names_declared.specs.Noted.{nothing, said_as, with_said};

use fm_rules::Aspect;

/// What was said of a name so far.
#[derive(Clone, Copy)]
pub struct Said {
    pub value: bool,
    pub port: bool,
    pub bounds: bool,
    pub intent: bool,
    pub constant: bool,
    pub formal: bool,
    pub own: bool,
}

fn number_of(aspect: Aspect) -> u8
    ensures { result ≡ aspect_number aspect }
{
    aspect as u8
}

fn is_same(left: Aspect, right: Aspect) -> bool
    ensures { result ≡ same_aspect left right }
{
    number_of(left) == number_of(right)
}

/// Nothing was said.
pub(crate) fn nothing() -> Said
    ensures { result ≡ nothing }
{
    Said {
        value: false,
        port: false,
        bounds: false,
        intent: false,
        constant: false,
        formal: false,
        own: false,
    }
}

impl Said {
    /// This, and one thing more.
    pub(crate) fn with(self, what: Aspect) -> Said
        ensures { result ≡ with_said self what }
    {
        Said {
            value: is_same(Aspect::Value, what) || self.value,
            port: is_same(Aspect::Port, what) || self.port,
            bounds: is_same(Aspect::Bounds, what) || self.bounds,
            intent: is_same(Aspect::Intent, what) || self.intent,
            constant: is_same(Aspect::Constant, what) || self.constant,
            formal: is_same(Aspect::Formal, what) || self.formal,
            own: is_same(Aspect::Own, what) || self.own,
        }
    }

    /// Whether this forbids what is said now.
    pub(crate) fn clashes(self, what: Aspect) -> bool
        ensures { result ≡ clashes (said_as self) what }
    {
        match what {
            Aspect::Value => self.value || self.port,
            Aspect::Port => self.value || self.port || self.constant || self.own,
            Aspect::Bounds => self.bounds || self.constant || self.own,
            Aspect::Intent => self.intent || !self.formal,
            Aspect::Constant => {
                self.constant || self.bounds || self.port || self.formal || self.own
            }
            Aspect::Formal => self.formal,
            Aspect::Own => false,
        }
    }
}

/// Whether it is said of variables and constants alone.
pub(crate) fn is_of_variables(what: Aspect) -> bool
    ensures { result ≡ is_of_variables what }
{
    match what {
        Aspect::Value => false,
        Aspect::Port => true,
        Aspect::Bounds => true,
        Aspect::Intent => false,
        Aspect::Constant => true,
        Aspect::Formal => true,
        Aspect::Own => false,
    }
}
