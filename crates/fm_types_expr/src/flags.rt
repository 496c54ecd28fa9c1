//! Which rules a judgement finds broken.

ghost use Rattle.std.specs.Prelude.{◌≡◌};
ghost use Rattle.fm_rules.specs.Flags.{both, e40, e41, e42, e43, e44, e46, e50, no_flags};

use fm_rules::Flags;

/// Nothing is broken.
pub fn no_flags() -> Flags
    ensures { result ≡ no_flags }
{
    Flags {
        e40: false,
        e41: false,
        e42: false,
        e43: false,
        e44: false,
        e46: false,
        e50: false,
    }
}

/// What is broken by the one or by the other.
pub fn both(a: Flags, b: Flags) -> Flags
    ensures { result ≡ both a b }
{
    Flags {
        e40: a.e40 || b.e40,
        e41: a.e41 || b.e41,
        e42: a.e42 || b.e42,
        e43: a.e43 || b.e43,
        e44: a.e44 || b.e44,
        e46: a.e46 || b.e46,
        e50: a.e50 || b.e50,
    }
}

/// A wrong operand, where `broken`.
pub fn e40(broken: bool) -> Flags
    ensures { result ≡ e40 broken }
{
    Flags {
        e40: broken,
        ..no_flags()
    }
}

/// Wrong subscripts, where `broken`.
pub fn e41(broken: bool) -> Flags
    ensures { result ≡ e41 broken }
{
    Flags {
        e41: broken,
        ..no_flags()
    }
}

/// Wrong arguments, where `broken`.
pub fn e42(broken: bool) -> Flags
    ensures { result ≡ e42 broken }
{
    Flags {
        e42: broken,
        ..no_flags()
    }
}

/// An unknown unit, where `broken`.
pub fn e43(broken: bool) -> Flags
    ensures { result ≡ e43 broken }
{
    Flags {
        e43: broken,
        ..no_flags()
    }
}

/// A target that is not changeable, where `broken`.
pub fn e44(broken: bool) -> Flags
    ensures { result ≡ e44 broken }
{
    Flags {
        e44: broken,
        ..no_flags()
    }
}

/// What is not allowed in a function, where `broken`.
pub fn e46(broken: bool) -> Flags
    ensures { result ≡ e46 broken }
{
    Flags {
        e46: broken,
        ..no_flags()
    }
}

/// A port as a value, where `broken`.
pub fn e50(broken: bool) -> Flags
    ensures { result ≡ e50 broken }
{
    Flags {
        e50: broken,
        ..no_flags()
    }
}
