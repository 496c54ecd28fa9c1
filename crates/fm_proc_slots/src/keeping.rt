//! Which ports stay with a process that ends.

ghost use Rattle.std.specs.Prelude.{◌≡◌, true};
ghost use Rattle.fm_proc_language.specs.Frames.{is_kept};
ghost use Rattle.fm_proc_slots.specs.Keeps.{begins_before, kept_one, rise};

use fm_code::{Formal, Span, front};

/// Whether the ports of a span are those of a formal, and stay.
fn kept_one(formal: Formal, span: Span) -> bool
    ensures { result ≡ kept_one formal span.first }
{
    formal.port && !formal.input && formal.span.first == span.first
}

/// Whether the ports of a span stay: each formal is looked at.
fn is_among(formals: &[Formal], span: Span) -> bool
    ensures { result ≡ is_kept formals.now span }
{
    'formals: for formal in formals {
        if kept_one(*formal, span) {
            return true;
        }
    }
    false
}

/// Whether the ports of a span stay, where each formal begins before the next one: of those that are left half is left
/// out.
fn is_found(formals: &[Formal], span: Span) -> bool
    requires { rise formals.now ≡ true }
    ensures { result ≡ is_kept formals.now span }
{
    let (low, from) = formals.split_at(formals.len() / 2);
    match front(from) {
        None => false,
        Some((formal, high)) => {
            if span.first < formal.span.first {
                is_found(low, span)
            } else if formal.span.first < span.first {
                is_found(high, span)
            } else {
                kept_one(formal, span)
            }
        }
    }
}

/// Whether a formal begins before the first of these, if there is one.
fn begins_before(formal: Formal, behind: &[Formal]) -> bool
    ensures { result ≡ begins_before formal behind.now }
{
    match front(behind) {
        None => true,
        Some((next, _)) => formal.span.first < next.span.first,
    }
}

/// Whether each formal begins before the next one.
pub fn rise(formals: &[Formal]) -> bool
    ensures { result ≡ rise formals.now }
{
    let mut rest = formals;
    'formals: while let Some((formal, behind)) = front(rest) {
        if !begins_before(formal, behind) {
            return false;
        }
        rest = behind;
    }
    true
}

/// Whether the ports of a span stay, where it may be known that each formal begins before the next one. Takes no
/// memory.
pub fn is_kept(formals: &[Formal], rising: bool, span: Span) -> bool
    requires { rising ≡ true → rise formals.now ≡ true }
    ensures { result ≡ is_kept formals.now span }
{
    if rising {
        is_found(formals, span)
    } else {
        is_among(formals, span)
    }
}
