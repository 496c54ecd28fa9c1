//! The first byte of a text.

ghost use Rattle.std.specs.Prelude.{◌≡◌, ◌∷◌, [], MatchOption};

/// The first byte, and what stands behind it.
pub fn front(text: &[u8]) -> Option<(u8, &[u8])>
    ensures { MatchOption result (text.now ≡ []) (λ p. text.now ≡ p.0 ∷ p.1.now) }
{
    let (first, behind) = text.split_first()?;
    Some((*first, behind))
}
