//! Laws of images and their texts.

ghost use Rattle.std.specs.Prelude.{◌≡◌, ◌⊎◌, ℕ, List};
ghost use Rattle.fm_object.specs.Texts.{HoldsAtMostOnce, IsFirstMalformed, IsObjectText};
ghost use Rattle.fm_object.specs.declared.image.Image as declared;

/// Bytes are the text of one image, or have one first malformed line, and never both. So each answer of `read` but want
/// of memory is the only one.
pub fn one_answer()
    ensures either { (bytes : List ℕ) →
        ((i : declared.Image) × IsObjectText bytes i) ⊎ ((line : ℕ) × IsFirstMalformed bytes line) }
    ensures one_image { (bytes : List ℕ) → HoldsAtMostOnce (IsObjectText bytes) }
    ensures one_line { (bytes : List ℕ) → HoldsAtMostOnce (IsFirstMalformed bytes) }
    ensures not_both { (bytes : List ℕ) (i : declared.Image) → IsObjectText bytes i →
        (line : ℕ) → ¬ IsFirstMalformed bytes line }
{}
