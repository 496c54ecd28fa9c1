//! The texts of several values, one after the other.

ghost use Rattle.std.specs.Prelude.{◌≡◌, ◌++◌, ◌∷◌, List, ℕ, OnOk, map};
ghost use Rattle.std.specs.List.{flat_map};
ghost use Rattle.fm_report.specs.Report.{spaced};

use fm_base::NoMemory;
use std::alloc::Global;

/// What has a text in a report.
pub(crate) trait HasText {
    ghost text: { Self → List ℕ };

    /// Puts it last.
    fn push_text(&self, alloc: Global, out: &mut Vec<u8>) -> Result<(), NoMemory>
        ensures { OnOk result (out.new.items ≡ out.old.items ++ text self.now) };
}

/// Puts the text of each last.
pub(crate) fn push_each<T: HasText>(
    alloc: Global,
    out: &mut Vec<u8>,
    items: &[T],
) -> Result<(), NoMemory>
    ensures { OnOk result (out.new.items ≡ out.old.items ++ flat_map T.text items.now) }
{
    'items: for item in items {
        item.push_text(alloc, out)?;
    }
    Ok(())
}

/// Puts their texts last, with a blank before each.
pub(crate) fn push_behind_blanks<T: HasText>(
    alloc: Global,
    out: &mut Vec<u8>,
    items: &[T],
) -> Result<(), NoMemory>
    ensures { OnOk result (out.new.items ≡ out.old.items ++ flat_map (λ x. 32 ∷ T.text x) items.now) }
{
    'items: for item in items {
        out.push(b' ')?;
        item.push_text(alloc, out)?;
    }
    Ok(())
}

/// Puts their texts last, with a blank between.
pub(crate) fn push_spaced<T: HasText>(
    alloc: Global,
    out: &mut Vec<u8>,
    items: &[T],
) -> Result<(), NoMemory>
    ensures { OnOk result (out.new.items ≡ out.old.items ++ spaced (map T.text items.now)) }
{
    match items.split_first() {
        Some((first, others)) => {
            first.push_text(alloc, out)?;
            push_behind_blanks::<T>(alloc, out, others)?;
            Ok(())
        }
        None => Ok(()),
    }
}
