//! Values that own memory, handed on as any value: what may drop a statement by its 31 forms takes long to prove.

ghost use Rattle.std.specs.Prelude.{◌≡◌, ◌++◌, ◌∷◌, [], option_to_list, IfOk, OnOk, Ok};

use fm_base::NoMemory;

/// A value with what was made of it.
pub(crate) fn together<T: Drop, U: Drop>(
    value: T,
    other: Result<U, NoMemory>,
) -> Result<(T, U), NoMemory>
    ensures { IfOk result (λ r. (r.0 ≡ value) × (other ≡ Ok r.1)) }
{
    match other {
        Ok(other) => Ok((value, other)),
        Err(fail) => Err(fail),
    }
}

/// Puts an item last.
pub(crate) fn push<T: Drop>(items: &mut Vec<T>, item: T) -> Result<(), NoMemory>
    ensures { OnOk result (items.new.items ≡ items.old.items ++ item ∷ []) }
{
    items.push(item)?;
    Ok(())
}

/// Puts an item last, if there is one.
pub(crate) fn push_if<T: Drop>(item: Option<T>, items: &mut Vec<T>) -> Result<(), NoMemory>
    ensures { OnOk result (items.new.items ≡ items.old.items ++ option_to_list item) }
{
    match item {
        None => Ok(()),
        Some(item) => push(items, item),
    }
}

/// Puts two items last, as far as they are there.
pub(crate) fn push_both<T: Drop>(
    pair: (Option<T>, Option<T>),
    items: &mut Vec<T>,
) -> Result<(), NoMemory>
    ensures { OnOk result (items.new.items ≡ items.old.items ++ (option_to_list pair.0 ++ option_to_list pair.1)) }
{
    let (first, second) = pair;
    push_if(first, items)?;
    push_if(second, items)
}
