//! A list that is empty most of the time.

ghost use Rattle.std.specs.Prelude.{◌≡◌, [], ◌∷◌, ◌++◌, ◌==◌, length, OnErr, OnOk, IfOk};

use fm_base::{NoMemory, Seq};
use std::alloc::Global;
use std::marker::Model;
use std::mem::replace;

/// A list that is empty most of the time: while nothing was ever put into it, it takes less room than another list.
/// Contracts see it as the list of its items.
pub struct Rare<T> {
    items: Option<Box<Vec<T>>>,
    alloc: Global,
}

impl<T: Drop> Drop for Rare<T> {
    fn drop(self) {
        let Rare {
            items: _items,
            alloc: _alloc,
        } = self;
    }
}

impl<T> Model for Rare<T> {
    ghost use Rattle.std.specs.Prelude.{List};
    ghost use Rattle.fm_code.specs.Rares.{items_in};

    ghost Value = { List T };

    ghost view = { λ s. items_in s.items };
}

impl<T> Rare<T> {
    /// The empty list. Takes no memory.
    pub fn new(alloc: Global) -> Self
        ensures { result ≡ [] }
    {
        Rare { items: None, alloc }
    }

    /// The items.
    #[inline(always)]
    pub fn as_slice(&self) -> &[T]
        ensures { result.now ≡ self.now }
    {
        match &self.items {
            Some(items) => items.as_slice(),
            None => &[],
        }
    }

    /// The number of items.
    #[inline(always)]
    pub fn len(&self) -> usize
        ensures { result ≡ length self.now }
    {
        self.as_slice().len()
    }

    /// Whether there is no item.
    pub fn is_empty(&self) -> bool
        ensures { result ≡ (length self.now == 0) }
    {
        self.as_slice().is_empty()
    }
}

impl<T: Drop> Rare<T> {
    /// Puts an item last.
    #[inline(always)]
    pub fn push(&mut self, value: T) -> Result<(), NoMemory>
        ensures ok { OnOk result (self.new ≡ self.old ++ value ∷ []) }
        ensures err { OnErr result (self.new ≡ self.old) }
    {
        match &mut self.items {
            Some(items) => items.push(value)?,
            None => self.items = Some(one_item(self.alloc, value)?),
        }
        Ok(())
    }

    /// Puts items last.
    pub fn append(&mut self, more: Seq<T>) -> Result<(), NoMemory>
        ensures { OnOk result (self.new ≡ self.old ++ more) }
    {
        let mut more = more.into_vec();
        if more.is_empty() {
            return Ok(());
        }
        match &mut self.items {
            Some(items) => items.append(&mut more)?,
            None => self.items = Some(Box::new(self.alloc, more)?),
        }
        Ok(())
    }
}

impl<T: Drop> Rare<T> {
    /// Takes all items, and leaves none. Takes no memory.
    pub fn take(&mut self, alloc: Global) -> Seq<T>
        ensures taken { result ≡ self.old }
        ensures left { self.new ≡ [] }
    {
        match replace(&mut self.items, None) {
            Some(items) => Seq::from_vec(Box::into_inner(items)),
            None => Seq::new(alloc),
        }
    }

    /// Takes all.
    #[inline(always)]
    pub fn clear(&mut self)
        ensures { self.new ≡ [] }
    {
        match &mut self.items {
            Some(items) => items.clear(),
            None => {}
        }
    }
}

impl<T: Copy + Drop> Rare<T> {
    /// The list of a slice's items.
    pub fn from_slice(alloc: Global, items: &[T]) -> Result<Self, NoMemory>
        ensures { IfOk result (λ s. s ≡ items.now) }
    {
        if items.is_empty() {
            return Ok(Rare::new(alloc));
        }
        let items = Vec::from_slice(alloc, items)?;
        let items = Box::new(alloc, items)?;
        Ok(Rare {
            items: Some(items),
            alloc,
        })
    }
}

// A list of one item in a box.
#[cold]
#[inline(never)]
fn one_item<T: Drop>(alloc: Global, value: T) -> Result<Box<Vec<T>>, NoMemory>
    ensures { IfOk result (λ b. b.value.items ≡ value ∷ []) }
{
    let mut items = Vec::with_capacity(alloc, 1)?;
    items.push(value)?;
    Ok(Box::new(alloc, items)?)
}
