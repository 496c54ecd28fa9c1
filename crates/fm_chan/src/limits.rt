//! Limits of a receive.

ghost use Rattle.std.specs.Prelude.{◌≡◌, ℤ, ◌∷◌, [], map};
ghost use Rattle.fm_base.specs.Channels as base;
ghost use Rattle.fm_base.specs.Channels.{Words, item_length, is_within, fits_limits};
ghost use Rattle.fm_chan.specs.Items.{plain_item};

use crate::message::{Content, Item, Message};

/// What a receive takes at most. Contracts see it as the list of the limits (`most`), which stand for the
/// items from the first on: `None`, and an item behind the last, have none.
pub trait Limits {
    ghost most: { Self → base.Limits };

    /// Whether no item of a message has more elements than its limit.
    fn fits(&self, message: &Message) -> bool
        ensures { result ≡ fits_limits (most self.now) message.now };
}

fn item_length(item: &Item) -> usize
    ensures { result ≡ item_length (plain_item item.now) }
{
    match item {
        Item::Words(words) => words.len(),
        Item::Ports(ports) => ports.len(),
    }
}

/// Whether an item has no more elements than its limit.
pub fn is_within(limit: Option<u32>, item: &Item) -> bool
    ensures { result ≡ is_within limit (plain_item item.now) }
{
    match limit {
        None => true,
        Some(most) => item_length(item) <= most as usize,
    }
}

/// Whether an item of one word has no more elements than its limit.
pub fn word_is_within(limit: Option<u32>) -> bool
    ensures { (word : ℤ) → result ≡ is_within limit (Words (word ∷ [])) }
{
    match limit {
        None => true,
        Some(most) => 1 <= most,
    }
}

fn word_fits(limits: &[Option<u32>]) -> bool
    ensures { (word : ℤ) → result ≡ fits_limits limits.now (Words (word ∷ []) ∷ []) }
{
    match limits.split_first() {
        Some((limit, _)) => word_is_within(*limit),
        None => true,
    }
}

fn items_fit(limits: &[Option<u32>], items: &[Item]) -> bool
    ensures { result ≡ fits_limits limits.now (map plain_item items.now) }
{
    let mut limits = limits;
    let mut items = items;
    'limits: loop {
        let (limit, later) = match limits.split_first() {
            Some(parts) => parts,
            None => return true,
        };
        let (item, behind) = match items.split_first() {
            Some(parts) => parts,
            None => return true,
        };
        if !is_within(*limit, item) {
            return false;
        }
        limits = later;
        items = behind;
    }
}

impl Limits for &[Option<u32>] {
    ghost most = { λ limits. limits.now };

    fn fits(&self, message: &Message) -> bool {
        match &message.content {
            Content::Word(_) => word_fits(self),
            Content::Items(items) => items_fit(self, items.as_slice()),
        }
    }
}
