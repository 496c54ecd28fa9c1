//! The hub, and its seats.

ghost use Rattle.std.specs.Prelude.{◌≡◌, [], ◌∷◌, None, Some};
ghost use Rattle.fm_hub.specs.Histories.{Began};

use crate::view::{Place, Shelf};
use fm_workers::KeepsHistory;

/// A table that its seats take turns at.
#[derive(Drop)]
pub struct Hub<T: KeepsHistory> {
    pub(crate) shelf: Shelf<T>,
    ghost one_word: { shelf.shared.table_id.words ≡ 1 },
    ghost one_slot: { shelf.shared.table_id.slots ≡ 1 },
}

/// A seat that doesn't have the turn.
#[derive(Drop)]
pub struct HubSeat<T> {
    pub(crate) place: Place<T>,
    ghost bare: { place.me.1 ≡ [] },
    ghost waits: { place.me.0.held ≡ None },
    ghost untold: { place.me.0.told ≡ [] },
}

/// A seat that has the turn, and the table, whose history begins with that at which the turn was won. `Hub::release`
/// takes it.
pub struct Held<T: KeepsHistory> {
    pub(crate) place: Place<T>,
    pub(crate) table: T,
    ghost out: { place.me.1 ≡ (0, None) ∷ [] },
    ghost began: { Began place.me.0.held (T.history_of table) },
    ghost untold: { place.me.0.told ≡ [] },
}
