//! What seats do.

ghost use Rattle.std.specs.Prelude.{◌≡◌, IfOk, IfErr};
ghost use mathlib.Core.List.{IsPrefix};
ghost use Rattle.fm_hub.specs.Rules.{newcomer};
ghost use Rattle.fm_hub.specs.Hubs.{IsAt, view_at, IsSeatOf, view_of, IsHeld, IsRefused, IsReleased, IsJoined, IsBusy};

use crate::handles::{Held, Hub, HubSeat};
use crate::view::{Compare, Free, Half, Shelf, Try};
use atomic_table::Refused;
use fm_base::NoMemory;
use fm_workers::KeepsHistory;
use std::alloc::Global;
use std::snapshot::Snapshot;

impl<T: KeepsHistory + Drop> Hub<T> {
    /// The table, and the first seat, which has seen its history.
    pub fn new(alloc: Global, table: T) -> Result<(Hub<T>, HubSeat<T>), (T, NoMemory)>
        ensures seat { IfOk result
            (λ r. IsSeatOf r.0 r.1 × (view_of r.1 ≡ newcomer (T.history_of table))) }
        ensures err { IfErr result (λ e. e.0 ≡ table) }
    {
        let Ok(mut slots) = Vec::with_capacity(alloc, 1) else {
            return Err((table, NoMemory));
        };
        let word = 2 * table.entries() as u64;
        let about = Snapshot::of(&table);
        slots.push_reserved(Some(table));
        match Shelf::new(alloc, &[word], slots, &about) {
            Ok((shelf, place)) => Ok((Hub { shelf }, HubSeat { place })),
            Err(Refused { mut slots }) => match slots.pop() {
                Some(Some(table)) => Err((table, NoMemory)),
                _ => unreachable!(),
            },
        }
    }

    /// A new seat, which has seen as much.
    pub fn split(&self, seat: &mut HubSeat<T>) -> HubSeat<T>
        requires { IsSeatOf self.now seat.old }
        ensures old { IsSeatOf self.now seat.new × (view_of seat.new ≡ view_of seat.old) }
        ensures new { IsSeatOf self.now result × (view_of result ≡ newcomer (view_of seat.old).seen) }
    {
        let place = self.shelf.shared.split_seat::<Half>(&mut seat.place);
        HubSeat { place }
    }

    /// Makes two seats one, which has seen what either has.
    pub fn join(&self, seat: &mut HubSeat<T>, other: HubSeat<T>)
        requires { IsSeatOf self.now seat.old × IsSeatOf self.now other }
        ensures seat { IsSeatOf self.now seat.new }
        ensures joined { IsJoined (view_of seat.old) (view_of other) (view_of seat.new) }
    {
        let HubSeat { place } = other;
        self.shelf.shared.join_seat::<Half>(&mut seat.place, place);
        self.shelf.shared.load::<Compare>(&mut seat.place, 0);
    }

    /// Takes the turn. It is refused exactly where the one step that tries for it finds an odd word, which comes back.
    pub fn hold(&self, seat: HubSeat<T>) -> Result<Held<T>, (HubSeat<T>, u64)>
        requires { IsSeatOf self.now seat }
        ensures at { IfOk result (λ h. IsAt self.now h.place) }
        ensures won { IfOk result
            (λ h. IsHeld (view_of seat) (view_at h.place) (T.history_of h.table)) }
        ensures lost { IfErr result
            (λ e. IsSeatOf self.now e.0 × IsRefused (view_of seat) (view_of e.0) e.1) }
    {
        let HubSeat { mut place } = seat;
        let found = self.shelf.shared.fetch_or::<Try>(&mut place, 0, 1);
        if found % 2 == 1 {
            return Err((HubSeat { place }, found));
        }
        match self.shelf.shared.exchange(&mut place, 0, None) {
            Some(table) => Ok(Held { place, table }),
            None => unreachable!(),
        }
    }

    /// Gives the turn back.
    pub fn release(&self, held: Held<T>) -> HubSeat<T>
        requires { IsAt self.now held.place }
        ensures seat { IsSeatOf self.now result }
        ensures released { IsReleased (view_at held.place) (view_of result) (T.history_of held.table) }
    {
        let Held { mut place, table } = held;
        let turns = table.entries() as u64;
        match self.shelf.shared.exchange(&mut place, 0, Some(table)) {
            None => {}
            Some(_) => unreachable!(),
        }
        self.shelf.shared.store::<Free>(&mut place, 0, 2 * turns);
        HubSeat { place }
    }

    /// Ends the hub. It is refused exactly where the word is odd, which comes back.
    pub fn close(self, seat: HubSeat<T>) -> Result<T, u64>
        requires { IsSeatOf self seat }
        ensures table { IfOk result (λ t. IsPrefix (view_of seat).seen (T.history_of t)) }
        ensures odd { IfErr result (λ n. IsBusy (view_of seat).seen n) }
    {
        let Hub { shelf } = self;
        let HubSeat { place } = seat;
        let mut closed = shelf.close_with(place);
        let word = closed.word(0);
        let slot = closed.take(0);
        closed.free();
        if word % 2 == 1 {
            return Err(word);
        }
        match slot {
            Some(table) => Ok(table),
            None => unreachable!(),
        }
    }
}
