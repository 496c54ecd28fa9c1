//! Two seats of a hub in one thread: who finds the turn taken is refused, and what is played stays.

use crate::table::Table;
use fm_hub::Hub;
use fm_workers::{Given, KeepsHistory, Phase, SharedTable};
use std::test::Fail;

#[test]
fn two_seats(rt: HostRuntime) -> Result<(), Fail> {
    let alloc = rt.alloc();
    let Ok((hub, mut seat)) = Hub::new(alloc, Table::new(alloc, 1, 1)?) else {
        panic!(rt; "no memory")
    };
    let other = hub.split(&mut seat);
    let Ok(mut held) = hub.hold(seat) else {
        panic!(rt; "refused")
    };
    let (other, word) = match hub.hold(other) {
        Ok(second) => (hub.release(second), 0),
        Err(refused) => refused,
    };
    assert_eq!(rt; word, 1);
    let Ok(Some(piece)) = held.take(alloc, 0) else {
        panic!(rt; "no piece")
    };
    let Ok(done) = Table::advance(alloc, piece) else {
        panic!(rt; "no memory")
    };
    let Ok(given) = held.give(alloc, done) else {
        panic!(rt; "no memory")
    };
    assert_eq!(rt; given, Given::Played);
    let mut seat = hub.release(held);
    let Ok(held) = hub.hold(other) else {
        panic!(rt; "refused")
    };
    assert_eq!(rt; held.phase(), Phase::Ended);
    let other = hub.release(held);
    hub.join(&mut seat, other);
    let Ok(table) = hub.close(seat) else {
        panic!(rt; "refused")
    };
    assert_eq!(rt; table.entries(), 1);
    assert_eq!(rt; table.turns[0].number, 0);
    assert_eq!(rt; table.turns[0].steps, 2);
    Ok(())
}
