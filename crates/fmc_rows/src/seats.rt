//! Two seats of a hub over the table of a run, in one thread: who finds the turn taken is refused, and what is played
//! stays.

use crate::workers::least_table;
use fm_hub::Hub;
use fm_workers::{Given, Phase};
use std::test::Fail;

#[test]
fn two_seats(rt: HostRuntime) -> Result<(), Fail> {
    let alloc = rt.alloc();
    let Some(table) = least_table(alloc)? else {
        panic!(rt; "refused")
    };
    let Ok((hub, mut seat)) = Hub::new(alloc, table) else {
        panic!(rt; "no memory")
    };
    let other = hub.split(&mut seat);
    let Ok(mut held) = hub.hold(seat) else {
        panic!(rt; "refused")
    };
    let (other, word) = match hub.hold(other) {
        Ok(second) => (hub.release(second), 0),
        Err(refused) => refused,
    };
    assert_eq!(rt; word, 1);
    let Ok(Some(piece)) = held.take(alloc, 0) else {
        panic!(rt; "no piece")
    };
    let Ok(done) = piece.advance(alloc) else {
        panic!(rt; "no memory")
    };
    let Ok(given) = held.give(alloc, done) else {
        panic!(rt; "no memory")
    };
    assert_eq!(rt; given, Given::Played);
    let mut seat = hub.release(held);
    let Ok(held) = hub.hold(other) else {
        panic!(rt; "refused")
    };
    assert_eq!(rt; held.phase(), Phase::Ended);
    let other = hub.release(held);
    hub.join(&mut seat, other);
    let Ok(table) = hub.close(seat) else {
        panic!(rt; "refused")
    };
    let turns = table.history().copied(alloc)?;
    assert_eq!(rt; turns.len(), 1);
    assert_eq!(rt; turns[0].number, 0);
    assert_eq!(rt; turns[0].steps, 2);
    Ok(())
}
