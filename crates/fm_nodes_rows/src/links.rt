//! The two ends of a link by hand: a packet that comes early, in its turn, and once more; the end behind a message.

use fm_base::{NoMemory, Seq};
use fm_link::{Arrived, Inbox, Load, Outbox};
use std::alloc::Global;
use std::process::Abort;
use std::test::Fail;

// A message of one word.
fn message(alloc: Global, word: i64) -> Result<Load, NoMemory> {
    let mut items = Seq::new(alloc);
    items.push(Seq::from_slice(alloc, &[word])?)?;
    Ok(Load::Words(items))
}

fn push(rt: &impl Abort, outbox: &mut Outbox, load: Load) -> Result<(), NoMemory> {
    assert!(rt; outbox.pushed() < 1000);
    match outbox.push(load) {
        Ok(()) => Ok(()),
        Err((_, fail)) => Err(fail),
    }
}

// What becomes of the packet at a place among those that aren't acknowledged; none where there is no such packet.
fn arrive(
    rt: &impl Abort,
    alloc: Global,
    outbox: &Outbox,
    inbox: &mut Inbox,
    place: usize,
) -> Result<Option<Arrived>, NoMemory> {
    match outbox.packet(alloc, place)? {
        None => Ok(None),
        Some(packet) => {
            assert!(rt; packet.number < 1000);
            match inbox.arrive(packet) {
                Ok(arrived) => Ok(Some(arrived)),
                Err((_, fail)) => Err(fail),
            }
        }
    }
}

#[test]
fn packets_are_taken_in_turn(rt: HostRuntime) -> Result<(), Fail> {
    let alloc = rt.alloc();
    let mut outbox = Outbox::new(alloc);
    let mut inbox = Inbox::new(alloc);
    push(&rt, &mut outbox, message(alloc, 7)?)?;
    push(&rt, &mut outbox, message(alloc, 8)?)?;
    outbox.reserve()?;
    push(&rt, &mut outbox, Load::Close)?;
    assert_eq!(rt;
        arrive(&rt, alloc, &outbox, &mut inbox, 1)?,
        Some(Arrived::Early)
    );
    assert!(rt; inbox.first().is_none());
    assert_eq!(rt;
        arrive(&rt, alloc, &outbox, &mut inbox, 0)?,
        Some(Arrived::Taken)
    );
    assert_eq!(rt;
        arrive(&rt, alloc, &outbox, &mut inbox, 0)?,
        Some(Arrived::Old)
    );
    assert_eq!(rt; arrive(&rt, alloc, &outbox, &mut inbox, 3)?, None);
    let ack = inbox.ack();
    assert_eq!(rt; ack.next, 1);
    assert!(rt; outbox.acked(ack));
    assert_eq!(rt; outbox.number(0), Some(1));
    match outbox.packet(alloc, 0)? {
        Some(packet) => assert_eq!(rt; packet.copy(alloc)?.number, 1),
        None => assert!(rt; false),
    }
    assert!(rt; !outbox.acked(ack));
    assert!(rt; matches!(inbox.take(), Some(Load::Words(_))));
    assert!(rt; inbox.take().is_none());
    Ok(())
}
