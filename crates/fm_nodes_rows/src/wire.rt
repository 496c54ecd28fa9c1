//! What is sent over a wire comes, comes once more, is answered and is lost.

use crate::network::{AllHosts, first_word, name, network, send};
use fm_link::Load;
use fm_nodes_network::Channel;
use std::test::Fail;

#[test]
fn what_comes_again_is_taken_once(rt: HostRuntime) -> Result<(), Fail> {
    let alloc = rt.alloc();
    let channel = name(alloc);
    let mut network = network(alloc)?;
    send(alloc, &mut network, &channel, 7)?;
    assert!(rt; network.send(alloc, &channel, 0)?);
    assert!(rt; !network.send(alloc, &channel, 1)?);
    assert_eq!(rt; first_word(&network, &channel), None);
    assert!(rt; network.deliver(alloc, 0)?);
    assert!(rt; network.deliver(alloc, 0)?);
    assert!(rt; !network.deliver(alloc, 1)?);
    assert_eq!(rt; first_word(&network, &channel), Some(7));
    network.channels.take(&channel);
    assert_eq!(rt; first_word(&network, &channel), None);
    assert!(rt; network.answer(alloc, &channel)?);
    assert!(rt; network.deliver(alloc, 1)?);
    assert!(rt; !network.send(alloc, &channel, 0)?);
    assert!(rt; network.lose(1));
    assert!(rt; !network.lose(1));
    assert_eq!(rt; network.wire.len(), 1);
    network.restart(&AllHosts);
    assert_eq!(rt; network.wire.len(), 0);
    network.channels.leave(&channel);
    Ok(())
}

#[test]
fn the_end_comes_last(rt: HostRuntime) -> Result<(), Fail> {
    let alloc = rt.alloc();
    let mut channel = Channel::new(alloc, true)?;
    channel.close();
    assert_eq!(rt; channel.number(0), Some(0));
    match channel.packet(alloc, 0)? {
        Some(packet) => {
            assert!(rt; packet.number == 0);
            channel.arrive(packet)?;
        }
        None => assert!(rt; false),
    }
    assert!(rt; matches!(channel.first(), Some(Load::Close)));
    channel.acked(channel.ack());
    assert_eq!(rt; channel.number(0), None);
    Ok(())
}
