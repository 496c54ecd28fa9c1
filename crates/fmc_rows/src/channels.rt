//! Channels with ample memory: that calls succeed, and worked examples of discarding, merging and room.

use fm_base::{ChanName, NoMemory, Path, Seq};
use fm_chan::{Channels, Content, Got, Item, Message, Port};
use std::alloc::Global;
use std::process::Abort;
use std::test::Fail;

fn name(alloc: Global, number: u32) -> ChanName {
    let maker = Path::main(alloc);
    ChanName { maker, number }
}

fn made(
    rt: &impl Abort,
    alloc: Global,
    channels: &mut Channels,
    number: u32,
) -> Result<(Port, Port), NoMemory> {
    let name = name(alloc, number);
    assert!(rt; !channels.contains(&name));
    channels.make(alloc, name)
}

fn send(
    rt: &impl Abort,
    channels: &mut Channels,
    port: &Port,
    message: Message,
) -> Result<(), NoMemory> {
    assert!(rt; port.is_outport());
    match channels.send(port, message) {
        Ok(()) => Ok(()),
        Err((_, fail)) => Err(fail),
    }
}

// Notes that a process of this number waits at the port. Nobody is woken by that.
fn wait(
    rt: &impl Abort,
    channels: &mut Channels,
    port: &Port,
    number: u32,
) -> Result<(), NoMemory> {
    assert!(rt; channels.contains(port.channel()));
    assert!(rt; !channels.is_ready(port));
    channels.wait(port.channel(), number)?;
    assert_eq!(rt; channels.next_woken(), None);
    Ok(())
}

fn receive(rt: &impl Abort, channels: &mut Channels, port: &Port) -> Got {
    assert!(rt; !port.is_outport());
    let none: &[Option<u32>] = &[];
    channels.receive(port, &none)
}

fn message(alloc: Global, item: Item) -> Result<Message, NoMemory> {
    let mut items = Seq::new(alloc);
    items.push(item)?;
    Ok(Message {
        content: Content::Items(items),
    })
}

// A word by itself.
fn word(word: i64) -> Message {
    Message {
        content: Content::Word(word),
    }
}

// A word in a list of items.
fn listed_word(alloc: Global, word: i64) -> Result<Message, NoMemory> {
    let mut words = Seq::new(alloc);
    words.push(word)?;
    message(alloc, Item::Words(words))
}

// NULL, and a port.
fn with_port(alloc: Global, port: Port) -> Result<Message, NoMemory> {
    let mut ports = Seq::new(alloc);
    ports.push(None)?;
    ports.push(Some(port))?;
    message(alloc, Item::Ports(ports))
}

fn first_word(got: Got) -> Option<i64> {
    match got {
        Got::Message(message) => match message.content {
            Content::Word(word) => Some(word),
            Content::Items(items) => match items.as_slice().first() {
                Some(Item::Words(words)) => words.as_slice().first().copied(),
                Some(Item::Ports(_)) | None => None,
            },
        },
        Got::Exceeds | Got::Wait | Got::End => None,
    }
}

fn is_wait(got: Got) -> bool {
    match got {
        Got::Wait => true,
        Got::Message(_) | Got::Exceeds | Got::End => false,
    }
}

fn is_end(got: Got) -> bool {
    match got {
        Got::End => true,
        Got::Message(_) | Got::Exceeds | Got::Wait => false,
    }
}

// Who waits is woken by a message, and messages come in the order in which they were sent.
fn come_in_order(
    rt: &impl Abort,
    alloc: Global,
    channels: &mut Channels,
    inport: &Port,
    outport: &Port,
) -> Result<(), Fail> {
    assert!(rt; is_wait(receive(rt, channels, inport)));
    wait(rt, channels, inport, 3)?;
    send(rt, channels, outport, word(7))?;
    assert_eq!(rt; channels.next_woken(), Some(3));
    assert_eq!(rt; channels.next_woken(), None);
    send(rt, channels, outport, listed_word(alloc, 8)?)?;
    assert_eq!(rt; first_word(receive(rt, channels, inport)), Some(7));
    Ok(())
}

// Two ports are of one channel, and are told apart.
fn are_of_one_channel(
    rt: &impl Abort,
    alloc: Global,
    channels: &Channels,
    inport: &Port,
    outport: &Port,
) -> Result<(), Fail> {
    assert!(rt; channels.name(outport) == inport.channel());
    assert!(rt; outport.value(alloc)? != inport.value(alloc)?);
    Ok(())
}

#[test]
fn messages_come_in_order_and_then_the_end(rt: HostRuntime) -> Result<(), Fail> {
    let alloc = rt.alloc();
    let mut channels = Channels::new(alloc);
    let (inport, outport) = made(&rt, alloc, &mut channels, 1)?;
    come_in_order(&rt, alloc, &mut channels, &inport, &outport)?;
    are_of_one_channel(&rt, alloc, &channels, &inport, &outport)?;
    assert!(rt; outport.is_outport());
    channels.close(outport);
    assert_eq!(rt; first_word(receive(&rt, &mut channels, &inport)), Some(8));
    assert!(rt; is_end(receive(&rt, &mut channels, &inport)));
    Ok(())
}

// The inport of channel 1 goes, with it that of channel 2, and with that the outport of channel 3, whose
// reader is woken.
#[test]
fn ports_in_messages_go_with_an_inport(rt: HostRuntime) -> Result<(), Fail> {
    let alloc = rt.alloc();
    let mut channels = Channels::new(alloc);
    let (first_in, first_out) = made(&rt, alloc, &mut channels, 1)?;
    let (second_in, second_out) = made(&rt, alloc, &mut channels, 2)?;
    let (third_in, third_out) = made(&rt, alloc, &mut channels, 3)?;
    send(
        &rt,
        &mut channels,
        &second_out,
        with_port(alloc, third_out)?,
    )?;
    send(&rt, &mut channels, &first_out, with_port(alloc, second_in)?)?;
    assert!(rt; is_wait(receive(&rt, &mut channels, &third_in)));
    wait(&rt, &mut channels, &third_in, 5)?;
    channels.discard(first_in);
    assert_eq!(rt; channels.next_woken(), Some(5));
    assert!(rt; is_end(receive(&rt, &mut channels, &third_in)));
    Ok(())
}

// A message by the writer that is left is received, and the reader waits then.
fn goes_on(
    rt: &impl Abort,
    alloc: Global,
    channels: &mut Channels,
    inport: &Port,
    writer: &Port,
) -> Result<(), Fail> {
    assert!(rt; channels.probe(inport));
    assert!(rt; writer.is_outport());
    channels.reserve(writer)?;
    send(rt, channels, writer, listed_word(alloc, 7)?)?;
    assert!(rt; !channels.probe(inport));
    assert_eq!(rt; first_word(receive(rt, channels, inport)), Some(7));
    wait(rt, channels, inport, 2)?;
    Ok(())
}

// A merger ends where its last writer is closed, in whatever order they are, and its reader is woken then.
#[test]
fn a_merger_ends_with_its_last_writer(rt: HostRuntime) -> Result<(), Fail> {
    let alloc = rt.alloc();
    let mut channels = Channels::new(alloc);
    let name = name(alloc, 1);
    assert!(rt; !channels.contains(&name));
    let (inport, mut outports) = channels.merge(alloc, name, 2)?;
    let Some(last) = outports.pop() else {
        return Ok(());
    };
    assert_eq!(rt; channels.writer(&last), Some(1));
    assert_eq!(rt; channels.writer(&inport), None);
    channels.discard(last);
    let Some(first) = outports.pop() else {
        return Ok(());
    };
    goes_on(&rt, alloc, &mut channels, &inport, &first)?;
    channels.discard(first);
    assert_eq!(rt; channels.next_woken(), Some(2));
    assert!(rt; is_end(receive(&rt, &mut channels, &inport)));
    Ok(())
}
