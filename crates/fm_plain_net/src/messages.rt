//! Messages: ports leave the kept ones with a message, and enter them with one.

ghost use Rattle.std.specs.Prelude.{◌≡◌, ◌∷◌, [], map, IfOk, OnOk};
ghost use Rattle.fm_base.specs.Channels.{message_ports};
ghost use Rattle.fm_chan.specs.Items.{plain_item};
ghost use Rattle.fm_mean.specs.Places.{live};
ghost use Rattle.fm_plain_passing.specs.Items.{item_of, message_of};
ghost use Rattle.fm_plain_net.specs.Held.{AreKept, AreOnce, Stay, StayBut};

use crate::ports::Ports;
use fm_base::{NoMemory, PortValue, Seq};
use fm_chan::{Content, Item as ChannelItem, Message, Port};
use fm_plain_passing::Item;
use std::alloc::Global;
use std::collections::VecDeque;

// The port of this value, or NULL.
fn taken(ports: &mut Ports, value: Option<PortValue>) -> Option<Port>
    requires { AreKept ports.old (live (value ∷ [])) }
    ensures port { result ≡ value }
    ensures others { StayBut (live (value ∷ [])) ports.old ports.new }
{
    match value {
        Some(value) => ports.take(value),
        None => None,
    }
}

fn take_ports(
    alloc: Global,
    ports: &mut Ports,
    values: Seq<Option<PortValue>>,
) -> Result<Vec<Option<Port>>, NoMemory>
    requires kept { AreKept ports.old (live values) }
    requires once { AreOnce (live values) }
    ensures ports { IfOk result (λ v. v.items ≡ values) }
    ensures others { OnOk result (StayBut (live values) ports.old ports.new) }
{
    let mut all = Vec::new(alloc);
    let mut rest = VecDeque::from_vec(values.into_vec());
    'values: while let Some(value) = rest.pop_front() {
        all.push(taken(ports, value))?;
    }
    Ok(all)
}

fn take_item(alloc: Global, ports: &mut Ports, item: Item) -> Result<ChannelItem, NoMemory>
    requires kept { AreKept ports.old (message_ports (item_of item ∷ [])) }
    requires once { AreOnce (message_ports (item_of item ∷ [])) }
    ensures item { IfOk result (λ i. plain_item i ≡ item_of item) }
    ensures others { OnOk result (StayBut (message_ports (item_of item ∷ [])) ports.old ports.new) }
{
    match item {
        Item::Words(words) => Ok(ChannelItem::Words(words)),
        Item::Ports(values) => {
            let all = take_ports(alloc, ports, values)?;
            Ok(ChannelItem::Ports(Seq::from_vec(all)))
        }
    }
}

/// A message with the ports of these values, which aren't kept any more.
pub(crate) fn message_from(
    alloc: Global,
    ports: &mut Ports,
    items: Seq<Item>,
) -> Result<Message, NoMemory>
    requires kept { AreKept ports.old (message_ports (message_of items)) }
    requires once { AreOnce (message_ports (message_of items)) }
    ensures message { IfOk result (λ m. m ≡ message_of items) }
    ensures others { OnOk result (StayBut (message_ports (message_of items)) ports.old ports.new) }
{
    let mut all = Vec::new(alloc);
    let mut rest = VecDeque::from_vec(items.into_vec());
    'items: while let Some(item) = rest.pop_front() {
        all.push(take_item(alloc, ports, item)?)?;
    }
    Ok(Message {
        content: Content::Items(Seq::from_vec(all)),
    })
}

// The value of a port, which is kept then, or NULL.
fn put_port(
    alloc: Global,
    ports: &mut Ports,
    port: Option<Port>,
) -> Result<Option<PortValue>, NoMemory>
    ensures value { IfOk result (λ v. v ≡ port) }
    ensures came { OnOk result (AreKept ports.new (live (port ∷ []))) }
    ensures others { OnOk result (Stay ports.old ports.new) }
{
    match port {
        Some(port) => {
            let value = port.value(alloc)?;
            ports.put(alloc, port)?;
            Ok(Some(value))
        }
        None => Ok(None),
    }
}

fn put_all(
    alloc: Global,
    ports: &mut Ports,
    all: Seq<Option<Port>>,
) -> Result<Vec<Option<PortValue>>, NoMemory>
    ensures values { IfOk result (λ v. v.items ≡ all) }
    ensures came { OnOk result (AreKept ports.new (live all)) }
    ensures others { OnOk result (Stay ports.old ports.new) }
{
    let mut values = Vec::new(alloc);
    'ports: for port in all.into_vec() {
        values.push(put_port(alloc, ports, port)?)?;
    }
    Ok(values)
}

fn put_item(alloc: Global, ports: &mut Ports, item: ChannelItem) -> Result<Item, NoMemory>
    ensures item { IfOk result (λ i. item_of i ≡ plain_item item) }
    ensures came { OnOk result (AreKept ports.new (message_ports (plain_item item ∷ []))) }
    ensures others { OnOk result (Stay ports.old ports.new) }
{
    match item {
        ChannelItem::Words(words) => Ok(Item::Words(words)),
        ChannelItem::Ports(all) => {
            let values = put_all(alloc, ports, all)?;
            Ok(Item::Ports(Seq::from_vec(values)))
        }
    }
}

fn unpacked_items(
    alloc: Global,
    ports: &mut Ports,
    items: Seq<ChannelItem>,
) -> Result<Seq<Item>, NoMemory>
    ensures items { IfOk result (λ v. message_of v ≡ map plain_item items) }
    ensures came { OnOk result (AreKept ports.new (message_ports (map plain_item items))) }
    ensures others { OnOk result (Stay ports.old ports.new) }
{
    let mut all = Vec::new(alloc);
    'items: for item in items.into_vec() {
        all.push(put_item(alloc, ports, item)?)?;
    }
    Ok(Seq::from_vec(all))
}

/// What a message brings. Its ports are kept then.
pub(crate) fn unpacked(
    alloc: Global,
    ports: &mut Ports,
    message: Message,
) -> Result<Seq<Item>, NoMemory>
    ensures items { IfOk result (λ items. message_of items ≡ message) }
    ensures came { OnOk result (AreKept ports.new (message_ports message)) }
    ensures others { OnOk result (Stay ports.old ports.new) }
{
    match message.content {
        Content::Word(word) => {
            let items = vec![in alloc; ChannelItem::Words(Seq::from_slice(alloc, &[word])?)]?;
            unpacked_items(alloc, ports, Seq::from_vec(items))
        }
        Content::Items(items) => unpacked_items(alloc, ports, items),
    }
}
