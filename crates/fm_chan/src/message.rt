//! Messages.

use crate::port::Port;
use fm_base::Seq;
use std::marker::Model;

/// A part of a message.
#[derive(Drop)]
pub enum Item {
    /// Words, where a logical is 0 or 1.
    Words(Seq<i64>),
    /// Ports, and NULLs.
    Ports(Seq<Option<Port>>),
}

/// What is in a message.
#[derive(Drop)]
pub enum Content {
    /// One item of one word, which stands here itself: most messages are so, and then a queue needs no
    /// memory but for its own places.
    Word(i64),
    /// The items, from left to right.
    Items(Seq<Item>),
}

/// What one SEND puts into a channel. Contracts see it as the list of its items as plain data.
#[derive(Drop)]
pub struct Message {
    /// What is in it.
    pub content: Content,
}

impl Model for Message {
    ghost use Rattle.fm_base.specs.Channels as base;

    ghost Value = { base.Message };

    ghost use Rattle.fm_chan.specs.Items.{plain_message};

    ghost view = { λ m. plain_message m.content };
}

/// What a receive got.
#[derive(Drop)]
pub enum Got {
    /// The oldest message.
    Message(Message),
    /// A message is there, but an item of it has more elements than the receive takes; it stays.
    Exceeds,
    /// No message is there, and a writer is open.
    Wait,
    /// No message is there, and none comes any more.
    End,
}
