//! Words of a frame's memory.

ghost use Rattle.std.specs.Prelude.{◌≡◌};
ghost use Rattle.std.specs.Option.{option_copied};
ghost use Rattle.fm_plain_frame.specs.declared.word.Word.TheVariants as word;
ghost use Rattle.fm_plain_frame.specs.Memory.{holds_ports, number_in, port_in, port_word, unset_word};

use fm_base::PortValue;
use fm_tree::Kind;

/// A word of memory.
#[derive(Drop)]
pub enum Word {
    /// An integer, or a logical as 0 or 1.
    Number(i64),
    /// A port variable that holds no port.
    Null,
    /// A port. Who runs the process keeps what may send or receive by it.
    Port(PortValue),
}

impl Word {
    /// The integer or the logical; 0 where there is none.
    pub fn number(&self) -> i64
        ensures { result ≡ number_in self.now }
    {
        match self {
            Word::Number(number) => *number,
            Word::Null => 0,
            Word::Port(_) => 0,
        }
    }

    /// The port, if there is one.
    pub fn port(&self) -> Option<&PortValue>
        ensures { option_copied result ≡ port_in self.now }
    {
        match self {
            Word::Number(_) => None,
            Word::Null => None,
            Word::Port(port) => Some(port),
        }
    }

    /// The port, if there is one, out of its word.
    pub fn into_port(self) -> Option<PortValue>
        ensures { result ≡ port_in self }
    {
        match self {
            Word::Number(_) => None,
            Word::Null => None,
            Word::Port(port) => Some(port),
        }
    }

    /// The word of an integer, or of a logical as 0 or 1.
    pub fn of_number(number: &i64) -> Word
        ensures { result ≡ word.Number number.now }
    {
        Word::Number(*number)
    }

    /// The word of a port variable.
    pub fn of_port(port: Option<PortValue>) -> Word
        ensures { result ≡ port_word port }
    {
        match port {
            None => Word::Null,
            Some(port) => Word::Port(port),
        }
    }

    /// The word of an element that nothing was put into.
    pub fn unset(kind: &Kind) -> Word
        ensures { result ≡ unset_word kind.now }
    {
        match kind {
            Kind::Integer => Word::Number(0),
            Kind::Logical => Word::Number(0),
            Kind::In(_) => Word::Null,
            Kind::Out(_) => Word::Null,
        }
    }
}

/// Whether variables of this kind hold ports.
pub(crate) fn holds_ports(kind: &Kind) -> bool
    ensures { result ≡ holds_ports kind.now }
{
    match kind {
        Kind::Integer => false,
        Kind::Logical => false,
        Kind::In(_) => true,
        Kind::Out(_) => true,
    }
}
