//! Whether a process has a port.

ghost use Rattle.std.specs.Prelude.{◌≡◌, [], ◌∷◌, nat_lt, map, option_map, option_to_list};
ghost use Rattle.fm_base.specs.Channels.{item_ports, message_ports};
ghost use Rattle.fm_net.specs.Owned.{count, same_channel, same_port};
ghost use Rattle.fm_mean.specs.Places.{live};
ghost use Rattle.fm_mean.specs.Process.{frame_ports, frames_ports, held, started_ports};
ghost use Rattle.fm_plain_frame.specs.Frames.{frame_of, proc_of, start_of};
ghost use Rattle.fm_plain_frame.specs.Memory.{item_in, port_in, values_of};

use fm_base::{ChanName, PortValue, order_of_channels};
use fm_plain_frame::{Frame, PlainProc, Start, Word, part, variables_of};
use fm_rules::Program;
use fm_symbols::Variable;
use fm_tree::Kind;

// Whether these are one channel.
fn is_channel(one: &ChanName, other: &ChanName) -> bool
    ensures { result ≡ same_channel one.now other.now }
{
    order_of_channels(one, other).is_eq()
}

// Whether these are one port.
fn is_port(one: &PortValue, other: &PortValue) -> bool
    ensures { result ≡ same_port one.now other.now }
{
    match one {
        PortValue::Writer(channel, writer) => match other {
            PortValue::Writer(named, number) => is_channel(channel, named) && *writer == *number,
            PortValue::Reader(_) => false,
        },
        PortValue::Reader(channel) => match other {
            PortValue::Writer(_, _) => false,
            PortValue::Reader(named) => is_channel(channel, named),
        },
    }
}

// Whether a word is a port.
fn has(word: &Word, port: &PortValue) -> bool
    ensures { result ≡ nat_lt 0 (count port.now (live (port_in word.now ∷ []))) }
{
    match word.port() {
        Some(held) => is_port(held, port),
        None => false,
    }
}

// Whether one of these words is a port.
fn words_have(words: &[Word], port: &PortValue) -> bool
    ensures { result ≡ nat_lt 0 (count port.now (live (map port_in words.now))) }
{
    'words: for word in words {
        if has(word, port) {
            return true;
        }
    }
    false
}

// Whether a variable holds a port.
fn variable_has(memory: &[Word], variable: &Variable, port: &PortValue) -> bool
    ensures { result ≡ nat_lt 0 (count port.now (item_ports (item_in memory.now variable.now))) }
{
    let words = part(memory, variable.first as usize, variable.words as usize);
    match &variable.kind {
        Kind::Integer => false,
        Kind::Logical => false,
        Kind::In(_) => words_have(words, port),
        Kind::Out(_) => words_have(words, port),
    }
}

// Whether one of these variables holds a port.
fn memory_has(memory: &[Word], variables: &[Variable], port: &PortValue) -> bool
    ensures { result ≡ nat_lt 0 (count port.now (message_ports (values_of variables.now memory.now))) }
{
    'variables: for variable in variables {
        if variable_has(memory, variable, port) {
            return true;
        }
    }
    false
}

// Whether a start has a port.
fn start_has(program: &Program, start: &Start, port: &PortValue) -> bool
    ensures { result ≡ nat_lt 0 (count port.now (message_ports (start_of program.now start.now).values)) }
{
    memory_has(
        start.memory.as_slice(),
        variables_of(program, start.unit),
        port,
    )
}

// Whether one of these starts has a port.
fn starts_have(program: &Program, starts: &[Start], port: &PortValue) -> bool
    ensures { result ≡ nat_lt 0 (count port.now (started_ports (map (start_of program.now) starts.now))) }
{
    'starts: for start in starts {
        if start_has(program, start, port) {
            return true;
        }
    }
    false
}

// Whether a frame has a port, in a variable or in a start.
fn frame_has(program: &Program, frame: &Frame, port: &PortValue) -> bool
    ensures { result ≡ nat_lt 0 (count port.now (frame_ports (frame_of program.now frame.now))) }
{
    let variables = variables_of(program, frame.unit);
    if memory_has(frame.memory.as_slice(), variables, port) {
        return true;
    }
    starts_have(program, frame.starts.as_slice(), port)
}

// Whether one of these frames has a port.
fn frames_have(program: &Program, frames: &[Frame], port: &PortValue) -> bool
    ensures { result ≡ nat_lt 0 (count port.now (frames_ports (map (frame_of program.now) frames.now))) }
{
    'frames: for frame in frames {
        if frame_has(program, frame, port) {
            return true;
        }
    }
    false
}

// Whether the innermost frame has a port, if there is one.
fn top_has(program: &Program, top: &Option<Frame>, port: &PortValue) -> bool
    ensures { result
        ≡ nat_lt 0 (count port.now (frames_ports (option_to_list (option_map (frame_of program.now) top.now)))) }
{
    match top {
        Some(frame) => frame_has(program, frame, port),
        None => false,
    }
}

/// Whether a process has a port: in a variable, in a start that is pending, or, where it has ended, kept for its
/// starter. Takes no memory.
pub(crate) fn holds(program: &Program, process: &PlainProc, port: &PortValue) -> bool
    ensures { result ≡ nat_lt 0 (count port.now (held (proc_of program.now process.now))) }
{
    if top_has(program, &process.top, port) {
        return true;
    }
    frames_have(program, process.below.as_slice(), port)
}
