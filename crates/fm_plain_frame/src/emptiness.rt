//! Whether ports are there at all.

ghost use Rattle.std.specs.Prelude.{◌≡◌, ◌==◌, length, map};
ghost use Rattle.fm_base.specs.Channels.{message_ports};
ghost use Rattle.fm_mean.specs.Places.{live};
ghost use Rattle.fm_mean.specs.Process.{frame_ports, frames_ports, started_ports};
ghost use Rattle.fm_plain_frame.specs.Frames.{frame_of, start_of};
ghost use Rattle.fm_plain_frame.specs.Memory.{port_in, values_of};

use crate::frame::{Frame, Start};
use crate::reading::variable_words;
use crate::units::variables_of;
use crate::word::{Word, holds_ports};
use fm_base::PortValue;
use fm_rules::Program;
use fm_symbols::Variable;

/// Whether no port is among these.
pub(crate) fn are_null(places: &[Option<PortValue>]) -> bool
    ensures { result ≡ (length (live places.now) == 0) }
{
    'places: for place in places {
        if place.is_some() {
            return false;
        }
    }
    true
}

fn words_are_null(words: &[Word]) -> bool
    ensures { result ≡ (length (live (map port_in words.now)) == 0) }
{
    'words: for word in words {
        if word.port().is_some() {
            return false;
        }
    }
    true
}

/// Whether no variable holds a port.
pub fn has_no_port(memory: &[Word], variables: &[Variable]) -> bool
    ensures { result ≡ (length (message_ports (values_of variables.now memory.now)) == 0) }
{
    'variables: for variable in variables {
        if holds_ports(&variable.kind) && !words_are_null(variable_words(memory, variable)) {
            return false;
        }
    }
    true
}

fn starts_have_no_port(program: &Program, starts: &[Start]) -> bool
    ensures { result ≡ (length (started_ports (map (start_of program.now) starts.now)) == 0) }
{
    'starts: for start in starts {
        if !has_no_port(start.memory.as_slice(), variables_of(program, start.unit)) {
            return false;
        }
    }
    true
}

/// Whether neither a variable of a frame nor a start of its block holds a port.
pub(crate) fn frame_has_no_port(program: &Program, frame: &Frame) -> bool
    ensures { result ≡ (length (frame_ports (frame_of program.now frame.now)) == 0) }
{
    has_no_port(frame.memory.as_slice(), variables_of(program, frame.unit))
        && starts_have_no_port(program, frame.starts.as_slice())
}

/// The same of all frames.
pub(crate) fn frames_have_no_port(program: &Program, frames: &[Frame]) -> bool
    ensures { result ≡ (length (frames_ports (map (frame_of program.now) frames.now)) == 0) }
{
    'frames: for frame in frames {
        if !frame_has_no_port(program, frame) {
            return false;
        }
    }
    true
}
