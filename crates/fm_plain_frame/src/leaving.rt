//! Hands out the ports that are let go, one after the other.

ghost use Rattle.std.specs.Prelude.{◌≡◌, ◌+◌, ◌≤◌, [], IfSome, List, option_map};
ghost use Rattle.fm_rules.specs.declared.program.Program as declared;
ghost use Rattle.fm_mean.specs.Places.{live};
ghost use Rattle.fm_symbols.specs.declared.names.Variable as names;
ghost use Rattle.fm_plain_frame.specs.Frames.{frame_of, frames_of};
ghost use Rattle.fm_plain_frame.specs.LetGo.{let_go_ports};
ghost use Rattle.fm_plain_frame.specs.Leaving.{Begins, Moves, Opens, Pops, Yields, following_ports, frame_count, frames_count, left_ports, row_by, row_ports};

use crate::frame::{Frame, Start};
use crate::let_go::LetGo;
use crate::lookup::item_at;
use crate::units::variables_of;
use crate::word::{Word, holds_ports};
use fm_base::PortValue;
use fm_rules::Program;
use fm_symbols::Variable;
use std::alloc::Global;
use std::collections::VecDeque;
use std::mem;

/// What is left of a memory: its words from one on.
#[derive(Drop)]
pub struct Row {
    /// The number of the unit.
    unit: u32,
    /// The words that are left.
    words: VecDeque<Word>,
    /// How many of them belong to the variable at hand.
    at_hand: u32,
    /// Whether that holds ports.
    are_ports: bool,
    /// The variable behind it.
    next: usize,
}

/// Ports on their way out: those that were put out of their places; what is left of the memory at hand, and of the
/// starts of its frame; the frames that come later; and what was taken out of a frame that stays. It takes no memory,
/// and all calls of `next` together look at each word once.
#[derive(Drop)]
pub struct Leaving {
    replaced: VecDeque<Option<PortValue>>,
    row: Row,
    starts: VecDeque<Start>,
    top: Option<Frame>,
    below: Vec<Frame>,
    taken: VecDeque<Option<PortValue>>,
}

fn next_place(places: &mut VecDeque<Option<PortValue>>) -> Option<PortValue>
    ensures { Yields (live places.old.items) result (live places.new.items) }
{
    'places: while let Some(place) = places.pop_front() {
        if let Some(port) = place {
            return Some(port);
        }
    }
    None
}

fn pop<T: Drop>(items: &mut VecDeque<T>) -> Option<T>
    ensures { Pops items.old.items result items.new.items }
{
    items.pop_front()
}

// The innermost frame that is left.
fn next_frame(top: &mut Option<Frame>, below: &mut Vec<Frame>) -> Option<Frame>
    ensures frames { (p : declared.Program)
        → Pops (frames_of p top.old below.old.items) (option_map (frame_of p) result)
        (frames_of p top.new below.new.items) }
    ensures count { IfSome result
        (λ f. frames_count top.old below.old.items ≡ frame_count f + frames_count top.new below.new.items) }
{
    match top.take() {
        Some(frame) => Some(frame),
        None => below.pop(),
    }
}

impl Row {
    fn new(unit: u32, words: VecDeque<Word>) -> Row
        ensures unit { result.unit ≡ unit }
        ensures ports { (vs : List names.Variable) → row_by vs result ≡ following_ports vs words.items }
    {
        Row {
            unit,
            words,
            at_hand: 0,
            are_ports: false,
            next: 0,
        }
    }

    // Puts the next variable at hand, if there is one.
    fn begin(&mut self, variables: &[Variable]) -> bool
        requires { self.old.at_hand ≡ 0 }
        ensures unit { self.new.unit ≡ self.old.unit }
        ensures ports { Begins variables.now self.old result self.new }
    {
        match item_at(variables, self.next) {
            None => false,
            Some(variable) => {
                self.at_hand = variable.words;
                self.are_ports = holds_ports(&variable.kind);
                self.next += 1;
                true
            }
        }
    }

    // Takes a word of the variable at hand, if one is left: its port, if it has one.
    fn take_word(&mut self) -> Option<Option<PortValue>>
        requires { 1 ≤ self.old.at_hand }
        ensures unit { self.new.unit ≡ self.old.unit }
        ensures ports { (vs : List names.Variable) → Moves vs self.old result self.new }
    {
        match pop(&mut self.words) {
            None => None,
            Some(word) => {
                self.at_hand -= 1;
                if self.are_ports {
                    Some(word.into_port())
                } else {
                    Some(None)
                }
            }
        }
    }

    fn next_port(&mut self, variables: &[Variable]) -> Option<PortValue>
        ensures unit { self.new.unit ≡ self.old.unit }
        ensures ports { Yields (row_by variables.now self.old) result (row_by variables.now self.new) }
    {
        'words: loop {
            if self.at_hand == 0 {
                if !self.begin(variables) {
                    return None;
                }
            } else {
                match self.take_word() {
                    None => return None,
                    Some(port) => {
                        if port.is_some() {
                            return port;
                        }
                    }
                }
            }
        }
    }

    fn next(&mut self, program: &Program) -> Option<PortValue>
        ensures { Yields (row_ports program.now self.old) result (row_ports program.now self.new) }
    {
        self.next_port(variables_of(program, self.unit))
    }
}

impl Leaving {
    /// The ports that are let go. Takes no memory.
    pub fn new(alloc: Global, let_go: LetGo) -> Leaving
        ensures { (p : declared.Program) → left_ports p result ≡ let_go_ports p let_go }
    {
        Leaving {
            replaced: VecDeque::from_vec(let_go.replaced),
            row: Row::new(0, VecDeque::new(alloc)),
            starts: VecDeque::new(alloc),
            top: let_go.top,
            below: let_go.below,
            taken: VecDeque::from_vec(let_go.taken),
        }
    }

    fn open_frame(&mut self) -> bool
        requires { self.old.starts.items ≡ [] }
        ensures opens { (p : declared.Program) → Opens p self.old result self.new }
        ensures replaced { self.new.replaced ≡ self.old.replaced }
        ensures taken { self.new.taken ≡ self.old.taken }
    {
        match next_frame(&mut self.top, &mut self.below) {
            None => false,
            Some(frame) => {
                self.row = Row::new(frame.unit, VecDeque::from_vec(frame.memory));
                self.starts = VecDeque::from_vec(frame.starts);
                true
            }
        }
    }

    // Puts the next memory at hand, if there is one.
    fn open(&mut self) -> bool
        ensures opens { (p : declared.Program) → Opens p self.old result self.new }
        ensures replaced { self.new.replaced ≡ self.old.replaced }
        ensures taken { self.new.taken ≡ self.old.taken }
    {
        match pop(&mut self.starts) {
            None => self.open_frame(),
            Some(start) => {
                self.row = Row::new(start.unit, VecDeque::from_vec(start.memory));
                true
            }
        }
    }

    /// The next port that is let go, or none where all are.
    pub fn next(&mut self, program: &Program) -> Option<PortValue>
        ensures { Yields (left_ports program.now self.old) result (left_ports program.now self.new) }
    {
        let replaced = next_place(&mut self.replaced);
        if replaced.is_some() {
            return replaced;
        }
        'memories: loop {
            let port = self.row.next(program);
            if port.is_some() {
                return port;
            }
            if !self.open() {
                return next_place(&mut self.taken);
            }
        }
    }
}
