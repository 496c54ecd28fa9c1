//! Whether a message fits the operands that it is received into.

ghost use Rattle.std.specs.Prelude.{◌≡◌, ℤ, ◌∷◌, [], map};
ghost use Rattle.fm_base.specs.Channels.{Words, fits_limits};
ghost use Rattle.fm_chan.specs.Items.{plain_item};
ghost use Rattle.fm_proc_language.specs.Processes.{limit_of, limits_of};

use fm_chan::{Content, Item, Limits, Message, is_within, word_is_within};
use fm_code::Operand;

/// The most elements that an operand takes, if there is a limit.
fn limit_of(operand: &Operand) -> Option<u32>
    ensures { result ≡ limit_of operand.now }
{
    match operand {
        Operand::Value(_) => None,
        Operand::Words(span) => Some(span.count),
        Operand::Ports(span) => Some(span.count),
    }
}

/// Whether a message of one word fits.
fn word_fits(operands: &[Operand]) -> bool
    ensures { (word : ℤ) → result ≡ fits_limits (limits_of operands.now) (Words (word ∷ []) ∷ []) }
{
    match operands.split_first() {
        Some((operand, _)) => word_is_within(limit_of(operand)),
        None => true,
    }
}

fn items_fit(operands: &[Operand], items: &[Item]) -> bool
    ensures { result ≡ fits_limits (limits_of operands.now) (map plain_item items.now) }
{
    let mut operands = operands;
    let mut items = items;
    'operands: loop {
        let (operand, later) = match operands.split_first() {
            Some(parts) => parts,
            None => return true,
        };
        let (item, behind) = match items.split_first() {
            Some(parts) => parts,
            None => return true,
        };
        if !is_within(limit_of(operand), item) {
            return false;
        }
        operands = later;
        items = behind;
    }
}

/// Operands as the limits of a receive: each takes no more elements than it has.
#[derive(Drop)]
pub(crate) struct OperandLimits<'a> {
    pub(crate) operands: &'a [Operand],
}

impl Limits for OperandLimits<'_> {
    ghost most = { λ limits. limits_of limits.operands.now };

    fn fits(&self, message: &Message) -> bool {
        match &message.content {
            Content::Word(_) => word_fits(self.operands),
            Content::Items(items) => items_fit(self.operands, items.as_slice()),
        }
    }
}
