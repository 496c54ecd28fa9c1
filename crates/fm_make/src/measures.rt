//! What a number says of the program that it makes.

ghost use Rattle.std.specs.Prelude.{◌≡◌};
ghost use Rattle.fm_make.specs.Made.{stages_of, messages_of, step_of};

/// How many stages the chain has: 20 to 199.
pub(crate) fn stages_of(number: u64) -> u64
    ensures { result ≡ stages_of number }
{
    20 + number % 180
}

/// How many messages go through the chain: 100 to 999.
pub(crate) fn messages_of(number: u64) -> u64
    ensures { result ≡ messages_of number }
{
    100 + number % 900
}

/// What a stage adds to each message: 0 to 99.
pub(crate) fn step_of(number: u64, stage: u64) -> u64
    ensures { result ≡ step_of number stage }
{
    // Remainders first: the sum itself may not fit.
    (number % 100 + 7 * (stage % 100)) % 100
}
