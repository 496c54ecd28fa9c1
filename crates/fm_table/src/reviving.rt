//! The processes of a schedule, made again.

ghost use Rattle.std.specs.Prelude.{◌≡◌, ◌==◌, ◌++◌, ◌∷◌, [], IfOk, OnOk};
ghost use Rattle.fm_table.specs.Inside.{IsLive};

use crate::making::{Way, make_steps};
use crate::programs::Compiled;
use fm_base::{NoMemory, Turn};
use fm_rules::Program;
use fm_run::Player;
use std::alloc::Global;

/// Whether an entry has no step.
pub(crate) fn is_empty(entry: Turn) -> bool
    ensures { result ≡ (entry.steps == 0) }
{
    entry.steps == 0
}

// Whether all of so many steps were made.
fn is_whole(done: u32, steps: u32) -> bool
    ensures { result ≡ (done == steps) }
{
    done == steps
}

// Plays an entry of a schedule that was kept. Such an entry has its steps, so that one without them is answered as want
// of memory costs nothing.
fn play_entry(
    alloc: Global,
    program: &Program,
    player: &mut Player<Compiled>,
    entry: Turn,
) -> Result<(), NoMemory>
    requires { IsLive program.now player.old }
    ensures live { OnOk result (IsLive program.now player.new) }
    ensures history { OnOk result (player.new.net.history ≡ player.old.net.history ++ entry ∷ []) }
{
    if is_empty(entry) {
        return Err(NoMemory);
    }
    let done = make_steps(
        alloc,
        program,
        player,
        entry.number,
        Way::Steps(entry.steps),
    )?;
    if is_whole(done, entry.steps) {
        Ok(())
    } else {
        Err(NoMemory)
    }
}

/// The processes to which a schedule leads that was kept.
pub(crate) fn play_again(
    alloc: Global,
    program: &Program,
    entries: &[Turn],
) -> Result<Player<Compiled>, NoMemory>
    ensures live { IfOk result (λ player. IsLive program.now player) }
    ensures history { IfOk result (λ player. player.net.history ≡ entries.now) }
{
    let mut player: Player<Compiled> = Player::new(alloc, program)?;
    'entries: for entry in entries {
        play_entry(alloc, program, &mut player, *entry)?;
    }
    Ok(player)
}
