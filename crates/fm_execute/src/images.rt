//! Images that make sense, as a kind of source of what runs as stack code.

ghost use Rattle.fm_execute_image.specs.Play.{IsBare, IsLive, good_play};
ghost use Rattle.fm_execute.specs.Coded.{image_coded};

use fm_base::NoMemory;
use fm_execute_image::{first_stacks, outcome};
use fm_mean::Outcome;
use fm_procs::CodeProcs;
use fm_run_code::Coded;
use fm_verify::Verified;
use std::alloc::Global;

/// Images that make sense.
#[derive(Drop)]
pub struct Images;

impl Coded for Images {
    type Source = Verified;

    ghost play = { good_play };

    ghost Corresponds = { IsBare };

    ghost IsLive = { IsLive };

    ghost is_coded = { image_coded };

    fn first_stacks(alloc: Global, source: &Verified) -> Result<CodeProcs, NoMemory> {
        first_stacks(alloc, source.image())
    }

    fn outcome(
        alloc: Global,
        source: &Verified,
        stacks: &CodeProcs,
        used: u64,
    ) -> Result<Outcome, NoMemory> {
        outcome(alloc, stacks, source.image(), used)
    }
}
