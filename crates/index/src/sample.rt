// The number of a sample in an episode.
ghost use Rattle.std.proofs.Common.{rules};

use crate::idx::Idx;

// 32 bits: an episode of 27 hours at 44,100 samples a second.
#[derive(Clone, Copy, PartialEq, Eq, Debug)]
pub struct Sample {
    pub number: u32,
}

impl Idx for Sample {
    const LIMIT: usize = 4_294_967_296;

    ghost LIMIT = { 4294967296 };

    ghost place = { λ s. s.number };

    ghost small = { Prim.search rules };

    ghost apart = { Prim.search rules };

    fn new(index: usize) -> Option<Sample> {
        let number = u32::try_from(index).ok()?;
        Some(Sample { number })
    }

    // A cast, since a `usize` has no `From<u32>`.
    fn index(self) -> usize {
        self.number as usize
    }
}
