// The set itself, and what its calls share.
ghost use Rattle.std.specs.Prelude.{◌^◌, ◌<◌, ◌≤◌, vec_len};
ghost use Rattle.rows.specs.Members.{Fit, Clean};
ghost use Rattle.words.specs.Bits.{words_for};

use words::Word;

// A fixed-size bit set with a bit for each index below `domain_size`, in the first words of a Vec.
// Words past those are not the set's own and never change. How many words there are does not tell the domain.
#[derive(Drop)]
pub struct DenseBitSet {
    pub(crate) domain_size: usize,
    pub(crate) words: Vec<Word>,
    ghost small: { domain_size < 2 ^ 64 },
    ghost enough: { words_for domain_size ≤ vec_len words },
    ghost fit: { Fit domain_size words.items },
    // Bits at or past the domain are 0, so equal members have equal words.
    ghost clean: { Clean domain_size words.items },
}
