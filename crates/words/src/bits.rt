// Words and their bits. Counts of bits are u32 in std, and usize has no From<u32>, so they are cast.
ghost use Rattle.std.specs.Prelude.{◌≡◌, ℕ, ◌+◌, ◌*◌, ◌/◌, ◌%◌, ◌^◌, ◌<◌, nat_lt};
ghost use Rattle.words.specs.Bits.{HasBits, bit, words_for, tally, set_bits, Highest, Least};
ghost use Rattle.words.specs.Rows.{enters};

use crate::{WORD_BITS, Word};
use index::Idx;

// How many words hold `domain_size` bits.
pub fn num_words<T: Idx>(domain_size: T) -> usize
    ensures { result ≡ words_for (T.place domain_size) }
{
    domain_size.index().div_ceil(WORD_BITS)
}

// The place of the word that has the index's bit, and the mask of that bit in it.
pub fn word_index_and_mask<T: Idx>(elem: T) -> (usize, Word)
    ensures index { result.0 ≡ T.place elem / 64 }
    ensures mask { result.1 ≡ 2 ^ (T.place elem % 64) }
{
    let elem = elem.index();
    (elem / WORD_BITS, 1 << (elem % WORD_BITS))
}

// The highest set bit, or nothing where no bit is set.
#[tactic(auto, using(crate::proofs::Bitwise::highest_bits))]
pub fn max_bit(word: Word) -> Option<usize>
    ensures { Highest word result }
{
    let bit = word.checked_ilog2()?;
    Some(bit as usize)
}

// The lowest set bit, or nothing where no bit is set.
#[tactic(auto, using(crate::proofs::Bitwise::least))]
pub fn min_bit(word: Word) -> Option<usize>
    ensures { Least word result }
{
    (word != 0).then_some(word.trailing_zeros() as usize)
}

// The lowest `count` bits, or all where there are no more.
#[tactic(auto, using(crate::proofs::Bitwise::even_bits))]
fn low_bits(count: usize) -> Word
    ensures { HasBits result (λ b. nat_lt b count) }
{
    if count < WORD_BITS {
        (1 << count) - 1
    } else {
        Word::MAX
    }
}

// The bits of word `k` of a row that stand below a domain.
pub fn word_below(domain_size: usize, k: usize) -> Word
    ensures { HasBits result (λ b. nat_lt (64 * k + b) domain_size) }
{
    low_bits(domain_size.saturating_sub(k.saturating_mul(WORD_BITS)))
}

// How many bits come and how many go from `old` to `new`.
#[tactic(auto, using(crate::proofs::Bitwise::ones_enters))]
pub fn turned(old: Word, new: Word) -> (usize, usize)
    ensures came { result.0 ≡ tally (λ k. enters (bit old k) (bit new k)) 0 64 }
    ensures went { result.1 ≡ tally (λ k. enters (bit new k) (bit old k)) 0 64 }
{
    (
        (new & !old).count_ones() as usize,
        (old & !new).count_ones() as usize,
    )
}

// How many bits of the row are set. Below 2^58 words, which no machine holds, nothing wraps.
pub fn count_ones(words: &[Word]) -> usize
    ensures { result ≡ set_bits words.now % 2 ^ 64 }
{
    words.iter().fold(0, |total: usize, word| {
        total.wrapping_add(word.count_ones() as usize)
    })
}
