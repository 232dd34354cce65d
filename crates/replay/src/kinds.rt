// Masks of every kind as one type.
ghost use Rattle.std.specs.Prelude.{◌≡◌, ◌<◌, ◌≤◌, Bool, false, ◌∷◌, ◌++◌, length, take, replicate, IfErr, IfOk, vec_items, vec_len, slice_index_or};
ghost use Rattle.mask.specs.Kinds.{Changed, combining, Tells};
ghost use Rattle.replay.specs.Calls.{moved, table_of};
ghost use Rattle.replay.specs.Masks.{any_kind, spare_words, Asked, Compares, Pictured, Pictures};
ghost use Rattle.replay.specs.declared.fault.Fault.TheVariants.{Memory};
ghost use Rattle.words.specs.Bits.{words_for};

use crate::answers::Answer;
use crate::calls::{Change, Combination, Kind, NewMask, Question};
use crate::fault::Fault;
use crate::work::{ask_mask, change_mask, combine_masks, copy_mask, make_mask};
use dense::DenseBitSet;
use index::Refusal;
use mask::Mask;
use std::alloc::{AllocError, Global};
use words::{Word, num_words};

// The words that are handed over behind a mask's own.
const SPARE: [Word; 2] = [0x0123_4567_89ab_cdef, 0xfedc_ba98_7654_3210];

// No Mask itself: kinds may be made of different memory, and a Mask has one. Domain and members are told apart in clauses,
// as a kind has them apart.
#[derive(Drop)]
pub enum AnyMask {
    Dense(DenseBitSet),
}

// A mask keeps no heap, so each call that needs one takes it.
impl AnyMask {
    pub fn new(heap: Global, wanted: NewMask) -> Result<AnyMask, Fault>
        ensures domain { IfOk result (λ m. any_kind.domain m ≡ wanted.domain) }
        ensures members { IfOk result (λ m.
            any_kind.members m ≡ replicate wanted.domain wanted.full) }
        ensures refused { IfErr result (λ e. e ≡ Memory) }
    {
        match wanted.kind {
            Kind::Dense => {
                let memory = words_with_spare(heap, wanted.domain)?;
                Ok(AnyMask::Dense(make_mask(wanted.full, wanted.domain, memory)?))
            }
        }
    }

    // Another mask of the same kind, domain and members. It is no Clone: a set keeps facts of its words, so none is
    // derived, and spare words are handed over anew.
    pub fn copy(&self, heap: Global) -> Result<AnyMask, Fault>
        ensures domain { IfOk result (λ m. any_kind.domain m ≡ any_kind.domain self.now) }
        ensures members { IfOk result (λ m. any_kind.members m ≡ any_kind.members self.now) }
    {
        match self {
            AnyMask::Dense(mask) => {
                let memory = words_with_spare(heap, mask.domain_size())?;
                Ok(AnyMask::Dense(copy_mask(mask, memory)?))
            }
        }
    }

    pub fn change(&mut self, change: Change) -> Result<(usize, usize), Refusal>
        ensures { Changed any_kind self.old (moved change) result self.new }
    {
        match self {
            AnyMask::Dense(mask) => change_mask(mask, change),
        }
    }

    pub fn combine(
        &mut self,
        combination: Combination,
        other: &AnyMask,
    ) -> Result<(usize, usize), Refusal>
        ensures { Changed any_kind self.old (combining any_kind (table_of combination) other.now)
            result self.new }
    {
        match (self, other) {
            (AnyMask::Dense(mask), AnyMask::Dense(other)) => combine_masks(
                mask,
                combination,
                other,
            ),
        }
    }

    pub fn ask(&self, heap: Global, question: Question) -> Result<Answer, Fault>
        ensures { Asked (any_kind.domain self.now) (any_kind.members self.now) question result }
    {
        match self {
            AnyMask::Dense(mask) => ask_mask(heap, mask, question),
        }
    }

    pub fn contains_loose(&self, index: usize) -> bool
        ensures { result ≡ slice_index_or (any_kind.members self.now) index false }
    {
        match self {
            AnyMask::Dense(mask) => mask.contains_loose(index),
        }
    }

    pub fn superset(&self, other: &AnyMask) -> Result<bool, Refusal>
        ensures { Compares self.now other.now result }
    {
        match (self, other) {
            (AnyMask::Dense(mask), AnyMask::Dense(other)) => mask.superset(other),
        }
    }

    pub fn same_picture(&self, other: &AnyMask) -> bool
        ensures { Tells result (any_kind.picture self.now ≡ any_kind.picture other.now) }
    {
        match (self, other) {
            (AnyMask::Dense(mask), AnyMask::Dense(other)) => mask.same_picture(other),
        }
    }

    // The mask's picture, read off the memory that it gives back. An Answer, of which two cases can be:
    // an enum of those two would be printed at once, and is no plainer.
    pub fn into_picture(self) -> Answer
        ensures { Pictures self result }
    {
        match self {
            AnyMask::Dense(mask) => {
                let domain = mask.domain_size();
                dense_picture(domain, mask.into_memory())
            }
        }
    }
}

// Words for a domain, and the spare ones behind them.
fn words_with_spare(heap: Global, domain: usize) -> Result<Vec<Word>, AllocError>
    ensures words { IfOk result (λ v. v.items ≡ replicate (words_for domain) 0 ++ spare_words) }
    ensures enough { IfOk result (λ v. words_for domain ≤ vec_len v) }
{
    let mut words = vec![in heap; 0; num_words(domain)]?;
    words.extend_from_slice(&SPARE)?;
    Ok(words)
}

// The domain and the words that it takes.
fn dense_picture(domain: usize, mut memory: Vec<Word>) -> Answer
    requires { words_for domain ≤ vec_len memory }
    ensures { Pictured domain memory.items result }
{
    let taken = num_words(domain);
    if memory[taken..] != SPARE[..] {
        return Answer::Spoilt;
    }
    Answer::Picture(words_after_domain(domain, taken, memory))
}

// The domain and then a row's first words, as one list, which is what is printed. The domain takes the place of a word
// behind them, so that no memory is asked for.
fn words_after_domain(domain: usize, taken: usize, mut memory: Vec<Word>) -> Vec<Word>
    requires { taken < vec_len memory }
    ensures { vec_items result ≡ domain ∷ take taken memory.items }
{
    memory.truncate(taken + 1);
    memory[taken] = domain as Word;
    memory.rotate_right(1);
    memory
}
