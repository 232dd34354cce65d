// A dense set as a mask.
ghost use Rattle.dense.specs.Laws.{lawful};
ghost use Rattle.std.specs.Prelude.{◌≡◌};
ghost use Rattle.dense.specs.Sets.{dense_kind, words_backing, pictured};
ghost use Rattle.mask.specs.Kinds.{Ended};

use crate::bit_set::DenseBitSet;
use index::{Idx, Refusal};
use mask::{Mask, Refused};
use rows::{has_bit, next_set};
use words::{Operator, Word, count_ones};

impl Mask for DenseBitSet {
    type Memory = Vec<Word>;

    ghost kind = { dense_kind };

    ghost backing = { words_backing };

    ghost laws = { lawful };

    fn new_empty(domain_size: usize, memory: Vec<Word>) -> Result<DenseBitSet, Refused<Vec<Word>>> {
        DenseBitSet::uniform(false, domain_size, memory)
    }

    fn new_filled(
        domain_size: usize,
        memory: Vec<Word>,
    ) -> Result<DenseBitSet, Refused<Vec<Word>>> {
        DenseBitSet::uniform(true, domain_size, memory)
    }

    // What a set shows can be read off the words that it gives back.
    fn into_memory(self) -> Vec<Word>
        ensures ended { Ended dense_kind words_backing self result }
        ensures picture { pictured self.domain_size result.items ≡ dense_kind.picture self }
    {
        let DenseBitSet {
            domain_size: _,
            words,
        } = self;
        words
    }

    fn domain_size(&self) -> usize {
        self.domain_size
    }

    fn contains<T: Idx>(&self, elem: T) -> Result<bool, Refusal> {
        let index = elem.index();
        if index >= self.domain_size {
            return Err(Refusal::Index(index));
        }
        Ok(has_bit(self.row(), index))
    }

    fn count(&self) -> usize {
        count_ones(self.row())
    }

    fn next_member(&self, from: usize) -> Option<usize> {
        next_set(self.row(), from)
    }

    fn member_word(&self, k: usize) -> Word {
        self.row().get(k).copied().unwrap_or(0)
    }

    // No PartialEq: the words past the set's own are no part of it.
    fn same_picture(&self, other: &Self) -> bool {
        other.domain_size == self.domain_size && other.row() == self.row()
    }

    fn insert<T: Idx>(&mut self, elem: T) -> Result<(usize, usize), Refusal> {
        self.write(elem.index(), true)
    }

    fn remove<T: Idx>(&mut self, elem: T) -> Result<(usize, usize), Refusal> {
        self.write(elem.index(), false)
    }

    fn clear(&mut self) -> (usize, usize) {
        self.fill(false)
    }

    fn insert_all(&mut self) -> (usize, usize) {
        self.fill(true)
    }

    fn combine<O: Operator>(&mut self, op: &O, other: &Self) -> Result<(usize, usize), Refusal> {
        self.combine_with(op, other)
    }
}
