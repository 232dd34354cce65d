// The kind as a mask.
ghost use Rattle.own_kind.specs.Laws.{lawful};
ghost use Rattle.own_kind.specs.Meaning.{uniform_kind, nothing_given};

use crate::all_or_nothing::AllOrNothing;
use index::{Idx, Refusal};
use mask::{Mask, Refused};
use words::{Operator, Word, word_below};

impl Mask for AllOrNothing {
    type Memory = ();

    ghost kind = { uniform_kind };

    ghost backing = { nothing_given };

    ghost laws = { lawful };

    fn new_empty(domain_size: usize, _memory: ()) -> Result<AllOrNothing, Refused<()>> {
        Ok(AllOrNothing {
            domain_size,
            full: false,
        })
    }

    fn new_filled(domain_size: usize, _memory: ()) -> Result<AllOrNothing, Refused<()>> {
        Ok(AllOrNothing {
            domain_size,
            full: true,
        })
    }

    fn into_memory(self) {}

    fn domain_size(&self) -> usize {
        self.domain_size
    }

    fn contains<T: Idx>(&self, elem: T) -> Result<bool, Refusal> {
        let index = elem.index();
        if index >= self.domain_size {
            return Err(Refusal::Index(index));
        }
        Ok(self.full)
    }

    #[tactic(auto, using(crate::proofs::Uniform::uniform_sets))]
    fn count(&self) -> usize {
        if self.full { self.domain_size } else { 0 }
    }

    // In a full set the number itself is the lowest member from it on.
    #[tactic(auto, using(crate::proofs::Uniform::uniform_sets))]
    fn next_member(&self, from: usize) -> Option<usize> {
        (self.full && from < self.domain_size).then_some(from)
    }

    #[tactic(auto, using(crate::proofs::Uniform::uniform_sets))]
    fn member_word(&self, k: usize) -> Word {
        if self.full {
            word_below(self.domain_size, k)
        } else {
            0
        }
    }

    // No PartialEq derived: over no index the flags are not looked at.
    fn same_picture(&self, other: &Self) -> bool {
        self.domain_size == other.domain_size && (self.domain_size == 0 || self.full == other.full)
    }

    fn insert<T: Idx>(&mut self, elem: T) -> Result<(usize, usize), Refusal> {
        self.write(elem.index(), true)
    }

    fn remove<T: Idx>(&mut self, elem: T) -> Result<(usize, usize), Refusal> {
        self.write(elem.index(), false)
    }

    fn clear(&mut self) -> (usize, usize) {
        self.fill(false)
    }

    fn insert_all(&mut self) -> (usize, usize) {
        self.fill(true)
    }

    fn combine<O: Operator>(&mut self, op: &O, other: &Self) -> Result<(usize, usize), Refusal> {
        self.combine_with(op, other)
    }
}
