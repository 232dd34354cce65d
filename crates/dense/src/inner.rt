// What several calls of a set share.
ghost use Rattle.std.specs.Prelude.{◌≡◌, ℕ, ◌*◌, ◌%◌, ◌^◌, ◌<◌, ◌≤◌, false, length, if◌then◌else◌, Ok, Option, slice_index, slice_index_or};
ghost use Rattle.dense.specs.Sets.{dense_kind, words_backing, own_words, Superset};
ghost use Rattle.mask.specs.Kinds.{Changed, combining, Made, Shows, Tells};
ghost use Rattle.mask.specs.Machine.{insert, remove, clear, insert_all, count, next_member};
ghost use Rattle.rows.specs.Members.{Lowest};
ghost use Rattle.words.specs.Bits.{holds, set_bits, words_for};

use crate::bit_set::DenseBitSet;
use index::Refusal;
use mask::Refused;
use rows::{clear_words, combine_row, fill_row, report_one, write_bit};
use words::{Operator, Or, Word, num_words, would_modify_words};

impl DenseBitSet {
    // A set with every index of its domain or none, in the first words of the memory.
    pub(crate) fn uniform(
        full: bool,
        domain_size: usize,
        memory: Vec<Word>,
    ) -> Result<DenseBitSet, Refused<Vec<Word>>>
        ensures { Made dense_kind words_backing full domain_size memory result }
    {
        let n = num_words(domain_size);
        if memory.len() < n {
            return Err(Refused {
                refusal: Refusal::Memory,
                memory,
            });
        }
        let mut words = memory;
        clear_words(&mut words, n);
        // Cleared words are those of an empty set: to fill it with nothing would write them once more.
        if !full {
            return Ok(DenseBitSet { domain_size, words });
        }
        fill_row(&mut words, domain_size, full);
        Ok(DenseBitSet { domain_size, words })
    }

    // The words that are the set's own, which say all that a set is asked.
    pub(crate) fn row(&self) -> &[Word]
        ensures words { result.now ≡ own_words self.now }
        ensures long { length result.now ≡ words_for self.now.domain_size }
        ensures bits { (i : ℕ) → i < self.now.domain_size
            → holds result.now i ≡ slice_index_or (dense_kind.members self.now) i false }
        ensures past { (i : ℕ) → self.now.domain_size ≤ i
            → slice_index_or (dense_kind.members self.now) i false ≡ false }
        ensures shows { (k : ℕ)
            → Shows (dense_kind.members self.now) k (slice_index result.now k) }
        ensures count { set_bits result.now % 2 ^ 64 ≡ count (dense_kind.members self.now) }
        ensures lowest { (from : ℕ) (found : Option ℕ)
            → Lowest (holds result.now) from (64 * length result.now) found
            → found ≡ next_member (dense_kind.members self.now) from }
    {
        &self.words[..num_words(self.domain_size)]
    }

    // Whether every member of the other set, of the same domain, is one of this set.
    // Beside `superset`, which a rule of the project keeps thin, since the proof of this is by hand.
    pub(crate) fn covers(&self, other: &DenseBitSet) -> bool
        requires { self.now.domain_size ≡ other.now.domain_size }
        ensures { Tells result (Superset (dense_kind.members self.now)
            (dense_kind.members other.now)) }
    {
        !would_modify_words(self.row(), other.row(), &Or)
    }

    // Inserts the index or removes it.
    pub(crate) fn write(&mut self, index: usize, on: bool) -> Result<(usize, usize), Refusal>
        ensures { Changed dense_kind self.old (if on then insert index else remove index)
            result self.new }
    {
        if index >= self.domain_size {
            return Err(Refusal::Index(index));
        }
        let turned = write_bit(&mut self.words, index, on);
        Ok(report_one(turned, on))
    }

    // Inserts every index of the domain, or removes them all.
    pub(crate) fn fill(&mut self, on: bool) -> (usize, usize)
        ensures { Changed dense_kind self.old (if on then insert_all else clear)
            (Ok result) self.new }
    {
        fill_row(&mut self.words, self.domain_size, on)
    }

    // Puts every index through the operator with the other set.
    // Beside the trait's `combine`, which a rule of the project keeps thin, since the proof of this is by hand.
    pub(crate) fn combine_with<O: Operator>(
        &mut self,
        op: &O,
        other: &DenseBitSet,
    ) -> Result<(usize, usize), Refusal>
        ensures { Changed dense_kind self.old (combining dense_kind (O.table op.now) other.now)
            result self.new }
    {
        if self.domain_size != other.domain_size {
            return Err(Refusal::Domains(self.domain_size, other.domain_size));
        }
        Ok(combine_row(op, &mut self.words, &other.words, self.domain_size))
    }
}
