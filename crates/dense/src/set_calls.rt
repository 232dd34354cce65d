// Calls that a dense set has beyond those of every mask.
ghost use Rattle.std.specs.Prelude.{◌≡◌, false, slice_index_or};
ghost use Rattle.dense.specs.Sets.{dense_kind, Compared};

use crate::bit_set::DenseBitSet;
use index::{Idx, Refusal};
use rows::has_bit;

impl DenseBitSet {
    // Whether the index is a member; one past the domain is none.
    pub fn contains_loose<T: Idx>(&self, elem: T) -> bool
        ensures { result ≡ slice_index_or (dense_kind.members self.now) (T.place elem) false }
    {
        let row = self.row();
        let index = elem.index();
        index < self.domain_size && has_bit(row, index)
    }

    // Whether every member of the other set is one of this set, so that uniting it would bring no index in.
    pub fn superset(&self, other: &DenseBitSet) -> Result<bool, Refusal>
        ensures { Compared self.now other.now result }
    {
        if self.domain_size != other.domain_size {
            return Err(Refusal::Domains(self.domain_size, other.domain_size));
        }
        Ok(self.covers(other))
    }
}
