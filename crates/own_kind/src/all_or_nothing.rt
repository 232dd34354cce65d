// The mask itself, and what several of its calls share.
ghost use Rattle.std.specs.Prelude.{◌≡◌, if◌then◌else◌, Ok};
ghost use Rattle.mask.specs.Kinds.{Changed, combining};
ghost use Rattle.mask.specs.Machine.{insert, remove, clear, insert_all};
ghost use Rattle.own_kind.specs.Meaning.{uniform_kind};

use crate::flags::{entering, looked_up};
use index::Refusal;
use words::Operator;

// A mask that is empty or full: one flag for all of its indices.
// Over no index the empty and the full set are one, and the flag says nothing.
#[derive(Drop)]
pub struct AllOrNothing {
    pub(crate) domain_size: usize,
    pub(crate) full: bool,
}

impl AllOrNothing {
    // Inserts every index of the domain, or removes them all.
    pub(crate) fn fill(&mut self, on: bool) -> (usize, usize)
        ensures { Changed uniform_kind self.old (if on then insert_all else clear)
            (Ok result) self.new }
    {
        let was = self.full;
        self.full = on;
        (
            entering(self.domain_size, was, on),
            entering(self.domain_size, on, was),
        )
    }

    // Inserts the index or removes it.
    pub(crate) fn write(&mut self, index: usize, on: bool) -> Result<(usize, usize), Refusal>
        ensures { Changed uniform_kind self.old (if on then insert index else remove index)
            result self.new }
    {
        if index >= self.domain_size {
            return Err(Refusal::Index(index));
        }
        if self.full == on {
            return Ok((0, 0));
        }
        // One of several indices would differ from the others.
        if self.domain_size > 1 {
            return Err(Refusal::Holding);
        }
        // The only index is every index.
        Ok(self.fill(on))
    }

    // Puts every index through the operator with the other mask. All of them come out alike.
    // Beside the trait's combine, which a rule of the project keeps thin, since the proof of this is by hand.
    pub(crate) fn combine_with<O: Operator>(
        &mut self,
        op: &O,
        other: &AllOrNothing,
    ) -> Result<(usize, usize), Refusal>
        ensures { Changed uniform_kind self.old
            (combining uniform_kind (O.table op.now) other.now) result self.new }
    {
        if self.domain_size != other.domain_size {
            return Err(Refusal::Domains(self.domain_size, other.domain_size));
        }
        let on = looked_up(op, self.full, other.full);
        Ok(self.fill(on))
    }
}
