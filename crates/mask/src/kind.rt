// What a kind of mask is.
ghost use Rattle.std.specs.Prelude.{◌≡◌, true, false, Ok, ◌==◌};
ghost use Rattle.mask.specs.Kinds.{Kind, Backing, Lawful, Changed, combining, Made, Ended, Shows, Tells};
ghost use Rattle.mask.specs.Machine.{insert, remove, clear, insert_all, contained, count, next_member};
ghost use Rattle.words.specs.Tables.{or_table, and_table, second_table, subtract_table, union_not_table};

use index::{Idx, Refusal};
use words::{And, ComplementOperand, Operator, Or, Second, Word};

// A refusal at creation, with the memory as it was handed over.
#[derive(Debug, Drop)]
pub struct Refused<A> {
    pub refusal: Refusal,
    pub memory: A,
}

// A kind of mask, by its meaning alone.
// What each call answers and leaves is what the machine does with the same domain, rule and members.
pub trait Mask: Sized {
    // What is handed over at creation: words, and records where the kind has some.
    type Memory: Drop;

    // What a mask of this kind means.
    ghost kind: { Kind Self };

    // What memory that is handed over comes to.
    ghost backing: { Backing Self.Memory };

    // An empty mask over the memory handed over. Each call of a pair, here and below, is a kind's own: one may empty or
    // clear in another way than it fills, and a flag in place of two names would be no plainer.
    fn new_empty(domain_size: usize, memory: Self::Memory) -> Result<Self, Refused<Self::Memory>>
        ensures { Made kind backing false domain_size memory result };

    // A mask of every index below its domain.
    fn new_filled(domain_size: usize, memory: Self::Memory) -> Result<Self, Refused<Self::Memory>>
        ensures { Made kind backing true domain_size memory result };

    // The one or the other.
    fn new_uniform(
        full: bool,
        domain_size: usize,
        memory: Self::Memory,
    ) -> Result<Self, Refused<Self::Memory>>
        ensures { Made kind backing full domain_size memory result }
    {
        if full {
            Self::new_filled(domain_size, memory)
        } else {
            Self::new_empty(domain_size, memory)
        }
    }

    // Ends the mask and hands its memory back.
    fn into_memory(self) -> Self::Memory
        ensures { Ended kind backing self result };

    fn domain_size(&self) -> usize
        ensures { result ≡ kind.domain self.now };

    fn contains<T: Idx>(&self, elem: T) -> Result<bool, Refusal>
        ensures { result
            ≡ contained (kind.domain self.now) (kind.members self.now) (T.place elem) };

    fn count(&self) -> usize
        ensures { result ≡ count (kind.members self.now) };

    // The lowest member at or after a number, or nothing.
    fn next_member(&self, from: usize) -> Option<usize>
        ensures { result ≡ next_member (kind.members self.now) from };

    // The members from 64 × k on as the bits of a word, which is how a listing reads them.
    fn member_word(&self, k: usize) -> Word
        ensures { Shows (kind.members self.now) k result };

    // Whether the two masks have equal pictures, so equal domains and members.
    fn same_picture(&self, other: &Self) -> bool
        ensures { Tells result (kind.picture self.now ≡ kind.picture other.now) };

    // How many indices entered and how many left, here and below: a report is the pair (entered, left) throughout.
    fn insert<T: Idx>(&mut self, elem: T) -> Result<(usize, usize), Refusal>
        ensures { Changed kind self.old (insert (T.place elem)) result self.new };

    fn remove<T: Idx>(&mut self, elem: T) -> Result<(usize, usize), Refusal>
        ensures { Changed kind self.old (remove (T.place elem)) result self.new };

    fn clear(&mut self) -> (usize, usize)
        ensures { Changed kind self.old clear (Ok result) self.new };

    fn insert_all(&mut self) -> (usize, usize)
        ensures { Changed kind self.old insert_all (Ok result) self.new };

    // Makes each index a member exactly when the operator's table has 1 for (it was one, it is one of `other`).
    fn combine<O: Operator>(&mut self, op: &O, other: &Self) -> Result<(usize, usize), Refusal>
        ensures { Changed kind self.old (combining kind (O.table op.now) other.now)
            result self.new };

    fn is_empty(&self) -> bool
        ensures { result ≡ (count (kind.members self.now) == 0) }
    {
        self.count() == 0
    }

    // The names that masks are combined by, which are public and stay. They differ in the operator alone; the one call
    // that takes it is `combine`.
    fn union(&mut self, other: &Self) -> Result<(usize, usize), Refusal>
        ensures { Changed kind self.old (combining kind or_table other.now) result self.new }
    {
        self.combine(&Or, other)
    }

    fn intersect(&mut self, other: &Self) -> Result<(usize, usize), Refusal>
        ensures { Changed kind self.old (combining kind and_table other.now) result self.new }
    {
        self.combine(&And, other)
    }

    fn subtract(&mut self, other: &Self) -> Result<(usize, usize), Refusal>
        ensures { Changed kind self.old (combining kind subtract_table other.now) result self.new }
    {
        self.combine(&ComplementOperand { below: And }, other)
    }

    fn union_not(&mut self, other: &Self) -> Result<(usize, usize), Refusal>
        ensures { Changed kind self.old (combining kind union_not_table other.now) result self.new }
    {
        self.combine(&ComplementOperand { below: Or }, other)
    }

    // Takes the other mask's members over.
    fn clone_from(&mut self, other: &Self) -> Result<(usize, usize), Refusal>
        ensures { Changed kind self.old (combining kind second_table other.now) result self.new }
    {
        self.combine(&Second, other)
    }

    ghost laws: { Lawful kind };
}
