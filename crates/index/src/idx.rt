// Index types: a type whose values each stand for one number below a limit.
ghost use Rattle.std.specs.Prelude.{◌≡◌, ℕ, ◌+◌, ◌^◌, ◌<◌, nat_le};
ghost use Rattle.index.specs.Indices.{Found, Moved};
ghost use Rattle.std.proofs.Common.{rules};

// Its calls have the names of the Rust crate's trait, so `new` and `index` stand for TryFrom and From.
pub trait Idx: Copy {
    // The first number that has no value.
    const LIMIT: usize;

    ghost LIMIT: { ℕ };
    // The number that a value stands for. Clauses cite it with LIMIT; no record holds both, since the language ties LIMIT
    // to the constant by its name.
    ghost place: { Self → ℕ };

    // Whether every index below `domain` has a value.
    fn covers(domain: usize) -> bool
        ensures { result ≡ nat_le domain LIMIT }
    {
        domain <= Self::LIMIT
    }

    // The value of an index below the limit, and nothing for any other.
    fn new(index: usize) -> Option<Self>
        ensures { Found LIMIT place index result };

    fn index(self) -> usize
        ensures { result ≡ place self };

    // The value `amount` further on, and nothing where that is at or past the limit.
    fn plus(self, amount: usize) -> Option<Self>
        ensures { Found LIMIT place (place self + amount) result }
    {
        Self::new(self.index().checked_add(amount)?)
    }

    // Goes `amount` further on, or answers nothing and stays where that is at or past the limit.
    fn increment_by(&mut self, amount: usize) -> Option<()>
        ensures { Moved LIMIT place self.old amount self.new result }
    {
        *self = self.plus(amount)?;
        Some(())
    }

    ghost small: { LIMIT < 2 ^ 64 };

    ghost apart: { (x y : Self) → place x ≡ place y → x ≡ y };
}

// Every number but the last, 2^64 - 1, so that a domain can always be counted.
impl Idx for usize {
    const LIMIT: usize = usize::MAX;

    ghost LIMIT = { 18446744073709551615 };

    ghost place = { λ x. x };

    ghost small = { Prim.search rules };

    ghost apart = { Prim.search rules };

    fn new(index: usize) -> Option<usize> {
        (index < Self::LIMIT).then_some(index)
    }

    fn index(self) -> usize {
        self
    }
}
