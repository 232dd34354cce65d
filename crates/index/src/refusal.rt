// Why a call was refused.
ghost use Rattle.std.specs.Prelude.{◌≡◌, List, ◌∷◌};
ghost use Rattle.index.specs.Refusals.{returned, listed};

use thiserror::Error;

// A refused call changes no mask, no memory and no collector.
// Each cause has one number, from 1 in the order below, and stands for nothing else.
#[derive(Clone, Copy, PartialEq, Eq, Debug, Error)]
pub enum Refusal {
    // 1: the index, or column, is at or past the domain.
    #[error("refusal 1: index {0} is at or past the domain")]
    Index(usize),
    // 2: the domains of the two masks differ, own first.
    #[error("refusal 2: the domains differ, {0} and {1}")]
    Domains(usize, usize),
    // 3: the range ends at or past the domain, is unbounded on domain 0, or starts past 2^64 - 1.
    #[error("refusal 3: the range reaches past the domain")]
    Range,
    // 4: too few words or records were handed over at creation.
    #[error("refusal 4: too little memory was handed over")]
    Memory,
    // 5: the mask cannot hold the result.
    #[error("refusal 5: the mask cannot hold the result")]
    Holding,
    // 6: the index type's limit is below the domain.
    #[error("refusal 6: the index type's limit is below the domain")]
    Limit,
    // 7: the row is at or past the rows.
    #[error("refusal 7: row {0} is at or past the rows")]
    Row(usize),
    // 8: too few free places for the results.
    #[error("refusal 8: too few free places for the results")]
    Places,
}

// The values that a refusal returns beside its number: up to two, so an Option would not hold them.
#[derive(Clone, Copy, PartialEq, Eq, Debug)]
pub enum Values {
    Nothing,
    One(usize),
    Two(usize, usize),
}

impl Refusal {
    // The number and the values that this refusal returns. A rule of the project gives each cause a number
    // (docs/REFUSALS.md), and an enum with values has no number of its own for each variant.
    pub fn returned(self) -> (u8, Values)
        ensures value { result.0 ∷ listed result.1 ≡ returned self }
        ensures apart { (other : Refusal) → returned other ≡ returned self → other ≡ self }
    {
        match self {
            Refusal::Index(index) => (1, Values::One(index)),
            Refusal::Domains(own, other) => (2, Values::Two(own, other)),
            Refusal::Range => (3, Values::Nothing),
            Refusal::Memory => (4, Values::Nothing),
            Refusal::Holding => (5, Values::Nothing),
            Refusal::Limit => (6, Values::Nothing),
            Refusal::Row(row) => (7, Values::One(row)),
            Refusal::Places => (8, Values::Nothing),
        }
    }
}
