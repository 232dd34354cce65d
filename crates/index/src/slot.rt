// A slot that can be sold: a place in a break.
ghost use Rattle.std.specs.Prelude.{◌≡◌, ◌+◌, ◌*◌, ◌<◌};
ghost use Rattle.index.specs.Slots.{number, slot_index, Numbered};
ghost use Rattle.std.proofs.Common.{rules};

use crate::idx::Idx;
use thiserror::Error;

// The eight places of a break, in the order in which they are heard.
#[derive(Clone, Copy, PartialEq, Eq, Debug)]
pub enum Place {
    First,
    Second,
    Third,
    Fourth,
    Fifth,
    Sixth,
    Seventh,
    Eighth,
}

const PLACES: usize = 8;

// A number that no place of a break has.
#[derive(Clone, Copy, PartialEq, Eq, Debug, Error)]
#[error("no place of a break has the number {0}")]
pub struct NoPlace(pub usize);

// An enum of places keeps every slot in range without an invariant, so slots can lie in any slice.
#[derive(Clone, Copy, PartialEq, Eq, Debug)]
pub struct Slot {
    pub break_number: u16,
    pub place: Place,
}

impl Place {
    // The place's number, from 0, which the cast of an enum without fields gives.
    pub fn number(self) -> usize
        ensures { result ≡ number self }
    {
        self as usize
    }
}

impl TryFrom<usize> for Place {
    type Error = NoPlace;

    ghost try_from_gives = { Numbered };

    fn try_from(number: usize) -> Result<Place, NoPlace> {
        match number {
            0 => Ok(Place::First),
            1 => Ok(Place::Second),
            2 => Ok(Place::Third),
            3 => Ok(Place::Fourth),
            4 => Ok(Place::Fifth),
            5 => Ok(Place::Sixth),
            6 => Ok(Place::Seventh),
            7 => Ok(Place::Eighth),
            _ => Err(NoPlace(number)),
        }
    }
}

impl Idx for Slot {
    const LIMIT: usize = 524_288;

    ghost LIMIT = { 524288 };

    ghost place = { slot_index };

    ghost small = { Prim.search rules };

    ghost apart = { Prim.search rules };

    fn new(index: usize) -> Option<Slot> {
        let break_number = u16::try_from(index / PLACES).ok()?;
        let place = Place::try_from(index % PLACES).ok()?;
        Some(Slot {
            break_number,
            place,
        })
    }

    fn index(self) -> usize {
        PLACES * usize::from(self.break_number) + self.place.number()
    }
}
