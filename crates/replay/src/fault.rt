// Why a call is not carried out.
ghost use Rattle.std.specs.Prelude.{◌≡◌};
ghost use Rattle.replay.specs.declared.fault.Fault.TheVariants.{Refused, Memory};

use index::{Refusal, Values};
use std::alloc::{AllocError, AllocFailed};
use std::error::Error;
use std::fmt;

#[derive(Clone, Copy, PartialEq, Eq, Debug)]
pub enum Fault {
    // The line cannot be read.
    Text,
    // There is no mask of a number that the call names.
    Missing,
    Refused(Refusal),
    Memory,
}

impl Error for Fault {}

impl From<Refusal> for Fault {
    ghost from_gives = { λ e f. f ≡ Refused e };

    fn from(refusal: Refusal) -> Fault {
        Fault::Refused(refusal)
    }
}

// Two errors of memory: `?` meets the one on a Vec and the other on a map, and no impl takes both.
impl From<AllocError> for Fault {
    ghost from_gives = { λ _ f. f ≡ Memory };

    fn from(_e: AllocError) -> Fault {
        Fault::Memory
    }
}

impl<T: Drop> From<AllocFailed<T>> for Fault {
    ghost from_gives = { λ _ f. f ≡ Memory };

    fn from(_e: AllocFailed<T>) -> Fault {
        Fault::Memory
    }
}

// By hand: a refusal is printed by its number, where a derive would print its sentence.
impl fmt::Display for Fault {
    fn fmt<W: fmt::Write>(&self, f: &mut fmt::Formatter<W>) -> fmt::Result {
        match *self {
            Fault::Text | Fault::Missing => f.write_str("unreadable"),
            Fault::Refused(refusal) => show_refusal(refusal, f),
            Fault::Memory => f.write_str("no memory"),
        }
    }
}

// The refusal's number, then its values: its own Display prints a sentence, and this program prints numbers.
fn show_refusal<W: fmt::Write>(refusal: Refusal, f: &mut fmt::Formatter<W>) -> fmt::Result {
    let (number, values) = refusal.returned();
    match values {
        Values::Nothing => write!(f, "refused {number}"),
        Values::One(value) => write!(f, "refused {number} {value}"),
        Values::Two(first, second) => write!(f, "refused {number} {first} {second}"),
    }
}
