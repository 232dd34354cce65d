// Listing a mask's members.
ghost use Rattle.std.specs.Prelude.{◌≡◌, ℕ, ◌-◌, ◌<◌, ◌≤◌, true, false, length, if◌then◌else◌, Ok, nat_eq};
ghost use Rattle.mask.specs.Machine.{count};
ghost use Rattle.mask.specs.Collectors.{held, free, SameLoan, Listed, Put};
ghost use Rattle.words.specs.Bits.{bit, HasBits};

use crate::collector::Collector;
use crate::kind::Mask;
use index::{Idx, Refusal};
use words::{WORD_BITS, Word, min_bit, num_words};

// The word with one bit that was set taken out.
fn without_bit(word: Word, k: usize) -> Word
    requires inside { k < 64 }
    requires set { bit word k ≡ true }
    ensures less { result < word }
    ensures bits { HasBits result (λ b. if nat_eq b k then false else bit word b) }
{
    word & !(1 << k)
}

// Puts one value for each member, rising, into the next places, where type and places suffice.
// A kind answers a word by its number, so there is no slice of words to go over.
fn put_members<M: Mask, T: Idx>(mask: &M, out: &mut Collector<'_, T>)
    requires covered { M.kind.domain mask.now ≤ T.LIMIT }
    requires room { count (M.kind.members mask.now) ≤ free out.old }
    ensures puts { Put T.LIMIT T.place (M.kind.members mask.now) out.old.filled (held out.old)
        out.new.filled (held out.new) (Ok (count (M.kind.members mask.now))) }
    ensures loan { SameLoan out.old out.new }
{
    for k in 0..num_words(mask.domain_size()) {
        let mut rest = mask.member_word(k);
        while let Some(bit) = min_bit(rest) {
            let value = T::new(WORD_BITS * k + bit).unwrap();
            out.push(value);
            rest = without_bit(rest, bit);
        }
    }
}

// Lists the members, rising, into the next places of the collector, and answers how many they are.
pub fn list<M: Mask, T: Idx>(mask: &M, out: &mut Collector<'_, T>) -> Result<usize, Refusal>
    ensures { Listed T.LIMIT T.place (M.kind.domain mask.now) (M.kind.members mask.now)
        out.old out.new result }
{
    if !T::covers(mask.domain_size()) {
        return Err(Refusal::Limit);
    }
    let all = mask.count();
    if out.free() < all {
        return Err(Refusal::Places);
    }
    put_members(mask, out);
    Ok(all)
}
