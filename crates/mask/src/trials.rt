// Trials of two lists of calls on every pattern of bits, sixty-four patterns to a word.
ghost use Rattle.std.specs.Prelude.{◌≡◌, ℕ, ◌+◌, ◌*◌, ◌<◌, ◌++◌, None, Ok};
ghost use Rattle.mask.specs.Kinds.{Tells};
ghost use Rattle.mask.specs.Trials.{Named, untried_call, untried, bit_after, pattern_trial, Agree, Tried};
ghost use Rattle.words.specs.Bits.{bit, HasBits};

use crate::calls::Call;
use crate::kind::Mask;
use index::Idx;
use words::{Operator, Word};

// Operands from this number on cannot be tried: each one doubles the patterns.
const OPERANDS: usize = 16;

// A pattern has one bit for the start and one for each operand, so there are 2^17, and 64 go into a word.
const ROUNDS: usize = 2048;

// Bit k of LOW_BITS[b] is bit b of k.
const LOW_BITS: [Word; 6] = [
    0xAAAA_AAAA_AAAA_AAAA,
    0xCCCC_CCCC_CCCC_CCCC,
    0xF0F0_F0F0_F0F0_F0F0,
    0xFF00_FF00_FF00_FF00,
    0xFFFF_0000_FFFF_0000,
    0xFFFF_FFFF_0000_0000,
];

// Why two lists cannot be tried: a call on a single index, or an operand's number that is too high.
#[derive(Clone, Copy, PartialEq, Eq, Debug)]
pub enum NotTried {
    Single,
    Operand(usize),
}

// Why a call cannot be tried, if it cannot: an Option, as what a search finds. Calls are data, so they are matched on.
fn untried_call<T: Idx, O: Operator>(call: Call<T, O>) -> Option<NotTried>
    ensures { result ≡ untried_call call }
{
    match call {
        Call::Insert(_) | Call::Remove(_) => Some(NotTried::Single),
        Call::Combine(_, j) if j >= OPERANDS => Some(NotTried::Operand(j)),
        _ => None,
    }
}

// What the first call of a list that cannot be tried says, if there is one: an Option, as the first answer that a search finds.
fn first_untried<T: Idx, O: Operator>(calls: &[Call<T, O>]) -> Option<NotTried>
    ensures { result ≡ untried calls.now }
{
    calls.iter().find_map(|c| untried_call(*c))
}

// Why two lists cannot be tried: what the first list's calls say before the second's. It becomes the error of `trials_agree`
// alone. Each list is gone over by itself, since over a chain of both it took four times as long.
// Two lists side by side, here and below: a pair of them would be made and taken apart at once.
fn untried<T: Idx, O: Operator>(xs: &[Call<T, O>], ys: &[Call<T, O>]) -> Option<NotTried>
    ensures { result ≡ untried (xs.now ++ ys.now) }
{
    first_untried(xs).or_else(|| first_untried(ys))
}

// Bit b of the sixty-four patterns of a round, as a word.
fn pattern_word(b: usize, round: usize) -> Word
    requires { b < 17 }
    ensures { HasBits result (λ k. bit (64 * round + k) b) }
{
    if b < 6 {
        LOW_BITS[b]
    } else if (round >> (b - 6)) % 2 == 1 {
        Word::MAX
    } else {
        0
    }
}

// One call on the sixty-four patterns of a round. Calls are data, so they are matched on. A call is read by its index
// type's places and its operator's tables, which go side by side in clauses: they are of two types that vary apart.
fn trial_step<T: Idx, O: Operator>(call: Call<T, O>, word: Word, round: usize) -> Word
    requires { Named 16 call }
    ensures { HasBits result
        (λ k. bit_after T.place O.table (λ j. bit (64 * round + k) (j + 1)) (bit word k) call) }
{
    match call {
        Call::Insert(_) | Call::Remove(_) => word,
        Call::Clear => 0,
        Call::InsertAll => Word::MAX,
        Call::Combine(o, j) => o.apply(word, pattern_word(j + 1, round)),
    }
}

// What a list leaves of the sixty-four patterns of a round.
fn trial_word<T: Idx, O: Operator>(calls: &[Call<T, O>], round: usize) -> Word
    requires { untried calls.now ≡ None }
    ensures { HasBits result (λ k. pattern_trial T.place O.table (64 * round + k) calls.now) }
{
    let mut word = pattern_word(0, round);
    for c in calls {
        word = trial_step(*c, word, round);
    }
    word
}

// Whether two lists leave the same of every pattern.
fn patterns_agree<T: Idx, O: Operator>(xs: &[Call<T, O>], ys: &[Call<T, O>]) -> bool
    requires first { untried xs.now ≡ None }
    requires second { untried ys.now ≡ None }
    ensures { Tells result (Agree T.place O.table xs.now ys.now) }
{
    for round in 0..ROUNDS {
        if trial_word(xs, round) != trial_word(ys, round) {
            return false;
        }
    }
    true
}

// The same answer says whether the lists leave masks of equal pictures.
// Beside `trials_agree`, which a rule of the project keeps thin, since the proof of this is by hand.
fn pictures_agree<M: Mask, T: Idx, O: Operator>(xs: &[Call<T, O>], ys: &[Call<T, O>]) -> bool
    requires { untried (xs.now ++ ys.now) ≡ None }
    ensures { Tried T.place O.table M.kind xs.now ys.now (Ok result) }
{
    patterns_agree(xs, ys)
}

// Tries two lists of clear, insert_all and combine on every pattern of bits,
// and answers whether they leave masks of equal pictures from every start and with every filling of the operands.
// What the search for a call that cannot be tried finds is the error.
pub fn trials_agree<M: Mask, T: Idx, O: Operator>(
    xs: &[Call<T, O>],
    ys: &[Call<T, O>],
) -> Result<bool, NotTried>
    ensures { Tried T.place O.table M.kind xs.now ys.now result }
{
    match untried(xs, ys) {
        Some(why) => Err(why),
        None => Ok(pictures_agree::<M, T, O>(xs, ys)),
    }
}
