// Work on rows of words over a domain: what the mask kinds are made of.
// These calls are inner: the sets above see to it that an index lies in the row and a row reaches its domain.
// They take plain slices with the domain beside them, since memory is handed over and a row may be a part of it.
#![tactic(auto)]

ghost use Rattle.std.specs.Prelude.{◌≡◌, ℕ, ◌+◌, ◌*◌, ◌/◌, ◌^◌, ◌<◌, ◌≤◌, Bool, true, false, not, ◌++◌, length, drop, replicate, if◌then◌else◌, vec_len};
ghost use Rattle.rows.specs.Members.{Becomes, Fit, IsRow, Lowest};
ghost use Rattle.words.specs.Bits.{holds, one, words_for};
ghost use Rattle.words.specs.Rows.{Rewritten, put};
ghost use Rattle.words.specs.Tables.{look};

use words::{
    Operator, WORD_BITS, Word, clear_excess_bits_in_final_word, min_bit, num_words, turned,
    update_words, word_below, word_index_and_mask, write,
};

// Whether the index's bit is set.
#[tactic(auto, using(crate::proofs::RowWords::bit_tested))]
pub fn has_bit(words: &[Word], index: usize) -> bool
    requires { index / 64 < length words.now }
    ensures { result ≡ holds words.now index }
{
    let (word_index, mask) = word_index_and_mask(index);
    words[word_index] & mask != 0
}

// Writes the index's bit, and answers whether that turned it: `write`, for a caller who knows that the index lies in the row.
pub fn write_bit(words: &mut [Word], index: usize, on: bool) -> bool
    requires { index / 64 < length words.old }
    ensures row { Rewritten (put words.old index on) words.old words.new }
    ensures value { result ≡ (if on then not (holds words.old index) else holds words.old index) }
{
    write(words, index, on).unwrap()
}

// The report of a call that turned one bit on or off, or none.
pub fn report_one(turned: bool, on: bool) -> (usize, usize)
    ensures came { result.0 ≡ (if on then one turned else 0) }
    ensures went { result.1 ≡ (if on then 0 else one turned) }
{
    match (turned, on) {
        (true, true) => (1, 0),
        (true, false) => (0, 1),
        _ => (0, 0),
    }
}

// Sets or clears every bit of the row below `domain`, and answers how many came and how many went.
pub fn fill_row(own: &mut [Word], domain: usize, on: bool) -> (usize, usize)
    requires { IsRow domain own.old }
    ensures { Becomes (λ _. on) domain own.old own.new result }
{
    let row = &mut own[0..num_words(domain)];
    let fill = if on { Word::MAX } else { 0 };
    let mut members = 0;
    for word in row.iter_mut() {
        // A cast, since a usize has no `From<u32>`.
        members += word.count_ones() as usize;
        *word = fill;
    }
    clear_excess_bits_in_final_word(domain, row);
    if on {
        (domain - members, 0)
    } else {
        (0, members)
    }
}

// Combines the row with another, over `domain` bits, and answers how many came and how many went.
// Only this call asks that the words fit 64 bits: a proof knows the size of a word only where the word is read.
pub fn combine_row<O: Operator>(
    op: &O,
    own: &mut [Word],
    other: &[Word],
    domain: usize,
) -> (usize, usize)
    requires row { IsRow domain own.old }
    requires fit { Fit domain own.old }
    requires other_enough { words_for domain ≤ length other.now }
    ensures { Becomes (λ i. look (O.table op.now) (holds own.old i) (holds other.now i))
        domain own.old own.new result }
{
    let whole = domain / WORD_BITS;
    let (entered, left) = update_words(&mut own[0..whole], &other[0..whole], op);
    if domain % WORD_BITS == 0 {
        return (entered, left);
    }
    // Bits past the domain would count and would stay, so the last word goes by itself.
    let old = own[whole];
    let new = op.apply(old, other[whole]) & word_below(domain, whole);
    own[whole] = new;
    let (came, went) = turned(old, new);
    (entered + came, left + went)
}

// The lowest set bit at or after `from`. So many words are as many as a domain can take.
pub fn next_set(words: &[Word], from: usize) -> Option<usize>
    requires { length words.now ≤ 2 ^ 58 }
    ensures { Lowest (holds words.now) from (64 * length words.now) result }
{
    let (start, mask) = word_index_and_mask(from);
    // Mask out all bits below `from`.
    let first = words.get(start)? & !(mask - 1);
    if let Some(bit) = min_bit(first) {
        return Some(WORD_BITS * start + bit);
    }
    let mut later = words.iter().enumerate().skip(start + 1);
    let (k, word) = later.find(|(_, word)| **word != 0)?;
    Some(WORD_BITS * k + min_bit(*word)?)
}

// Clears the first `n` words.
pub fn clear_words(words: &mut Vec<Word>, n: usize)
    requires { n ≤ vec_len words.old }
    ensures len { vec_len words.new ≡ vec_len words.old }
    ensures items { words.new.items ≡ replicate n 0 ++ drop n words.old.items }
{
    words[0..n].fill(0);
}
