// Rows of words: writing, trimming and combining them.
ghost use Rattle.std.specs.Prelude.{◌≡◌, ◌%◌, true, false};
ghost use Rattle.words.specs.Rows.{Rewritten, Put, Updated, trimmed, changed, modifies};

use crate::bits::{turned, word_index_and_mask};
use crate::operators::Operator;
use crate::{WORD_BITS, Word};
use index::{Idx, Refusal};

// How many words are looked at before a row is left early: a cache line of them.
const GROUP_WORDS: usize = 8;

// Writes the index's bit, and answers whether that turned it. An index past the row is refused.
pub fn write<T: Idx>(words: &mut [Word], value: T, on: bool) -> Result<bool, Refusal>
    ensures { Put on (T.place value) words.old words.new result }
{
    let (word_index, mask) = word_index_and_mask(value);
    if word_index >= words.len() {
        return Err(Refusal::Index(value.index()));
    }
    // By index: through `get_mut` the proof did not close, since of what that lends a proof knows nothing afterwards.
    let word = words[word_index];
    let new_word = if on { word | mask } else { word & !mask };
    words[word_index] = new_word;
    Ok(new_word != word)
}

// The two ways by the names that the Rust crate has.
// Sets the index's bit, and answers whether it was clear. An index past the row is refused.
pub fn insert<T: Idx>(words: &mut [Word], value: T) -> Result<bool, Refusal>
    ensures { Put true (T.place value) words.old words.new result }
{
    write(words, value, true)
}

// Clears the index's bit, and answers whether it was set. An index past the row is refused.
pub fn remove<T: Idx>(words: &mut [Word], value: T) -> Result<bool, Refusal>
    ensures { Put false (T.place value) words.old words.new result }
{
    write(words, value, false)
}

// Clears the bits of the row's last word that lie past a domain which ends in it. An empty row has none.
pub fn clear_excess_bits_in_final_word(domain_size: usize, words: &mut [Word])
    ensures { Rewritten (trimmed (domain_size % 64) words.old) words.old words.new }
{
    let num_bits_in_final_word = domain_size % WORD_BITS;
    if num_bits_in_final_word > 0 {
        if let Some(last) = words.last_mut() {
            *last &= (1 << num_bits_in_final_word) - 1;
        }
    }
}

// Whether a report of entered and left says that any bit changed.
pub fn has_changed(report: (usize, usize)) -> bool
    ensures { result ≡ changed report.0 report.1 }
{
    let (entered, left) = report;
    entered > 0 || left > 0
}

// Does the work of `would_modify_words` with no early end, so that it runs over several words at a time.
// By index: over `lhs.iter().zip(rhs)` it took 1.4 times as long.
fn group_would_change<O: Operator>(lhs: &[Word], rhs: &[Word], op: &O) -> bool
    ensures { result ≡ modifies (O.table op.now) lhs.now rhs.now }
{
    let mut changed = 0;
    for k in 0..lhs.len().min(rhs.len()) {
        changed |= lhs[k] ^ op.apply(lhs[k], rhs[k]);
    }
    changed != 0
}

// Whether `update_words` would change any bit of `lhs`.
pub fn would_modify_words<O: Operator>(lhs: &[Word], rhs: &[Word], op: &O) -> bool
    ensures { result ≡ modifies (O.table op.now) lhs.now rhs.now }
{
    lhs.chunks(GROUP_WORDS)
        .zip(rhs.chunks(GROUP_WORDS))
        .any(|(own, operand)| group_would_change(own, operand, op))
}

// Does the work of `update_words` on a group in which some bit changes: one that stays costs neither a write nor a count.
// By index: through `iter_mut().zip(rhs)` the proof did not close, since a proof then knows the row's length alone.
fn update_group<O: Operator>(lhs: &mut [Word], rhs: &[Word], op: &O) -> (usize, usize)
    ensures { Updated (O.table op.now) lhs.old rhs.now lhs.new result }
{
    let mut entered: usize = 0;
    let mut left: usize = 0;
    for k in 0..lhs.len().min(rhs.len()) {
        let old = lhs[k];
        let new = op.apply(old, rhs[k]);
        lhs[k] = new;
        let (came, went) = turned(old, new);
        entered = entered.saturating_add(came);
        left = left.saturating_add(went);
    }
    (entered, left)
}

// Puts each word of `lhs` that has a fellow in `rhs` through the operator with it,
// and answers how many bits went from 0 to 1 and how many from 1 to 0.
pub fn update_words<O: Operator>(lhs: &mut [Word], rhs: &[Word], op: &O) -> (usize, usize)
    ensures { Updated (O.table op.now) lhs.old rhs.now lhs.new result }
{
    let mut entered: usize = 0;
    let mut left: usize = 0;
    let shared = lhs.len().min(rhs.len());
    // By index: through `chunks_mut` the proof did not close either, for the same reason.
    for start in (0..shared).step_by(GROUP_WORDS) {
        let end = start + GROUP_WORDS.min(shared - start);
        if group_would_change(&lhs[start..end], &rhs[start..end], op) {
            let (came, went) = update_group(&mut lhs[start..end], &rhs[start..end], op);
            entered = entered.saturating_add(came);
            left = left.saturating_add(went);
        }
    }
    (entered, left)
}
