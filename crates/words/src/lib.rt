// Words of 64 bits, rows of them, and the operators that combine them.
#![tactic(auto)]

pub mod bits;
pub mod operators;
pub mod rows;
pub mod table;

pub use bits::{count_ones, max_bit, min_bit, num_words, turned, word_below, word_index_and_mask};
pub use operators::{And, ComplementOperand, Operator, Or, Second, apply_complemented_twice};
pub use rows::{
    clear_excess_bits_in_final_word, has_changed, insert, remove, update_words, would_modify_words,
    write,
};
pub use table::Table;

pub type Word = u64;

pub const WORD_BITS: usize = 64;
