// Dense masks: a bit for each index, in words that are handed over.
#![tactic(auto)]

pub mod bit_set;
mod inner;
pub mod mask_calls;
pub mod set_calls;

pub use bit_set::DenseBitSet;
