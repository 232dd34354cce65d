// A kind of mask of one's own, written against the trait alone.
#![tactic(auto)]

pub mod all_or_nothing;
mod flags;
pub mod mask_calls;
#[cfg(test)]
mod tests;

pub use all_or_nothing::AllOrNothing;
