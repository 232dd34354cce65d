// Worked cases, as tests through the public calls. Expected values are worked out by hand or come from the Rust crate.
#![tactic(auto)]

#[cfg(test)]
mod dense_masks;
#[cfg(test)]
mod index_types;
#[cfg(test)]
mod word_rows;
