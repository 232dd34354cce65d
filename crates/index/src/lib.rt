// Refusals and index types: what every call of the mask library answers with, and what it is asked about.
#![tactic(auto)]

pub mod idx;
pub mod refusal;
pub mod sample;
pub mod slot;

pub use idx::Idx;
pub use refusal::{Refusal, Values};
pub use sample::Sample;
pub use slot::{Place, Slot};
