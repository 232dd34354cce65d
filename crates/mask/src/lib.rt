// Masks by their meaning: what every kind of mask is, what its calls answer, and what is true of any succession of them.
#![tactic(auto)]

pub mod calls;
pub mod collector;
pub mod kind;
pub mod lister;
pub mod successions;
pub mod trials;

pub use calls::Call;
pub use collector::Collector;
pub use kind::{Mask, Refused};
pub use lister::list;
pub use successions::{Left, NotRun, run_from_new};
pub use trials::{NotTried, trials_agree};
