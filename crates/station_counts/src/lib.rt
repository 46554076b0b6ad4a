//! What a receiver has counted so far, and which limits its station has met. Others read both without waiting.
#![tactic(auto)]

mod counts;
mod limits_met;

pub use counts::{Counts, Reasons, Refusals, SharedCounts};
pub use limits_met::{LimitFlags, LimitsMet};
