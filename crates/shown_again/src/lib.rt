//! That a replay of the record of a run prints what the run printed: a law over what both leave.
#![tactic(auto)]

pub mod laws;
