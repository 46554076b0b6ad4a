//! That one list of accepted calls accounts for a whole run: laws over what `run` leaves.
#![tactic(auto)]

pub mod laws;
