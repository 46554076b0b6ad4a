//! That one history accounts for all that the seats of a station did: laws over what its threads leave.
#![tactic(auto)]

pub mod laws;
