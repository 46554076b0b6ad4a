//! Laws of the journal's definitions: what the plain search means, in terms of places in the list of entries.
#![tactic(auto)]

pub mod laws;
