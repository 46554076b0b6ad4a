//! Laws of what a table prints: where each field is in a line, and that its values are read back from the bytes.
#![tactic(auto)]

pub mod laws;
