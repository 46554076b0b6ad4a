//! Tests of station_portions by its public calls.
#![tactic(auto)]

#[cfg(test)]
mod comparing;
#[cfg(test)]
mod portions;
