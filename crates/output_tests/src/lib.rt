//! Tests of station_main by its public calls: what a run writes, and when.
#![tactic(auto)]

#[cfg(test)]
mod comparing;
#[cfg(test)]
mod jobs;
#[cfg(test)]
mod trials;
