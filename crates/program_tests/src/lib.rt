//! Tests of station_main by its public calls: its arguments, `replay`, tables as JSON, and limits.
#![tactic(auto)]

#[cfg(test)]
mod comparing;
#[cfg(test)]
mod jobs;
#[cfg(test)]
mod trials;
