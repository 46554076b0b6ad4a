//! Tests of station_main by its public calls: the paths of a run, its rounds and its hand-overs.
#![tactic(auto)]

#[cfg(test)]
mod comparing;
#[cfg(test)]
mod jobs;
#[cfg(test)]
mod trials;
