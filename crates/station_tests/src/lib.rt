//! Tests of station_shared and station_record by their public calls.
#![tactic(auto)]

#[cfg(test)]
mod comparing;
#[cfg(test)]
mod fakes;
#[cfg(test)]
mod station;
#[cfg(test)]
mod worker;
#[cfg(test)]
mod writing;
