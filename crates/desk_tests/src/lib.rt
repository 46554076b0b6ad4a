//! Tests of station_lines and station_replay by their public calls.
#![tactic(auto)]

#[cfg(test)]
mod command;
#[cfg(test)]
mod comparing;
#[cfg(test)]
mod desk;
#[cfg(test)]
mod desk_pump;
#[cfg(test)]
mod fakes;
#[cfg(test)]
mod from_read;
#[cfg(test)]
mod piece;
#[cfg(test)]
mod replaying;
