//! Tests of `modes_frame`, `modes_fields` and `modes_cpr` by their public calls.
#![tactic(auto)]

#[cfg(test)]
mod comparing;
#[cfg(test)]
mod fields;
#[cfg(test)]
mod frames;
#[cfg(test)]
mod known;
#[cfg(test)]
mod positions;
#[cfg(test)]
mod statuses;
#[cfg(test)]
mod surface;
#[cfg(test)]
mod surface_positions;
