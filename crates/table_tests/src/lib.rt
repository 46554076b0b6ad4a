//! Tests of `station_journal`, `station_book` and `station_report` by their public calls.
#![tactic(auto)]

#[cfg(test)]
mod book;
#[cfg(test)]
mod calls;
#[cfg(test)]
mod comparing;
#[cfg(test)]
mod journal;
#[cfg(test)]
mod known;
#[cfg(test)]
mod motion;
#[cfg(test)]
mod report;
