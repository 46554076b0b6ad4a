//! The plain form of the journal: a search of all its entries finds the rows of the table, and why a call is refused.
//!
//! It is the code that is nearest to the definitions. Other programs may run it, and tests compare the running book of
//! `station_book` with it. The ground station never runs it.

pub mod following;
pub mod repeats;
pub mod search;
mod verdict;
