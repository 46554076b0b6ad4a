//! The running book: a table of fixed size that takes one entry after another and never looks back at them. It shows
//! what a search of all of them finds.
#![tactic(auto)]

pub mod book;
pub mod call;
mod copying;
mod first_frames;
pub mod laws;
mod table;
mod verdicts;

pub use book::Book;
pub use call::{Call, Change};
pub use verdicts::verdict;
