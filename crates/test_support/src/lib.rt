//! What tests of the program share: the program over words and streams, a clock that shows a test's times, paths that last, and
//! files in a folder of their own.
#![tactic(auto)]

/// The text of tables, each by its first line and its rows.
#[macro_export]
macro_rules! tables {
    ($($first:literal => [$($row:literal),* $(,)?]),* $(,)?) => {
        concat!($(
            $first,
            "\n  ADDR CALLSIGN    ALT SQWK     VELOCITY   VERT        LAT        LON AGE\n",
            $($row, "\n",)*
        )*)
    };
}

mod bounds;
mod fakes;
mod feeding;
mod files;
mod lasting;
mod ran;
mod replies;
mod rig;
mod staged;
mod texts;

pub use bounds::{FileHost, Own, System};
pub use fakes::Closed;
pub use feeding::{FRAMES, TIMES, feed, feed_part};
pub use files::TwoFiles;
pub use lasting::{Feed, Lasted, Lasting, becomes_set};
pub use ran::{Ran, text, words_of};
pub use replies::{all_call_replies, replies_to};
pub use rig::Rig;
pub use staged::Staged;
pub use texts::{
    EVERY_HOUR, IDENTIFICATION, NO_LINES, NO_MEMORY, ONE_FRAME_EACH, TABLE_OF_BOTH, TABLE_OF_FIRST,
    TABLE_OF_NOBODY, TABLE_OF_SECOND, VELOCITY, WRITE_FAILED,
};
