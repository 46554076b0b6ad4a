//! How old an entry may be, and for what.

/// How long an aircraft is live after a frame, and how long a value is shown, in milliseconds.
pub const LIFE_MS: u64 = 60_000;

/// How far apart in time the two places of a position may be, in milliseconds.
pub const PAIR_MS: u64 = 10_000;

/// How long an entry is recent, in milliseconds: as long as a position is shown, and as its older place came before it.
pub const RECENT_MS: u64 = 70_000;
