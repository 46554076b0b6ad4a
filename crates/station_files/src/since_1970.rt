//! The time of the system.
ghost use Rattle.std.specs.Prelude.{◌≡◌, ◌-◌, ◌^◌, ◌/◌, min};
ghost use Rattle.std.specs.Duration.{as_nanos};

use std::time::{Clock, Duration};

/// The time of the system in milliseconds since 1970, UTC, or 0 if it can't be read.
pub fn milliseconds_since_1970<R: Clock>(rt: &R) -> u64 {
    match rt.since_1970() {
        Ok(passed) => milliseconds(passed),
        Err(_) => 0,
    }
}

/// Whole milliseconds, up to 2^64 - 1.
pub fn milliseconds(passed: Duration) -> u64
    ensures { result ≡ min (as_nanos passed / 1000000) (2 ^ 64 - 1) }
{
    u64::try_from(passed.as_millis()).unwrap_or(u64::MAX)
}
