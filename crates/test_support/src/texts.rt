//! Lines and tables that several tests have.

/// An input without lines.
pub const NO_LINES: &[u8] = b"";

/// A run with the longest time between tables.
pub const EVERY_HOUR: &str = "run --every=3600000";

/// The time at which these runs start, in milliseconds since 1970.
pub const ORIGIN: u64 = 1_700_000_000_000;

/// The line of a frame with the callsign of one aircraft.
pub const IDENTIFICATION: &str = "*8D4840D6202CC371C32CE0576098;\n";

/// The line of a frame with the velocity of another aircraft.
pub const VELOCITY: &str = "*8D485020994409940838175B284F;\n";

/// The first table where nothing was received.
pub const TABLE_OF_NOBODY: &str = tables!("now 0 aircraft 0" => []);

/// The first table after [`IDENTIFICATION`].
pub const TABLE_OF_FIRST: &str = tables!("now 0 aircraft 1" => [
    "4840D6 KLM1023       -    -            -      -          -          -   0",
]);

/// The first table after [`VELOCITY`].
pub const TABLE_OF_SECOND: &str = tables!("now 0 aircraft 1" => [
    "485020 -             -    -      -8/-159   -832          -          -   0",
]);

/// The first table after both.
pub const TABLE_OF_BOTH: &str = tables!("now 0 aircraft 2" => [
    "4840D6 KLM1023       -    -            -      -          -          -   0",
    "485020 -             -    -      -8/-159   -832          -          -   0",
]);

/// The tallies of two paths with one accepted frame each.
pub const ONE_FRAME_EACH: &str = concat!(
    "lines 1 frames 1 ticks 0 shows 0 blank 0 modeac 0 faults 0 accepted 1 refused 0\n",
    "lines 1 frames 1 ticks 0 shows 0 blank 0 modeac 0 faults 0 accepted 1 refused 0\n",
);

/// What is printed where an allocation was refused.
pub const NO_MEMORY: &str = "groundstation: no memory\n";

/// What is printed where a write of the output failed.
pub const WRITE_FAILED: &str = "groundstation: write failed\n";
