//! Velocities, and what measures vertical rates.

/// A velocity, as a message of type code 19 or a surface position sends it.
#[derive(Clone, Copy, Debug, PartialEq, Eq)]
pub enum Velocity {
    /// Over ground, in knots: eastward and northward, -4,088 to 4,088 each.
    Ground {
        /// Negative westward.
        east: i16,
        /// Negative southward.
        north: i16,
    },
    /// In the air.
    Air {
        /// In 1/1024 of a turn from north, clockwise: 0 to 1,023.
        heading: u16,
        /// True airspeed; otherwise indicated airspeed.
        is_true: bool,
        /// In knots: 0 to 4,088.
        speed: u16,
    },
    /// On the ground.
    Surface {
        /// The least speed of its step, in eighths of a knot: 0 to 1,400.
        speed: u16,
        /// In 1/128 of a turn from north, clockwise, if it is given: 0 to 127.
        track: Option<u8>,
    },
}

/// What measured a vertical rate.
#[derive(Clone, Copy, Debug, PartialEq, Eq)]
pub enum RateSource {
    /// The satellites of GNSS: a geometric rate.
    Gnss,
    /// A barometer: a rate of pressure altitude.
    Barometric,
}
