//! Positions in degrees.

/// An angle of `num / den` degrees. The fraction need not be reduced, and `den` is at least 1.
#[derive(Clone, Copy, Debug, PartialEq, Eq)]
pub struct Degrees {
    pub num: i64,
    pub den: u32,
}

/// A point on the earth, as [`pair`](crate::pair) and [`surface_pair`](crate::surface_pair) find it.
#[derive(Clone, Copy, Debug, PartialEq, Eq)]
pub struct Position {
    /// From -90 to 90 degrees.
    pub lat: Degrees,
    /// From -180 to below 180 degrees, where all bins of the pair are below 2^17.
    pub lon: Degrees,
}

/// The point to which [`surface_pair`](crate::surface_pair) finds the nearest position, in 1/10,000,000 degree.
#[derive(Clone, Copy, Debug, PartialEq, Eq)]
pub struct Reference {
    /// From -90 to 90 degrees.
    pub lat: i32,
    /// From -180 to 180 degrees.
    pub lon: i32,
}
