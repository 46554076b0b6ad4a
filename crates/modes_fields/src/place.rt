//! Places in compact position reporting.

/// A place in compact position reporting, as an airborne or a surface position sends it.
#[derive(Clone, Copy, Debug, PartialEq, Eq)]
pub struct Place {
    /// Whether the place is in the odd grid.
    pub odd: bool,
    /// The bin of the latitude, in 1/2^17 of a zone: below 131,072.
    pub lat: u32,
    /// The bin of the longitude, in 1/2^17 of a zone: below 131,072.
    pub lon: u32,
}
