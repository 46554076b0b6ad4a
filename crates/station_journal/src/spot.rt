//! Places of aircraft in the air and on the ground.
ghost use Rattle.std.specs.Prelude.{◌≡◌};
ghost use Rattle.station_journal.specs.Past.{spot_from, place_from};

use modes_fields::Place;

/// A place in compact position reporting, as an airborne or a surface position sent it. Kept with its time it takes 24
/// bytes; a [`Place`] beside the kind would take 32.
#[derive(Clone, Copy, Debug, PartialEq, Eq)]
pub struct Spot {
    /// Whether a surface position sent it.
    pub surface: bool,
    /// Whether the place is in the odd grid.
    pub odd: bool,
    /// The bin of the latitude, in 1/2^17 of a zone: below 131,072.
    pub lat: u32,
    /// The bin of the longitude, in 1/2^17 of a zone: below 131,072.
    pub lon: u32,
}

impl Spot {
    /// The place, which a surface position sent or an airborne one.
    pub fn new(surface: bool, place: Place) -> Self
        ensures { result ≡ spot_from surface place }
    {
        let Place { odd, lat, lon } = place;
        Spot {
            surface,
            odd,
            lat,
            lon,
        }
    }

    /// The place as it was sent.
    pub fn place(&self) -> Place
        ensures { result ≡ place_from self.now }
    {
        Place {
            odd: self.odd,
            lat: self.lat,
            lon: self.lon,
        }
    }
}
