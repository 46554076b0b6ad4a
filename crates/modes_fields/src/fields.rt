//! What frames carry.
ghost use Rattle.std.specs.Prelude.{◌≡◌};
ghost use Rattle.modes_fields.specs.Kinds.{fields_by};

use crate::callsign::Callsign;
use crate::category::Category;
use crate::emergency::Emergency;
use crate::place::Place;
use crate::squawk::Squawk;
use crate::surface::Surface;
use crate::velocity::{RateSource, Velocity};

/// What one frame carries. A field that it does not carry is None. A squitter is a frame of DF 17, or of DF 18 with
/// control field 0.
#[derive(Clone, Copy, Debug, Default, PartialEq, Eq)]
pub struct Fields {
    /// Of a squitter with type code 1 to 4.
    pub callsign: Option<Callsign>,
    /// Of a squitter with type code 1 to 4.
    pub category: Option<Category>,
    /// In feet, -1,200 to 126,700: of DF 0, 4, 16 and 20, and of a squitter with type code 9 to 18.
    pub altitude: Option<i32>,
    /// Of DF 5 and 21.
    pub squawk: Option<Squawk>,
    /// Of a squitter with type code 28 and subtype 1.
    pub emergency: Option<Emergency>,
    /// Of a squitter with type code 19.
    pub velocity: Option<Velocity>,
    /// The vertical rate in feet per minute, negative downwards, -32,640 to 32,640: of a squitter with type code 19.
    pub vertical: Option<i32>,
    /// What measured the vertical rate: given where that is.
    pub rate_source: Option<RateSource>,
    /// Of a squitter with type code 9 to 18 and 20 to 22.
    pub place: Option<Place>,
    /// Of a squitter with type code 5 to 8.
    pub surface: Option<Surface>,
}

/// What a frame carries, by its kind: its downlink format, and in a squitter its type code.
#[derive(Clone, Copy, Debug, PartialEq, Eq)]
pub enum Carried {
    /// No field: any other downlink format or type code.
    Nothing,
    /// DF 0, 4, 16 and 20: the altitude in feet, -1,200 to 126,700, if the code has one.
    Altitude(Option<i32>),
    /// DF 5 and 21.
    Squawk(Squawk),
    /// Type code 1 to 4.
    Identification {
        /// If each of its codes is a character, and not all are spaces.
        callsign: Option<Callsign>,
        /// If it is given.
        category: Option<Category>,
    },
    /// Type code 5 to 8.
    SurfacePosition(Surface),
    /// Type code 9 to 18.
    AirbornePosition {
        /// The barometric altitude in feet, -1,200 to 126,700, if the code has one.
        altitude: Option<i32>,
        place: Place,
    },
    /// Type code 20 to 22: a place, with a GNSS height that isn't read.
    GnssPosition(Place),
    /// Type code 19.
    AirborneVelocity {
        /// If it is given.
        velocity: Option<Velocity>,
        /// The vertical rate in feet per minute, negative downwards, -32,640 to 32,640, if it is given.
        vertical: Option<i32>,
        /// What measured the vertical rate: given where that is.
        rate_source: Option<RateSource>,
    },
    /// Type code 28: the emergency, if the subtype is 1 and the state isn't reserved.
    AircraftStatus(Option<Emergency>),
}

impl Carried {
    /// The fields of the frame: those that its kind does not carry are None.
    #[inline(always)]
    pub fn fields(self) -> Fields
        ensures { result ≡ fields_by self }
    {
        match self {
            Carried::Nothing => Fields::default(),
            Carried::Altitude(altitude) => Fields {
                altitude,
                ..Fields::default()
            },
            Carried::Squawk(squawk) => Fields {
                squawk: Some(squawk),
                ..Fields::default()
            },
            Carried::Identification { callsign, category } => Fields {
                callsign,
                category,
                ..Fields::default()
            },
            Carried::SurfacePosition(surface) => Fields {
                surface: Some(surface),
                ..Fields::default()
            },
            Carried::AirbornePosition { altitude, place } => Fields {
                altitude,
                place: Some(place),
                ..Fields::default()
            },
            Carried::GnssPosition(place) => Fields {
                place: Some(place),
                ..Fields::default()
            },
            Carried::AirborneVelocity {
                velocity,
                vertical,
                rate_source,
            } => Fields {
                velocity,
                vertical,
                rate_source,
                ..Fields::default()
            },
            Carried::AircraftStatus(emergency) => Fields {
                emergency,
                ..Fields::default()
            },
        }
    }
}
