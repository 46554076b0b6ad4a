//! Compact position reporting (CPR), airborne and surface: from places to positions and back, over exact fractions.
//! ICAO Doc 9871 appendix C.2.6, RTCA DO-260B appendix A.1.7.
#![tactic(auto)]

mod decoding;
mod encoding;
mod grids;
pub mod laws;
mod points;
mod rounding;
mod surface;
mod transitions;

pub use decoding::pair;
pub use encoding::encode;
pub use points::{Degrees, Position, Reference};
pub use surface::{surface_encode, surface_pair};
pub use transitions::zones;
