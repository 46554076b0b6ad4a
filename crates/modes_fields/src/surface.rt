//! Surface positions: messages of type codes 5 to 8.
ghost use Rattle.std.specs.Prelude.{◌≡◌, ◌^◌, ◌<◌, ◌≤◌, IfSome};
ghost use Rattle.modes_fields.specs.Surfaces.{movement_speed as movement_speed_of, track_in, surface_velocity_in};

use crate::message::Message;
use crate::place::Place;
use crate::velocity::Velocity;

/// What a surface position carries (ICAO Doc 9871, register 06).
#[derive(Clone, Copy, Debug, PartialEq, Eq)]
pub struct Surface {
    /// A [`Velocity::Surface`], if the movement code gives a speed.
    pub velocity: Option<Velocity>,
    /// In zones a quarter of the size of those of an airborne position.
    pub place: Place,
}

/// The least ground speed of a movement code, in eighths of a knot (ICAO Doc 9871, register 06).
///
/// Code 1 is standing. Then come steps of 1/8 knot from 1/8, 1/4 from 1, 1/2 from 2, 1 from 15, 2 from 70 and 5 from 100
/// knots. Code 124 is 175 knots and more.
///
/// None of 0, which says nothing, and of 125 and above, which are reserved.
#[tactic(auto, unfolding(crate::specs::Surfaces::movement_speed))]
pub fn movement_speed(code: u16) -> Option<u16>
    ensures value { result ≡ movement_speed_of code }
    ensures most { IfSome result (λ speed. speed ≤ 1400) }
{
    match code {
        1 => Some(0),
        2..=8 => Some(1 + (code - 2)),
        9..=12 => Some(8 + 2 * (code - 9)),
        13..=38 => Some(16 + 4 * (code - 13)),
        39..=93 => Some(120 + 8 * (code - 39)),
        94..=108 => Some(560 + 16 * (code - 94)),
        109..=123 => Some(800 + 40 * (code - 109)),
        124 => Some(1400),
        _ => None,
    }
}

// The track in a message of a surface position, in 1/128 turn, where it is given.
#[tactic(auto, unfolding(crate::specs::Surfaces::track_in))]
fn message_track(message: &Message) -> Option<u8>
    ensures { result ≡ track_in message.now }
{
    if message.bit(13) {
        Some(message.field(14, 20) as u8)
    } else {
        None
    }
}

// The velocity in a message of a surface position, where the movement gives a speed.
#[tactic(auto, unfolding(crate::specs::Surfaces::surface_velocity_in))]
pub(crate) fn message_surface_velocity(message: &Message) -> Option<Velocity>
    ensures { result ≡ surface_velocity_in message.now }
{
    let speed = movement_speed(message.field(6, 12) as u16)?;
    Some(Velocity::Surface {
        speed,
        track: message_track(message),
    })
}
