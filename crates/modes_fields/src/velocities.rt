//! Velocities and vertical rates: messages of type code 19.
ghost use Rattle.std.specs.Prelude.{◌≡◌, ◌+◌, ◌*◌, ◌^◌, ◌<◌, ◌≤◌, IfSome};
ghost use Rattle.modes_fields.specs.Bits.{field as field_of};
ghost use Rattle.modes_fields.specs.Velocities.{signed_by, steps_of, step_of, knots_of, ground_of, air_of, vertical_in, velocity_in, rate_source_in};

use crate::message::Message;
use crate::velocity::{RateSource, Velocity};

// What `v` counts in steps from 1 on. None where it is 0.
fn steps(step: u16, v: u16) -> Option<u16>
    requires step { step ≤ 64 }
    requires product { step * v < 2 ^ 15 }
    ensures value { result ≡ steps_of step v }
    ensures below { IfSome result (λ n. n < 2 ^ 15) }
{
    if v == 0 { None } else { Some(step * (v - 1)) }
}

fn signed(negative: bool, count: u16) -> i16
    requires { count < 2 ^ 15 }
    ensures { result ≡ signed_by negative count }
{
    let count = count as i16;
    if negative { -count } else { count }
}

// The knots of a step.
fn knot_step(message: &Message) -> u16
    ensures value { result ≡ step_of message.now }
    ensures most { result ≤ 4 }
{
    match message.field(6, 8) {
        2 | 4 => 4,
        _ => 1,
    }
}

// The knots in the ten bits from `first` on.
fn knots(message: &Message, first: usize) -> Option<u16>
    requires first { 1 ≤ first }
    requires last { first ≤ 47 }
    ensures value { result ≡ knots_of message.now (field_of first (first + 9) message.now) }
    ensures below { IfSome result (λ n. n < 2 ^ 15) }
{
    steps(knot_step(message), message.field(first, first + 9) as u16)
}

// The velocity over ground, where both components are given.
#[tactic(auto, unfolding(crate::specs::Velocities::ground_of))]
fn ground(message: &Message) -> Option<Velocity>
    ensures { result ≡ ground_of message.now }
{
    let east = knots(message, 15)?;
    let north = knots(message, 26)?;
    Some(Velocity::Ground {
        east: signed(message.bit(14), east),
        north: signed(message.bit(25), north),
    })
}

// Heading and airspeed, where both are given.
#[tactic(auto, unfolding(crate::specs::Velocities::air_of))]
fn air(message: &Message) -> Option<Velocity>
    ensures { result ≡ air_of message.now }
{
    if !message.bit(14) {
        return None;
    }
    let speed = knots(message, 26)?;
    Some(Velocity::Air {
        heading: message.field(15, 24) as u16,
        is_true: message.bit(25),
        speed,
    })
}

// The velocity in a message of type code 19.
#[tactic(auto, unfolding(crate::specs::Velocities::velocity_in))]
#[inline(always)]
pub(crate) fn message_velocity(message: &Message) -> Option<Velocity>
    ensures { result ≡ velocity_in message.now }
{
    match message.field(6, 8) {
        1 | 2 => ground(message),
        3 | 4 => air(message),
        _ => None,
    }
}

// The vertical rate in a message of type code 19, in feet per minute.
#[tactic(auto, unfolding(crate::specs::Velocities::vertical_in))]
#[inline(always)]
pub(crate) fn message_vertical(message: &Message) -> Option<i32>
    ensures { result ≡ vertical_in message.now }
{
    match message.field(6, 8) {
        1..=4 => {
            let rate = steps(64, message.field(38, 46) as u16)?;
            Some(i32::from(signed(message.bit(37), rate)))
        }
        _ => None,
    }
}

// What measured the vertical rate in a message of type code 19, where it has one.
#[tactic(auto, unfolding(crate::specs::Velocities::rate_source_in))]
#[inline(always)]
pub(crate) fn message_rate_source(message: &Message) -> Option<RateSource>
    ensures { result ≡ rate_source_in message.now }
{
    message_vertical(message)?;
    Some(if message.bit(36) {
        RateSource::Barometric
    } else {
        RateSource::Gnss
    })
}
