//! What is known of an aircraft. Times are in milliseconds.

ghost use Rattle.std.specs.Prelude.{◌≡◌};
ghost use Rattle.modes_fields.specs.Carried.{fields_of};
ghost use Rattle.modes_fields.specs.Kinds.{fields_by};
ghost use Rattle.station_journal.specs.Track.{blank, with_spot, with_surface, updated_track, track_row, track_placed};

use crate::aging::{fix_from, fresh, fresh_moment, with_parity};
use crate::rate::{feet_in, source_in};
use crate::{Aircraft, LIFE_MS, Latest, LatestRate, Rate, Spot};
use modes_cpr::{Position, Reference};
use modes_fields::readers::carried;
use modes_fields::{Callsign, Carried, Category, Emergency, Squawk, Surface, Velocity};
use modes_frame::Frame;
use std::marker::Model;
use std::mem::size_of;

/// What is known of an aircraft: the newest value of each field, the newest even and odd places, and the newest
/// position. Contracts see it as one record.
#[derive(Clone, Copy, Default)]
pub struct Track {
    readings: Readings,
    course: Course,
}

// A copy of a table gets a whole track after each frame. Up to 128 bytes are copied without a call, so a track has two
// halves.
#[derive(Clone, Copy, Default)]
struct Readings {
    address: u32,
    callsign: Latest<Callsign>,
    category: Latest<Category>,
    altitude: Latest<i32>,
    squawk: Latest<Squawk>,
    emergency: Latest<Emergency>,
    rate: LatestRate,
    on_ground: Latest<bool>,
}

#[derive(Clone, Copy, Default)]
struct Course {
    // The time of the newest frame.
    heard: u64,
    velocity: Latest<Velocity>,
    even: Latest<Spot>,
    odd: Latest<Spot>,
    position: Latest<Position>,
}

const _: () = prove!(size_of::<Readings>() <= 128);

const _: () = prove!(size_of::<Course>() <= 128);

impl Model for Track {
    ghost use Rattle.station_journal.specs.Known.{Known};

    ghost Value = { Known };

    ghost use Rattle.station_journal.specs.Halves.{known_in, halves_of};

    ghost view = { known_in };

    ghost inverse = { halves_of };
}

impl Track {
    /// The address of the aircraft, below 2^24.
    pub fn address(&self) -> u32
        ensures { result ≡ self.now.address }
    {
        self.readings.address
    }

    /// The time of its newest frame.
    pub fn heard(&self) -> u64
        ensures { result ≡ self.now.heard }
    {
        self.course.heard
    }

    /// Becomes a copy of another track.
    pub fn copy_from(&mut self, other: &Track)
        ensures { self.new ≡ other.now }
    {
        self.readings = other.readings;
        self.course = other.course;
    }
}

/// A track of which nothing is known yet.
pub fn blank(address: u32) -> Track
    ensures { result ≡ blank address }
{
    Track {
        readings: Readings {
            address,
            callsign: Latest::nothing(),
            category: Latest::nothing(),
            altitude: Latest::nothing(),
            squawk: Latest::nothing(),
            emergency: Latest::nothing(),
            rate: LatestRate::nothing(),
            on_ground: Latest::nothing(),
        },
        course: Course {
            heard: 0,
            velocity: Latest::nothing(),
            even: Latest::nothing(),
            odd: Latest::nothing(),
            position: Latest::nothing(),
        },
    }
}

// Keeps the place, and the position that it gives with the kept place of the other parity.
#[inline(always)]
fn keep_spot(track: &mut Track, site: Option<Reference>, now: u64, spot: Spot)
    ensures { track.new ≡ with_spot site now spot track.old }
{
    let position = fix_from(
        site,
        now,
        track.course.even.stamped(),
        track.course.odd.stamped(),
        Some(spot),
    );
    track.course.even.keep(now, with_parity(false, Some(spot)));
    track.course.odd.keep(now, with_parity(true, Some(spot)));
    track.course.position.keep(now, position);
    if site.is_some() {
        track.readings.on_ground.keep(now, Some(spot.surface));
    }
}

/// Updates the track by a frame of the aircraft, heard at the time `now`. Surface positions are read where there is a
/// `site`.
pub fn update(track: &mut Track, site: Option<Reference>, now: u64, frame: &Frame)
    ensures { track.new ≡ updated_track site now (fields_of frame.now) track.old }
{
    take(track, site, now, carried(frame));
}

// Updates the track by a surface position, where there is a site.
#[inline(never)]
fn keep_surface(track: &mut Track, site: Option<Reference>, now: u64, surface: Surface)
    ensures { track.new ≡ with_surface site now surface track.old }
{
    if site.is_some() {
        track.course.velocity.keep(now, surface.velocity);
        keep_spot(track, site, now, Spot::new(true, surface.place));
    }
}

// Updates the track by what a frame carries. Only the fields of its kind are written.
#[inline(always)]
fn take(track: &mut Track, site: Option<Reference>, now: u64, carried: Carried)
    ensures { track.new ≡ updated_track site now (fields_by carried) track.old }
{
    track.course.heard = now;
    match carried {
        Carried::Nothing => {}
        Carried::Altitude(altitude) => track.readings.altitude.keep(now, altitude),
        Carried::Squawk(squawk) => track.readings.squawk.keep(now, Some(squawk)),
        Carried::Identification { callsign, category } => {
            track.readings.callsign.keep(now, callsign);
            track.readings.category.keep(now, category);
        }
        Carried::SurfacePosition(position) => keep_surface(track, site, now, position),
        Carried::AirbornePosition { altitude, place } => {
            track.readings.altitude.keep(now, altitude);
            keep_spot(track, site, now, Spot::new(false, place));
        }
        Carried::GnssPosition(place) => keep_spot(track, site, now, Spot::new(false, place)),
        Carried::AirborneVelocity {
            velocity,
            vertical,
            rate_source,
        } => {
            track.course.velocity.keep(now, velocity);
            let rate = Rate::of(vertical, rate_source);
            track.readings.rate.keep(now, rate);
        }
        Carried::AircraftStatus(emergency) => track.readings.emergency.keep(now, emergency),
    }
}

/// The time of the position in the row that the track shows, in milliseconds. None where the row has no position.
pub fn track_placed(now: u64, track: &Track) -> Option<u64>
    ensures { result ≡ track_placed now track.now }
{
    fresh_moment(LIFE_MS, now, track.course.position.stamped())
}

/// The row that the track shows.
pub fn track_row(now: u64, track: &Track) -> Aircraft
    ensures { result ≡ track_row now track.now }
{
    let rate = fresh(LIFE_MS, now, track.readings.rate.stamped());
    Aircraft {
        address: track.readings.address,
        callsign: fresh(LIFE_MS, now, track.readings.callsign.stamped()),
        category: fresh(LIFE_MS, now, track.readings.category.stamped()),
        altitude: fresh(LIFE_MS, now, track.readings.altitude.stamped()),
        squawk: fresh(LIFE_MS, now, track.readings.squawk.stamped()),
        emergency: fresh(LIFE_MS, now, track.readings.emergency.stamped()),
        velocity: fresh(LIFE_MS, now, track.course.velocity.stamped()),
        vertical: feet_in(rate),
        rate_source: source_in(rate),
        on_ground: fresh(LIFE_MS, now, track.readings.on_ground.stamped()),
        position: fresh(LIFE_MS, now, track.course.position.stamped()),
        heard: track.course.heard,
    }
}
