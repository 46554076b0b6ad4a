//! Emitter categories and emergencies of known frames.

use crate::comparing::{same, same_at};
use crate::known::{KLM1023, frame};
use modes_fields::readers::{carried, fields};
use modes_fields::{Carried, Category, CategorySet, Emergency, Fields};
use modes_frame::Frame;
use std::test::Fail;

// The category in KLM1023's identification, with this byte of type code and number.
fn category_by(byte: u8) -> Result<Option<Category>, Fail> {
    let mut bytes = KLM1023;
    bytes[4] = byte;
    let frame = Frame::from_bytes(&bytes).ok_or("no frame")?;
    Ok(fields(&frame).category)
}

#[test]
fn identifications_say_a_category(rt: HostRuntime) -> Result<(), Fail> {
    for (code, set) in [
        (0x20, CategorySet::A),
        (0x18, CategorySet::B),
        (0x10, CategorySet::C),
        (0x08, CategorySet::D),
    ] {
        same_at(&rt, category_by(code)?, None, code);
        for number in 1..=7 {
            let want = Some(Category { set, number });
            same_at(&rt, category_by(code | number)?, want, code | number);
        }
    }
    Ok(())
}

#[test]
fn other_frames_say_no_category(rt: HostRuntime) -> Result<(), Fail> {
    // Type codes 0, 5 and 31.
    for byte in [0x03, 0x2B, 0xFB] {
        same_at(&rt, category_by(byte)?, None, byte);
    }
    // An identification in DF 18 with control field 1.
    let other = frame("*914840D6232CC371C32CE0000000;")?;
    same(&rt, fields(&other).category, None);
    Ok(())
}

// A test of pyModeS: no emergency, and the squawk 6513. Then its other states.
const STATUSES: [(&str, Option<Emergency>); 8] = [
    (
        "*8DA2C1B6E112B600000000760759;",
        Some(Emergency::NoEmergency),
    ),
    ("*8DA2C1B6E132B600000000000000;", Some(Emergency::General)),
    ("*8DA2C1B6E152B600000000000000;", Some(Emergency::Lifeguard)),
    (
        "*8DA2C1B6E172B600000000000000;",
        Some(Emergency::MinimumFuel),
    ),
    (
        "*8DA2C1B6E192B600000000000000;",
        Some(Emergency::NoCommunications),
    ),
    (
        "*8DA2C1B6E1B2B600000000000000;",
        Some(Emergency::UnlawfulInterference),
    ),
    ("*8DA2C1B6E1D2B600000000000000;", Some(Emergency::Downed)),
    // reserved
    ("*8DA2C1B6E1F2B600000000000000;", None),
];

#[test]
fn aircraft_statuses_say_an_emergency(rt: HostRuntime) -> Result<(), Fail> {
    for (line, emergency) in STATUSES {
        let frame = frame(line)?;
        let want = Fields {
            emergency,
            ..Fields::default()
        };
        same_at(&rt, fields(&frame), want, line);
        let status = Carried::AircraftStatus(emergency);
        same_at(&rt, carried(&frame), status, line);
    }
    Ok(())
}

#[test]
fn other_subtypes_and_type_codes_say_no_emergency(rt: HostRuntime) -> Result<(), Fail> {
    for (line, want) in [
        // subtypes 0 and 2
        (
            "*8DA2C1B6E032B600000000000000;",
            Carried::AircraftStatus(None),
        ),
        (
            "*8DA2C1B6E232B600000000000000;",
            Carried::AircraftStatus(None),
        ),
        // type codes 27 and 29
        ("*8DA2C1B6D932B600000000000000;", Carried::Nothing),
        ("*8DA2C1B6E932B600000000000000;", Carried::Nothing),
        // DF 18 with control field 1
        ("*91A2C1B6E132B600000000000000;", Carried::Nothing),
    ] {
        same_at(&rt, carried(&frame(line)?), want, line);
    }
    Ok(())
}
