//! Replays whose tables are lines of JSON.

use super::aged::FAILED_PAIR;
use super::{Known, give_tables, replayed};
use crate::comparing::same;
use crate::fakes::{Pieces, Taker, counted};
use station_replay::Format;

// A velocity over ground, and its table with a clock that begins at 0.
pub(super) const OVER_GROUND: &str = "*8D485020994409940838175B284F;\n?";

pub(super) const TABLE_OVER_GROUND: &str = concat!(
    r#"{"now":0.000,"messages":1,"aircraft":[{"hex":"485020","gs":159.2,"speed":159,"track":183,"#,
    "\"geom_rate\":-832,\"vert_rate\":-832,\"rssi\":-49.5,\"seen\":0.000}]}\n",
);

const EMPTY: &str = "{\"now\":0.000,\"messages\":0,\"aircraft\":[]}\n";

// The clock of these tables begins at 0.
const REPLAYS: &[Known] = &[
    ("nothing", "", ""),
    ("a question alone", "?", EMPTY),
    ("a wrong parity", "*8D4840D6202CC371C32CE0576099;\n?", EMPTY),
    ("a velocity over ground", OVER_GROUND, TABLE_OVER_GROUND),
    (
        "a velocity through air",
        "*8DA05F219B06B6AF189400CBC33F;\n?",
        concat!(
            r#"{"now":0.000,"messages":1,"aircraft":[{"hex":"a05f21","mag_heading":243.9,"tas":375,"#,
            "\"baro_rate\":-2304,\"vert_rate\":-2304,\"rssi\":-49.5,\"seen\":0.000}]}\n",
        ),
    ),
    (
        "a position, and 1,234 ms later",
        "+1\n*8D40621D58C382D690C8AC2863A7;\n+5000\n*8D40621D58C386435CC412692AD6;\n?\n+6234\n?",
        concat!(
            r#"{"now":5.000,"messages":4,"aircraft":[{"hex":"40621d","alt_baro":38000,"altitude":38000,"#,
            "\"lat\":52.26578,\"lon\":3.93891,\"seen_pos\":0.000,\"rssi\":-49.5,\"seen\":0.000}]}\n",
            r#"{"now":6.234,"messages":5,"aircraft":[{"hex":"40621d","alt_baro":38000,"altitude":38000,"#,
            "\"lat\":52.26578,\"lon\":3.93891,\"seen_pos\":1.234,\"rssi\":-49.5,\"seen\":1.234}]}\n",
        ),
    ),
    (
        "a position that is older than the newest frame",
        FAILED_PAIR,
        concat!(
            r#"{"now":2.000,"messages":5,"aircraft":[{"hex":"40621d","alt_baro":38000,"altitude":38000,"#,
            "\"lat\":52.26578,\"lon\":3.93891,\"seen_pos\":1.000,\"rssi\":-49.5,\"seen\":0.000}]}\n",
            r#"{"now":61.000,"messages":6,"aircraft":[{"hex":"40621d","alt_baro":38000,"altitude":38000,"#,
            "\"lat\":52.26578,\"lon\":3.93891,\"seen_pos\":60.000,\"rssi\":-49.5,\"seen\":59.000}]}\n",
            r#"{"now":61.001,"messages":7,"aircraft":[{"hex":"40621d","alt_baro":38000,"altitude":38000,"#,
            "\"rssi\":-49.5,\"seen\":59.001}]}\n",
        ),
    ),
];

// The clock of these begins at 1,700,000,000,000 ms.
const REPLAYS_FROM_AN_ORIGIN: &[Known] = &[
    (
        "a question alone",
        "?",
        "{\"now\":1700000000.000,\"messages\":0,\"aircraft\":[]}\n",
    ),
    (
        "the rising addresses of two aircraft",
        "+1234\n*8D485020994409940838175B284F;\n+2000\n*8D4840D6202CC371C32CE0576098;\n?",
        concat!(
            r#"{"now":1700000002.000,"messages":4,"aircraft":["#,
            r#"{"hex":"4840d6","flight":"KLM1023","rssi":-49.5,"seen":0.000},"#,
            r#"{"hex":"485020","gs":159.2,"speed":159,"track":183,"geom_rate":-832,"vert_rate":-832,"#,
            "\"rssi\":-49.5,\"seen\":0.766}]}\n",
        ),
    ),
];

#[test]
fn known_lines_give_known_json(rt: HostRuntime) {
    for (origin, replays) in [(0, REPLAYS), (1_700_000_000_000, REPLAYS_FROM_AN_ORIGIN)] {
        let format = Some(Format::Json { origin });
        give_tables(&rt, rt.alloc(), replays, format);
    }
}

#[test]
fn text_is_a_format_too(rt: HostRuntime) {
    let (source, text) = (Pieces::new(b"?"), Some(Format::Text));
    let (answer, sink) = replayed(&rt, rt.alloc(), source, Taker::new(), text, 999);
    same(&rt, answer, Ok(counted([0, 0], [0, 0], [1, 0, 0, 0])));
    let table = tables!("now 0 aircraft 0" => []);
    same(&rt, sink.bytes.as_slice(), table.as_bytes());
}
