//! Replays of aircraft on the ground, with a site and without.
//!
//! The frames of 484175 are those of "The 1090 Megahertz Riddle", and its airborne places and its velocity are made to fit.

use super::{KnownAt, give_tables_at};
use station_replay::Format;

// The site of most of them: a latitude and a longitude, in 1/10,000,000 degree.
const NEAR: Option<(i32, i32)> = Some((519_900_000, 43_750_000));

const TABLES: &[KnownAt] = &[
    (
        ("a surface position, even and then odd", NEAR),
        "*8C4841753AAB238733C8CD4020B1;\n*8C4841753A8A35323FAEBDAC702D;\n?",
        tables!("now 0 aircraft 1" => ["484175 -        ground    -       G16/98      -   52.32060    4.73473   0"]),
    ),
    (
        ("a surface position, odd and then even", NEAR),
        "*8C4841753A8A35323FAEBDAC702D;\n*8C4841753AAB238733C8CD4020B1;\n?",
        tables!("now 0 aircraft 1" => ["484175 -        ground    -      G18/141      -   52.32304    4.73047   0"]),
    ),
    (
        ("a surface place alone", NEAR),
        "*8C4841753A9A153237AEF0F275BE;\n?",
        tables!("now 0 aircraft 1" => ["484175 -        ground    -       G17/93      -          -          -   0"]),
    ),
    (
        ("surface places 10,000 ms apart", NEAR),
        "+1\n*8C4841753AAB238733C8CD4020B1;\n+10001\n*8C4841753A8A35323FAEBDAC702D;\n?",
        tables!("now 10001 aircraft 1" => ["484175 -        ground    -       G16/98      -   52.32060    4.73473   0"]),
    ),
    (
        ("surface places 10,001 ms apart", NEAR),
        "+1\n*8C4841753AAB238733C8CD4020B1;\n+10002\n*8C4841753A8A35323FAEBDAC702D;\n?",
        tables!("now 10002 aircraft 1" => ["484175 -        ground    -       G16/98      -          -          -   0"]),
    ),
    (
        ("surface positions without a site", None),
        "*8C4841753AAB238733C8CD4020B1;\n*8C4841753A8A35323FAEBDAC702D;\n?",
        tables!("now 0 aircraft 1" => ["484175 -             -    -            -      -          -          -   0"]),
    ),
    (
        ("a site in the south", Some((-380_000_000, 43_750_000))),
        "*8C4841753AAB238733C8CD4020B1;\n*8C4841753A8A35323FAEBDAC702D;\n?",
        tables!("now 0 aircraft 1" => ["484175 -        ground    -       G16/98      -  -37.67939    5.55903   0"]),
    ),
    (
        ("a site in the east", Some((520_000_000, 1_000_000_000))),
        "*8C4841753AAB238733C8CD4020B1;\n*8C4841753A8A35323FAEBDAC702D;\n?",
        tables!("now 0 aircraft 1" => ["484175 -        ground    -       G16/98      -   52.32060   94.73473   0"]),
    ),
    (
        (
            "no latitude within 45 degrees of the site",
            Some((800_000_000, 0)),
        ),
        "*8C3C00013A9A12AAAA0000DE33ED;\n*8C3C00013A9A1638E40000F30DE3;\n?",
        tables!("now 0 aircraft 1" => ["3C0001 -        ground    -       G17/93      -          -          -   0"]),
    ),
    (
        (
            "a position west of the 180th meridian",
            Some((-177_000_000, 1_799_000_000)),
        ),
        "*8C3C00023A9A115556033E58E836;\n*8C3C00023A9A161C720330577E45;\n?",
        tables!("now 0 aircraft 1" => ["3C0002 -        ground    -       G17/93      -  -17.49999 -179.98999   0"]),
    ),
    (
        ("a landing", NEAR),
        "*8D484175580B02E148F2B03A62BC;\n*8D484175580B064C76EBF2D4F97E;\n*8D4841759900658C282C008673F4;\n?\n+1000\n*8C4841753AAB238733C8CD4020B1;\n?\n+2000\n*8C4841753A8A35323FAEBDAC702D;\n?",
        tables!("now 0 aircraft 1" => ["484175 -          1000    -      100/-96   -640   52.32001    4.73997   0"],
            "now 1000 aircraft 1" => ["484175 -        ground    -      G18/141   -640   52.32001    4.73997   0"],
            "now 2000 aircraft 1" => ["484175 -        ground    -       G16/98   -640   52.32060    4.73473   0"]),
    ),
    (
        ("a take-off", NEAR),
        "*8C4841753AAB238733C8CD4020B1;\n*8C4841753A8A35323FAEBDAC702D;\n?\n+1000\n*8D484175580B02E148F2B03A62BC;\n?\n+1500\n*8D4841759900658C282C008673F4;\n*8D484175580B064C76EBF2D4F97E;\n?",
        tables!("now 0 aircraft 1" => ["484175 -        ground    -       G16/98      -   52.32060    4.73473   0"],
            "now 1000 aircraft 1" => ["484175 -          1000    -       G16/98      -   52.32060    4.73473   0"],
            "now 1500 aircraft 1" => ["484175 -          1000    -      100/-96   -640   52.32001    4.73997   0"]),
    ),
    (
        ("a surface place between airborne ones", NEAR),
        "*8C4841753AAB238733C8CD4020B1;\n*8D484175580B064C76EBF2D4F97E;\n?\n*8C4841753A8A35323FAEBDAC702D;\n?",
        tables!("now 0 aircraft 1" => ["484175 -          1000    -      G18/141      -          -          -   0"],
            "now 0 aircraft 1" => ["484175 -        ground    -       G16/98      -   52.32060    4.73473   0"]),
    ),
    (
        ("an aircraft that is on the ground for 60,000 ms", NEAR),
        "*8C4841753AAB238733C8CD4020B1;\n*8C4841753A8A35323FAEBDAC702D;\n*24000098604412;\n?\n+60000\n*24000098604412;\n?\n+60001\n*24000098604412;\n?",
        tables!("now 0 aircraft 1" => ["484175 -        ground    -       G16/98      -   52.32060    4.73473   0"],
            "now 60000 aircraft 1" => ["484175 -        ground    -       G16/98      -   52.32060    4.73473   0"],
            "now 60001 aircraft 1" => ["484175 -             0    -            -      -          -          -   0"]),
    ),
    (
        (
            "a surface position without a track, and one without a speed",
            NEAR,
        ),
        "*903C0003391003851FCAC1D515C5;\n*903C000338085531D7AFC9E16975;\n?",
        tables!("now 0 aircraft 1" => ["3C0003 -        ground    -         G4/-      -   52.32000    4.73999   0"]),
    ),
    (
        ("the movement 0", NEAR),
        "*8C3C0004380C02D690C8AC002398;\n?",
        tables!("now 0 aircraft 1" => ["3C0004 -        ground    -            -      -          -          -   0"]),
    ),
    (
        ("the movement 125", NEAR),
        "*8C3C00043FDC02D690C8AC9E44EA;\n?",
        tables!("now 0 aircraft 1" => ["3C0004 -        ground    -            -      -          -          -   0"]),
    ),
    (
        ("the movement 1", NEAR),
        "*8C3C0004381C02D690C8ACADE2F0;\n?",
        tables!("now 0 aircraft 1" => ["3C0004 -        ground    -       G0/180      -          -          -   0"]),
    ),
    (
        ("the movement 2", NEAR),
        "*8C3C0004382C02D690C8ACA45541;\n?",
        tables!("now 0 aircraft 1" => ["3C0004 -        ground    -       G0/180      -          -          -   0"]),
    ),
    (
        ("the movement 12", NEAR),
        "*8C3C000438CC02D690C8AC26FD5C;\n?",
        tables!("now 0 aircraft 1" => ["3C0004 -        ground    -       G1/180      -          -          -   0"]),
    ),
    (
        ("the movement 124", NEAR),
        "*8C3C00043FCC02D690C8AC338582;\n?",
        tables!("now 0 aircraft 1" => ["3C0004 -        ground    -     G175/180      -          -          -   0"]),
    ),
];

const JSON: &[KnownAt] = &[
    (
        ("surface positions", NEAR),
        "+1234\n*8C4841753AAB238733C8CD4020B1;\n+2000\n*8C4841753A8A35323FAEBDAC702D;\n?",
        concat!(
            r#"{"now":2.000,"messages":4,"aircraft":["#,
            r#"{"hex":"484175","alt_baro":"ground","altitude":"ground","gs":16.0,"speed":16,"track":98,"lat":52.32060,"lon":4.73473,"seen_pos":0.000,"rssi":-49.5,"seen":0.000}"#,
            "]}\n",
        ),
    ),
    (
        ("a surface position without a track", NEAR),
        "*903C0003391003851FCAC1D515C5;\n*903C000338085531D7AFC9E16975;\n?",
        concat!(
            r#"{"now":0.000,"messages":2,"aircraft":["#,
            r#"{"hex":"3c0003","alt_baro":"ground","altitude":"ground","gs":4.0,"speed":4,"lat":52.32000,"lon":4.73999,"seen_pos":0.000,"rssi":-49.5,"seen":0.000}"#,
            "]}\n",
        ),
    ),
    (
        ("the movement 12", NEAR),
        "*8C3C000438CC02D690C8AC26FD5C;\n?",
        concat!(
            r#"{"now":0.000,"messages":1,"aircraft":["#,
            r#"{"hex":"3c0004","alt_baro":"ground","altitude":"ground","gs":1.7,"speed":1,"track":180,"rssi":-49.5,"seen":0.000}"#,
            "]}\n",
        ),
    ),
    (
        ("the movement 2", NEAR),
        "*8C3C0004382C02D690C8ACA45541;\n?",
        concat!(
            r#"{"now":0.000,"messages":1,"aircraft":["#,
            r#"{"hex":"3c0004","alt_baro":"ground","altitude":"ground","gs":0.1,"speed":0,"track":180,"rssi":-49.5,"seen":0.000}"#,
            "]}\n",
        ),
    ),
    (
        ("surface positions without a site", None),
        "*8C4841753AAB238733C8CD4020B1;\n*8C4841753A8A35323FAEBDAC702D;\n?",
        concat!(
            r#"{"now":0.000,"messages":2,"aircraft":["#,
            r#"{"hex":"484175","rssi":-49.5,"seen":0.000}"#,
            "]}\n",
        ),
    ),
];

#[test]
fn surface_positions_give_their_tables(rt: HostRuntime) {
    give_tables_at(&rt, rt.alloc(), TABLES, Some(Format::Text));
    give_tables_at(&rt, rt.alloc(), JSON, Some(Format::Json { origin: 0 }));
}
