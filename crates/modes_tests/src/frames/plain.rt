//! Plain lines, and what they are not.
use crate::comparing::{same, same_at};
use crate::known::{ALL_CALL, KLM1023, KLM1023_LINE};
use modes_frame::{Cut, Cutter, Frame};
use std::test::Fail;

#[test]
fn plain_lines_are_of_17_or_31_bytes(rt: HostRuntime) -> Result<(), Fail> {
    let long = Some((31, Frame::from_bytes(&KLM1023).ok_or("no frame")?));
    let short = Some((17, Frame::from_bytes(&ALL_CALL).ok_or("no frame")?));
    for (bytes, want) in [
        ("*8D4840D6202CC371C32CE0576098;\n", long),
        ("*8d4840d6202cc371c32ce0576098;\n", long),
        ("*8D4840D6202CC371C32CE0576098;\n*5D", long),
        ("*5D484FDEA248E3;\n", short),
        ("*5d484fdea248e3;\n*8D4840D6202CC371C32CE0576098;\n", short),
        ("*8D4840D6202CC371C32CE057609;\n", None),
        ("*5D484FDEA248E;\n", None),
        ("*8D4840D6202CC371C32CE0576098;\r\n", None),
        (" *8D4840D6202CC371C32CE0576098;\n", None),
        ("@0123456789AB8D4840D6202CC371C32CE0576098;\n", None),
        ("@5D484FDEA248E3;\n", None),
        ("*0000;\n", None),
        ("\n", None),
        ("+1000\n*5D484FDEA248E3;\n", None),
        ("*8D4840D6202CC3;\n", None),
        ("*5D484FDEA248E371C32CE0576098;\n", None),
    ] {
        let seen = Cutter::new().plain_line(bytes.as_bytes());
        same_at(&rt, seen.map(|line| (line.length, line.frame)), want, bytes);
    }
    Ok(())
}

#[test]
fn a_plain_line_that_goes_on_behind_the_bytes_is_not_seen(rt: HostRuntime) {
    for line in [KLM1023_LINE.as_slice(), b"*5D484FDEA248E3;\n"] {
        for count in 0..line.len() {
            let seen = Cutter::new().plain_line(&line[..count]);
            assert_eq!(rt; seen, None, "{count} of {} bytes", line.len());
        }
    }
}

#[test]
fn a_plain_line_behind_a_line_without_its_end_is_not_seen(rt: HostRuntime) {
    let mut cutter = Cutter::new();
    for (bytes, cut, is_seen) in [
        (b"*".as_slice(), None, false),
        (&[b' '; 64], None, false),
        (b"\n", Some(Cut::TooLong), true),
    ] {
        same(&rt, cutter.push_line(bytes), (bytes.len(), cut));
        same(&rt, cutter.plain_line(&KLM1023_LINE).is_some(), is_seen);
    }
}
