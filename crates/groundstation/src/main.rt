//! The program `groundstation`, over the process's own arguments and streams.
#![tactic(auto)]

use station_main::{Alarms, StandardError, exit_code, milliseconds_since_1970, own_words};
use std::fs::File;
use std::io::LineWriter;
use std::process::ExitCode;
use std::rt::Stderr;

fn main(rt: HostRuntime) -> ExitCode {
    // A file that is opened gets the lowest free number, also that of a standard stream which is closed. Then what is written
    // to the stream would be written to the file. A folder has the number before: it can be neither read nor written.
    let _closed_streams = (
        File::open(&rt, "/"),
        File::open(&rt, "/"),
        File::open(&rt, "/"),
    );
    let (owned, origin) = (own_words(&rt), milliseconds_since_1970(&rt));
    let (input, out) = (rt.stdin(), rt.stdout());
    let mut err = StandardError::new(error_lines(&rt));
    let alarms = Alarms {
        output: error_lines(&rt),
        stalls: error_lines(&rt),
        record: error_lines(&rt),
        displays: error_lines(&rt),
        limits: error_lines(&rt),
        paths: error_lines(&rt),
    };
    let ended = exit_code(
        &rt,
        rt,
        rt.alloc(),
        owned,
        origin,
        input,
        out,
        alarms,
        &mut err,
    );
    ended.code
}

// Standard error, a line at a time: no other thread's line comes into the middle of one. The parts of a line are written as
// they come where it is longer than 1,024 bytes, or where there is no memory for it.
fn error_lines(rt: &HostRuntime) -> LineWriter<Stderr> {
    match LineWriter::new(rt.alloc(), rt.stderr()) {
        Ok(lines) => lines,
        Err(_) => LineWriter::with_capacity(rt.alloc(), 0, rt.stderr()).unwrap(),
    }
}
