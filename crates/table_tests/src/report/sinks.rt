//! Sinks and writers that fail.

use crate::comparing::{holds, same, same_at};
use crate::report::{HEADER, are_printable, identified};
use station_report::table;
use std::io;
use std::io::{ErrorKind, Write};
use std::test::Fail;
use streams::{Failed, Sink, ToWrite, WriteFault, flush_after};

// Fails at each call.
#[derive(Drop)]
struct Broken;

impl Write for Broken {
    fn write(&mut self, _piece: &[u8]) -> io::Result<usize> {
        Err(io::Error::from(ErrorKind::BrokenPipe))
    }

    fn flush(&mut self) -> io::Result<()> {
        Err(io::Error::from(ErrorKind::BrokenPipe))
    }
}

#[test]
fn a_writer_takes_what_its_sink_is_given(rt: HostRuntime) -> Result<(), Fail> {
    let mut sink = ToWrite::new(Vec::<u8>::new(rt.alloc()));
    same(&rt, sink.write(b"now "), Ok(4));
    same(&rt, sink.write(b""), Ok(0));
    same(&rt, sink.flush(), Ok(()));
    same(&rt, sink.into_inner().as_slice(), b"now ".as_slice());
    Ok(())
}

#[test]
fn a_writer_that_fails_or_takes_nothing_has_failed(rt: HostRuntime) {
    let mut broken = ToWrite::new(Broken);
    same(&rt, broken.write(b"now "), Err(Failed));
    same(&rt, broken.flush(), Err(Failed));
    let mut no_bytes = [0u8; 0];
    let mut full = ToWrite::new(no_bytes.as_mut_slice());
    same(&rt, full.write(b"now "), Err(Failed));
    same(&rt, full.write(b""), Ok(0));
    same(&rt, full.flush(), Ok(()));
}

#[test]
fn a_flush_that_fails_is_reported(rt: HostRuntime) {
    let mut broken = ToWrite::new(Broken);
    same(&rt, flush_after(Ok(()), &mut broken), Err(WriteFault));
    let mut no_bytes = [0u8; 0];
    let mut whole = ToWrite::new(no_bytes.as_mut_slice());
    same(&rt, flush_after(Ok(()), &mut whole), Ok(()));
    same(
        &rt,
        flush_after(Err(WriteFault), &mut whole),
        Err(WriteFault),
    );
}

// A table of 165 bytes fits into as many, and into no fewer.
#[test]
fn a_writer_without_room_for_the_last_byte_has_failed(rt: HostRuntime) -> Result<(), Fail> {
    let line = "4840D6 KLM1023       -    -            -      -          -          -   0\n";
    let text = format!(in rt.alloc(); "now 0 aircraft 1\n{HEADER}{line}")?;
    let rows = Vec::from_array(rt.alloc(), [identified(0)])?;
    holds(&rt, are_printable(0, rows.as_slice()));
    for (room, outcome) in [(164, Err(WriteFault)), (165, Ok(()))] {
        let mut bytes = [0u8; 165];
        let mut sink = ToWrite::new(&mut bytes[..room]);
        same_at(&rt, table(&rows, 0, &mut sink), outcome, room);
        same_at(&rt, &bytes[..room], &text.as_bytes()[..room], room);
    }
    Ok(())
}
