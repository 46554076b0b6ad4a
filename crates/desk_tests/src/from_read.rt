//! Sources over readers.
use crate::comparing::{holds, same};
use std::io::{self, BufReader, ErrorKind, Read};
use std::process::Abort;
use std::test::*;
use streams::{Failed, FromBuffer, FromRead, Source};

// Gives the first bytes, fails once, and then gives the others.
#[derive(Drop)]
struct Torn(&'static [u8], Option<&'static [u8]>);

impl Read for Torn {
    fn read(&mut self, buffer: &mut [u8]) -> io::Result<usize> {
        if self.0.is_empty() {
            if let Some(others) = self.1.take() {
                self.0 = others;
                return Err(io::Error::from(ErrorKind::BrokenPipe));
            }
        }
        self.0.read(buffer)
    }
}

// The bytes that a read gives, up to 3 of them.
type Known = Result<&'static [u8], Failed>;

// Reads give what is known. Where the source has a buffer, bytes are at hand before the second read, and never else.
fn gives<S: Source + Drop>(rt: &impl Abort, mut from: S, has_buffer: bool, reads: &[Known]) {
    for (i, known) in reads.iter().enumerate() {
        let mut buffer = [0u8; 3];
        same(rt, from.is_at_hand(), has_buffer && i == 1);
        let answer = from.read(&mut buffer);
        match known {
            Ok(bytes) => {
                same(rt, answer, Ok(bytes.len()));
                holds(rt, buffer.starts_with(bytes));
            }
            Err(_) => same(rt, answer, Err(Failed)),
        }
    }
}

#[test]
fn bytes_of_a_reader_are_given_in_order(rt: HostRuntime) {
    let reads: [Known; 3] = [Ok(b"abc"), Ok(b"d"), Ok(b"")];
    gives(&rt, FromRead::new(b"abcd".as_slice()), false, &reads);
}

#[test]
fn bytes_in_the_buffer_are_at_hand(rt: HostRuntime) -> Result<(), Fail> {
    let reader = BufReader::with_capacity(rt.alloc(), 4, b"abcdef".as_slice())?;
    let reads: [Known; 4] = [Ok(b"abc"), Ok(b"d"), Ok(b"ef"), Ok(b"")];
    gives(&rt, FromBuffer::new(reader), true, &reads);
    Ok(())
}

#[test]
fn a_failed_read_is_reported_and_is_no_end(rt: HostRuntime) {
    let reads: [Known; 4] = [Ok(b"x"), Err(Failed), Ok(b"y"), Ok(b"")];
    gives(&rt, FromRead::new(Torn(b"x", Some(b"y"))), false, &reads);
}

#[test]
fn a_failed_read_comes_after_the_bytes_at_hand(rt: HostRuntime) -> Result<(), Fail> {
    let reader = BufReader::with_capacity(rt.alloc(), 4, Torn(b"abcd", Some(b"e")))?;
    let reads: [Known; 5] = [Ok(b"abc"), Ok(b"d"), Err(Failed), Ok(b"e"), Ok(b"")];
    gives(&rt, FromBuffer::new(reader), true, &reads);
    Ok(())
}

// More bytes than 2,000 reads of a buffer of 4 bytes give.
const MANY_BYTES: [u8; 9000] = [b' '; 9000];

fn gives_many_bytes<S: Source + Drop>(rt: &impl Abort, mut from: S) {
    let mut buffer = [0u8; 1];
    for _ in 0..9000 {
        same(rt, from.read(&mut buffer), Ok(1));
    }
    same(rt, from.read(&mut buffer), Ok(0));
}

#[test]
fn readers_are_read_to_their_ends(rt: HostRuntime) -> Result<(), Fail> {
    gives_many_bytes(&rt, FromRead::new(MANY_BYTES.as_slice()));
    let reader = BufReader::with_capacity(rt.alloc(), 4, MANY_BYTES.as_slice())?;
    gives_many_bytes(&rt, FromBuffer::new(reader));
    Ok(())
}
