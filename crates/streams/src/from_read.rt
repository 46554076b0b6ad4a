//! Sources over readers.
ghost use Rattle.std.specs.Prelude.{◌≡◌, ◌<◌, ◌≤◌, None, false, length, nat_lt, take};
ghost use Rattle.std.specs.Io.Buffered.{reader_buffer, reader_remaining};
ghost use Rattle.std.specs.Io.KnownBytes.{Consumes};

use crate::sinks::Failed;
use crate::source::Source;
use std::io::{BufRead, BufReader, Read};

/// Reads from a reader, and counts its reads, ends and failures.
#[derive(Drop)]
pub struct FromRead<R> {
    inner: R,
    reads: u64,
    ends: u64,
    failures: u64,
}

impl<R> FromRead<R> {
    /// A source of the bytes that this reader gives.
    pub fn new(inner: R) -> Self
        ensures inner { result.inner ≡ inner }
        ensures reads { result.reads ≡ 0 }
        ensures ends { result.ends ≡ 0 }
        ensures failures { result.failures ≡ 0 }
    {
        FromRead {
            inner,
            reads: 0,
            ends: 0,
            failures: 0,
        }
    }
}

impl<R: Read> Source for FromRead<R> {
    ghost state = { λ s. record {
      left = R.remaining s.inner;
      given = None;
      reads = s.reads;
      ends = s.ends;
      failures = s.failures;
      at_hand = false;
      ring = None;
    } };

    fn read(&mut self, buffer: &mut [u8]) -> Result<usize, Failed> {
        self.reads = self.reads.saturating_add(1);
        match self.inner.read(buffer) {
            Ok(count) => {
                if count == 0 && !buffer.is_empty() {
                    self.ends = self.ends.saturating_add(1);
                }
                Ok(count)
            }
            Err(_) => {
                self.failures = self.failures.saturating_add(1);
                Err(Failed)
            }
        }
    }
}

/// Reads from a buffered reader as [`FromRead`] does. Bytes in its buffer are at hand.
#[derive(Drop)]
pub struct FromBuffer<R> {
    source: FromRead<BufReader<R>>,
}

impl<R> FromBuffer<R> {
    /// A source of the bytes that this reader gives.
    pub fn new(inner: BufReader<R>) -> Self
        ensures inner { result.source.inner ≡ inner }
        ensures reads { result.source.reads ≡ 0 }
        ensures ends { result.source.ends ≡ 0 }
        ensures failures { result.source.failures ≡ 0 }
    {
        FromBuffer {
            source: FromRead::new(inner),
        }
    }
}

// Takes the bytes in the buffer of a reader, as many as there is room for.
fn take_held<R: Read>(reader: &mut BufReader<R>, room: &mut [u8]) -> usize
    requires { 0 < length (reader_buffer reader.old) }
    ensures within { result ≤ length room.new }
    ensures room { length room.new ≡ length room.old }
    ensures some { 0 < length room.new → 0 < result }
    ensures bytes { Consumes (reader_remaining R.remaining reader.old)
        (reader_remaining R.remaining reader.new) (take result room.new) }
{
    let held = reader.buffer();
    let count = held.len().min(room.len());
    room[..count].copy_from_slice(&held[..count]);
    reader.consume(count);
    count
}

impl<R: Read> Source for FromBuffer<R> {
    ghost state = { λ s. record {
      left = reader_remaining R.remaining s.source.inner;
      given = None;
      reads = s.source.reads;
      ends = s.source.ends;
      failures = s.source.failures;
      at_hand = nat_lt 0 (length (reader_buffer s.source.inner));
      ring = None;
    } };

    fn is_at_hand(&self) -> bool
        ensures { result ≡ nat_lt 0 (length (reader_buffer self.now.source.inner)) }
    {
        !self.source.inner.buffer().is_empty()
    }

    fn read(&mut self, buffer: &mut [u8]) -> Result<usize, Failed> {
        if !self.is_at_hand() {
            return self.source.read(buffer);
        }
        self.source.reads = self.source.reads.saturating_add(1);
        Ok(take_held(&mut self.source.inner, buffer))
    }
}
