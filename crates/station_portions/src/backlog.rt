//! The bytes that were read and not sent yet.
ghost use Rattle.std.specs.Prelude.{◌≡◌, ◌<◌, ◌≤◌, ◌-◌, length, slice_index_or, take, drop};
ghost use Rattle.station_portions.specs.Batches.{HasNoLineFeed, buffer_size};

use crate::message::{Batch, Buffer};
use std::io::{self, Read};
use std::mem;

// The bytes kept of a line without line feed. Beyond 64 bytes every line is too long, so the rest changes nothing.
const LONGEST_KEPT: usize = 512;

/// A buffer that begins with the bytes not sent yet.
#[derive(Drop)]
pub struct Backlog {
    buffer: Buffer,
    count: usize,
    ghost within: { count ≤ buffer_size },
}

// The place after the last line feed, or 0 where there is none.
fn border(bytes: &[u8]) -> usize
    ensures within { result ≤ length bytes.now }
    ensures after { 0 < result → slice_index_or bytes.now (result - 1) 0 ≡ 10 }
    ensures none { HasNoLineFeed (drop result bytes.now) }
{
    let mut at = bytes.len();
    while at > 0 && bytes[at - 1] != b'\n' {
        at -= 1;
    }
    at
}

// Copies these bytes to the beginning of others.
fn copy_to_front(all: &mut [u8], bytes: &[u8])
    requires { length bytes.now ≤ length all.old }
    ensures front { take (length bytes.now) all.new ≡ bytes.now }
    ensures same { length all.new ≡ length all.old }
{
    all[..bytes.len()].copy_from_slice(bytes);
}

// The buffer, which now begins with these bytes.
fn filled_with(buffer: Buffer, bytes: &[u8]) -> Buffer
    requires { length bytes.now ≤ buffer_size }
    ensures { take (length bytes.now) result.bytes.items ≡ bytes.now }
{
    let Buffer { bytes: mut all } = buffer;
    copy_to_front(all.as_mut_slice(), bytes);
    Buffer { bytes: all }
}

impl Backlog {
    ghost use Rattle.std.specs.Prelude.{◌≡◌, ◌<◌, ◌≤◌, ◌-◌, [], IfOk, OnErr, length, slice_index_or, take, drop};
    ghost use Rattle.std.specs.Io.KnownBytes.{Keeps};
    ghost use Rattle.station_portions.specs.Batches.{HasNoLineFeed, buffer_size, longest_kept};
    ghost use Rattle.station_portions.specs.Messages.{bytes_of_batch};
    ghost use Rattle.station_portions.specs.Backlog.{ReadsOn, ended_line, unsent_bytes};

    /// No bytes, in this buffer.
    pub fn new(buffer: Buffer) -> Self
        ensures { unsent_bytes result ≡ [] }
    {
        Backlog { buffer, count: 0 }
    }

    /// Drops all bytes.
    pub fn clear(&mut self)
        ensures { unsent_bytes self.new ≡ [] }
    {
        self.count = 0;
    }

    /// Reads once, and puts what came after the bytes that it contains. Answers how many came: 0 at the end alone.
    pub fn read_more<R: Read>(&mut self, from: &mut R) -> io::Result<usize>
        requires room { length (unsent_bytes self.old) < buffer_size }
        ensures ok { IfOk result (λ n.
            ReadsOn (R.remaining from.old) (R.remaining from.new) (unsent_bytes self.old) (unsent_bytes self.new) n) }
        ensures err { OnErr result
            (Keeps (R.remaining from.old) (R.remaining from.new) × (unsent_bytes self.new ≡ unsent_bytes self.old)) }
    {
        let held = self.count;
        let count = from.read(&mut self.buffer.bytes[held..])?;
        self.count = held + count;
        Ok(count)
    }

    /// The place after the last line feed, or 0 where there is none.
    pub fn border(&self) -> usize
        ensures within { result ≤ length (unsent_bytes self.now) }
        ensures after { 0 < result → slice_index_or (unsent_bytes self.now) (result - 1) 0 ≡ 10 }
        ensures none { HasNoLineFeed (drop result (unsent_bytes self.now)) }
    {
        border(&self.buffer.bytes[..self.count])
    }

    /// Takes out the bytes before `border`, the place after a line feed. The others move to `spare`.
    pub fn split(&mut self, border: usize, spare: Buffer) -> Batch
        requires within { border ≤ length (unsent_bytes self.old) }
        requires some { 0 < border }
        requires after { slice_index_or (unsent_bytes self.old) (border - 1) 0 ≡ 10 }
        ensures front { bytes_of_batch result ≡ take border (unsent_bytes self.old) }
        ensures rest { unsent_bytes self.new ≡ drop border (unsent_bytes self.old) }
    {
        let rest = self.count - border;
        let spare = filled_with(spare, &self.buffer.bytes[border..self.count]);
        self.count = rest;
        Batch {
            buffer: mem::replace(&mut self.buffer, spare),
            count: border,
        }
    }

    /// Drops what is beyond the first 512 bytes.
    pub fn shorten(&mut self)
        ensures { unsent_bytes self.new ≡ take longest_kept (unsent_bytes self.old) }
    {
        self.count = self.count.min(LONGEST_KEPT);
    }

    /// Puts a line feed after the bytes, where there are some.
    pub fn end_line(&mut self)
        requires { length (unsent_bytes self.old) < buffer_size }
        ensures { unsent_bytes self.new ≡ ended_line (unsent_bytes self.old) }
    {
        if self.count == 0 {
            return;
        }
        let at = self.count;
        self.buffer.bytes[at] = b'\n';
        self.count = at + 1;
    }
}
