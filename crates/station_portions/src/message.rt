//! What the thread that reads a path sends.
ghost use Rattle.std.specs.Prelude.{◌≡◌, ◌≤◌, length};
ghost use Rattle.station_portions.specs.Batches.{EndsLine, buffer_size};

use std::alloc::{AllocError, Global};

// The bytes of a buffer.
const SIZE: usize = 131_072;

/// A buffer of 131,072 bytes.
#[derive(Drop)]
pub struct Buffer {
    pub bytes: Vec<u8>,
    pub ghost size: { length bytes.items ≡ buffer_size },
}

impl Buffer {
    /// A buffer of zeros.
    pub fn new(alloc: Global) -> Result<Buffer, AllocError> {
        let bytes = vec![in alloc; 0; SIZE]?;
        Ok(Buffer { bytes })
    }
}

/// Whole lines: the last byte is a line feed.
#[derive(Drop)]
pub struct Batch {
    /// A buffer that begins with the lines.
    pub buffer: Buffer,
    /// The number of bytes in the lines: 1 to 131,072.
    pub count: usize,
    pub ghost within: { count ≤ buffer_size },
    pub ghost whole: { EndsLine buffer.bytes.items count },
}

/// How the reading of a path ended.
#[derive(Clone, Copy, Debug, PartialEq, Eq)]
pub enum PathEnd {
    /// The path ended.
    AtEnd,
    /// A read of the path failed.
    ReadFailed,
}

/// One message of the thread that reads a path.
#[derive(Drop)]
pub enum Message {
    /// The next lines of the path.
    Lines(Batch),
    /// No further lines.
    Over(PathEnd),
}
