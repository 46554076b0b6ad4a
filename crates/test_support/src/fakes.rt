//! An output that fails.
use std::io::{self, ErrorKind, Write};

/// Fails at each write.
#[derive(Drop)]
pub struct Closed;

impl Write for Closed {
    fn write(&mut self, _piece: &[u8]) -> io::Result<usize> {
        Err(io::Error::from(ErrorKind::BrokenPipe))
    }

    fn flush(&mut self) -> io::Result<()> {
        Ok(())
    }
}
