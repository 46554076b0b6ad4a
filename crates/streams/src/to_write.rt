//! A sink over any writer.

ghost use Rattle.std.specs.Prelude.{◌≡◌};

use crate::sinks::{Failed, Sink};
use std::io::Write;

/// Passes bytes on to a writer, and counts the writes and flushes that failed.
/// A write that takes nothing of a non-empty piece is a failure, and so is one that a signal interrupts.
#[derive(Drop)]
pub struct ToWrite<W> {
    inner: W,
    failures: u64,
}

impl<W> ToWrite<W> {
    ghost use Rattle.std.specs.Prelude.{false};
    ghost use Rattle.streams.specs.Sink.{count_after};
    ghost use Rattle.streams.specs.ToWrite.{writer_of, failure_count};

    /// A sink that passes bytes on to this writer.
    pub fn new(inner: W) -> Self
        ensures inner { writer_of result ≡ inner }
        ensures failures { failure_count result ≡ 0 }
    {
        ToWrite { inner, failures: 0 }
    }

    /// The writer, with what was written to it.
    pub fn into_inner(self) -> W
        ensures { result ≡ writer_of self }
    {
        let ToWrite { inner, failures: _ } = self;
        inner
    }

    // Counts a failure, up to 2^64 - 1.
    fn failure(&mut self) -> Failed
        ensures inner { writer_of self.new ≡ writer_of self.old }
        ensures failures { failure_count self.new ≡ count_after false (failure_count self.old) }
    {
        self.failures = self.failures.saturating_add(1);
        Failed
    }
}

impl<W: Write> Sink for ToWrite<W> {
    ghost use Rattle.streams.specs.ToWrite.{writer_of, failure_count};

    ghost state = { λ s. record { taken = W.contents (writer_of s); failures = failure_count s } };

    fn write(&mut self, piece: &[u8]) -> Result<usize, Failed> {
        match self.inner.write(piece) {
            Ok(count) if count > 0 || piece.is_empty() => Ok(count),
            _ => Err(self.failure()),
        }
    }

    fn flush(&mut self) -> Result<(), Failed> {
        match self.inner.flush() {
            Ok(()) => Ok(()),
            Err(_) => Err(self.failure()),
        }
    }
}
