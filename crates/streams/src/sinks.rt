//! Sinks of bytes.

ghost use Rattle.std.specs.Prelude.{◌≡◌, ℕ, ◌<◌, ◌≤◌, List, IfOk, OnOk, OnErr, is_ok, min, length, take};
ghost use Rattle.std.specs.Io.KnownBytes.{Appends, Keeps, WriteAppends};
ghost use Rattle.streams.specs.Sink.{SinkState, count_after, TakesAll};

/// A read, a write or a flush failed.
#[derive(Clone, Copy, Debug, PartialEq, Eq)]
pub struct Failed;

/// The sink failed while a text was written to it.
#[derive(Clone, Copy, Debug, PartialEq, Eq)]
pub struct WriteFault;

/// Takes bytes. Its contract says which bytes it took, and how often it failed.
pub trait Sink {
    /// The bytes taken so far, where they are known, and the writes and flushes that failed, up to 2^64 - 1.
    ghost state: { Self → SinkState };

    /// Takes bytes from the front of `piece` and answers how many: at least one, unless `piece` is empty.
    /// [`Failed`] where it took none.
    fn write(&mut self, piece: &[u8]) -> Result<usize, Failed>
        ensures within { IfOk result (λ n. n ≤ length piece.now) }
        ensures some { 0 < length piece.now → IfOk result (λ n. 0 < n) }
        ensures bytes { WriteAppends (state self.old).taken (state self.new).taken result piece.now }
        ensures failures { (state self.new).failures ≡ count_after (is_ok result) (state self.old).failures };

    /// Passes on the bytes taken so far. [`Failed`] where that failed.
    fn flush(&mut self) -> Result<(), Failed>
        ensures bytes { Keeps (state self.old).taken (state self.new).taken }
        ensures failures { (state self.new).failures ≡ count_after (is_ok result) (state self.old).failures };
}

/// Writes a whole piece, and stops at the first failure. The sink has then taken a front of the piece.
pub fn write_all<S: Sink>(out: &mut S, piece: &[u8]) -> Result<(), WriteFault>
    ensures { TakesAll (S.state out.old) (S.state out.new) piece.now result }
{
    let mut at = 0;
    while at < piece.len() {
        match out.write(&piece[at..]) {
            Ok(count) => at += count,
            Err(_) => return Err(WriteFault),
        }
    }
    Ok(())
}

/// Flushes after a text was written. [`WriteFault`] where the flush fails.
/// Where the text wasn't written, it answers that fault and doesn't flush.
pub fn flush_after<S: Sink>(written: Result<(), WriteFault>, out: &mut S) -> Result<(), WriteFault>
    ensures { (before : SinkState) (text : List ℕ) → TakesAll before (S.state out.old) text written →
        TakesAll before (S.state out.new) text result }
{
    if let Err(fault) = written {
        return Err(fault);
    }
    match out.flush() {
        Ok(()) => Ok(()),
        Err(_) => Err(WriteFault),
    }
}
