//! Sources of bytes.
ghost use Rattle.std.specs.Prelude.{◌≡◌, ◌<◌, ◌≤◌, true, IfOk, IfSome, Ok, is_ok, not, length};
ghost use Rattle.std.specs.Io.KnownBytes.{ReadConsumes, WriteAppends};
ghost use Rattle.streams.specs.Sink.{count_after};
ghost use Rattle.streams.specs.Source.{IsBorder, SourceState, is_end, one_more};

use crate::sinks::Failed;

/// Gives bytes, as a file or a pipe does. Its counts stop at 2^64 - 1.
pub trait Source {
    /// The bytes left and given, the reads, ends and failures so far, and whether the next read can't fail.
    ghost state: { Self → SourceState };

    /// Whether bytes are at hand: the next read doesn't wait and can't fail. A source that can't know answers no.
    fn is_at_hand(&self) -> bool
        ensures { result ≡ true → (state self.now).at_hand ≡ true }
    {
        false
    }

    /// Reads some of the bytes to come and answers how many: 0 only at the end, or where `buffer` is empty.
    /// [`Failed`] where the read failed. A source that reports what it gave ends between two lines.
    fn read(&mut self, buffer: &mut [u8]) -> Result<usize, Failed>
        ensures within { IfOk result (λ n. n ≤ length buffer.new) }
        ensures bytes { ReadConsumes (state self.old).left (state self.new).left result buffer.new }
        ensures given { WriteAppends (state self.old).given (state self.new).given result buffer.new }
        ensures reads { (state self.new).reads ≡ one_more (state self.old).reads }
        ensures ends { (state self.new).ends
            ≡ count_after (not (is_end result (length buffer.new))) (state self.old).ends }
        ensures failures { (state self.new).failures ≡ count_after (is_ok result) (state self.old).failures }
        ensures at_hand { (state self.old).at_hand ≡ true → is_ok result ≡ true }
        ensures border { result ≡ Ok 0 → 0 < length buffer.new → IfSome (state self.new).given IsBorder }
        ensures ring { (state self.new).ring ≡ (state self.old).ring };
}
