//! Standard error, line by line.
ghost use Rattle.std.specs.Prelude.{◌≡◌, ◌++◌, ◌∷◌, [], IfSome, false};
ghost use Rattle.messages.specs.Telling.{Tells, told_of};

use std::fmt::Display;
use std::io::Write;

/// A writer of lines that remembers whether a write failed. A failed write of standard error is no fault of a job.
#[derive(Drop)]
pub struct StandardError<E> {
    inner: E,
    has_failed: bool,
}

impl<E: Write> StandardError<E> {
    /// A writer of lines to `inner`, without a failed write.
    pub fn new(inner: E) -> Self
        ensures inner { result.inner ≡ inner }
        ensures failed { result.has_failed ≡ false }
    {
        StandardError {
            inner,
            has_failed: false,
        }
    }

    /// Writes a text that has its own line feeds.
    pub fn text<D: Display + Drop>(&mut self, text: D)
        ensures { IfSome (D.output text) (λ bytes.
            Tells (told_of E.contents self.old) (told_of E.contents self.new) bytes) }
    {
        if write!(self.inner, "{text}").is_err() {
            self.has_failed = true;
        }
    }

    /// Writes a text and a line feed.
    pub fn line<D: Display + Drop>(&mut self, text: D)
        ensures { IfSome (D.output text) (λ bytes.
            Tells (told_of E.contents self.old) (told_of E.contents self.new) (bytes ++ 10 ∷ [])) }
    {
        if self.inner.writeln(text).is_err() {
            self.has_failed = true;
        }
    }
}
