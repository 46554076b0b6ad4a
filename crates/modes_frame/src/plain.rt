//! Plain lines, which are read in place.
ghost use Rattle.std.specs.Prelude.{◌<◌, ◌≤◌, IfSome, length, take};
ghost use Rattle.modes_frame.specs.Plain.{EndsFrame};

use crate::cutter::Cutter;
use crate::frame::Frame;
use crate::line::plain_line;

/// A plain line: `*`, the 14 or 28 digits of a frame, `;` and a line feed, with no blank.
#[derive(Clone, Copy, Debug, PartialEq, Eq)]
pub struct PlainLine {
    /// The number of its bytes, with the line feed: 17 or 31.
    pub length: usize,
    /// The frame that it says.
    pub frame: Frame,
}

impl Cutter {
    /// The plain line at the front of the bytes, where the cutter keeps no byte of an earlier line. Pushing its bytes
    /// would end this one line and leave the cutter as it is, so a caller skips them.
    ///
    /// None says nothing about the bytes: push them. It is the answer
    /// - to any other line,
    /// - to a line that goes on behind the bytes.
    #[inline(always)]
    pub fn plain_line(&self, bytes: &[u8]) -> Option<PlainLine>
        ensures some { IfSome result (λ line. 0 < line.length) }
        ensures within { IfSome result (λ line. line.length ≤ length bytes.now) }
        ensures ends { IfSome result (λ line. EndsFrame self.now (take line.length bytes.now) line.frame) }
    {
        if self.is_between_lines() {
            plain_line(bytes)
        } else {
            None
        }
    }
}
