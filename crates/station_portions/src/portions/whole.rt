//! Whether all of a path was given.

use crate::finished_path::{FinishedPath, WholePath};
use crate::portions::Portions;
use std::io::Read;
use std::thread::{PromisedHandle, Threads};

impl<R> Portions<'_, R> {
    ghost use Rattle.std.specs.Prelude.{◌≡◌, ◌<◌, ◌⊎◌, ◌++◌, List, None, Some, [], false, length, true};
    ghost use Rattle.rtrb.specs.Ring.{IsPair, SameConsumer, sent};
    ghost use Rattle.station_portions.specs.Giving.{given_bytes, taken_messages, ungiven_bytes};
    ghost use Rattle.station_portions.specs.Messages.{bytes_of_messages};
    ghost use Rattle.station_portions.specs.Rings.{reader_ring, source_ring};
    ghost use Rattle.station_portions.specs.Whole.{GivesPath};
    ghost use Rattle.station_portions.specs.declared.message.Message.{Message};
    ghost use Rattle.station_portions.specs.declared.message.PathEnd.{PathEnd};

    /// Whether every byte is given that this path's thread sent. If not, a message or a byte is left.
    pub fn gave_all<I>(&mut self, path: &mut FinishedPath<I>) -> bool
        requires { IsPair path.old.messages self.old.messages }
        ensures given { given_bytes self.new ≡ given_bytes self.old }
        ensures end { self.new.end ≡ self.old.end }
        ensures reads { self.new.reads ≡ self.old.reads }
        ensures ends { self.new.ends ≡ self.old.ends }
        ensures failures { self.new.failures ≡ self.old.failures }
        ensures ring { SameConsumer self.old.messages self.new.messages }
        ensures all { result ≡ true → (taken_messages self.new ≡ sent path.old.messages)
            × (given_bytes self.new ≡ bytes_of_messages (sent path.old.messages)) }
        ensures rest { result ≡ false → (left : List Message) × (taken_messages self.new ++ left ≡ sent path.old.messages)
            × ((0 < length left) ⊎ (0 < length (ungiven_bytes self.new))) }
    {
        self.messages.slots_beside(&mut path.messages) == 0 && !self.has_bytes()
    }

    /// Whether this source's path has ended, or a read of it failed. Then its thread is joined, and every byte is given that
    /// it sent.
    pub fn gave_path<T: Threads, I: Read + Drop>(
        &mut self,
        rt: &T,
        path: PromisedHandle<FinishedPath<I>, WholePath<I>>,
    ) -> bool
        requires ring { source_ring self.old.messages ≡ reader_ring path.promise.reader.value.messages }
        requires new { sent path.promise.reader.value.messages ≡ [] }
        ensures given { given_bytes self.new ≡ given_bytes self.old }
        ensures end { self.new.end ≡ self.old.end }
        ensures reads { self.new.reads ≡ self.old.reads }
        ensures ends { self.new.ends ≡ self.old.ends }
        ensures failures { self.new.failures ≡ self.old.failures }
        ensures ring { SameConsumer self.old.messages self.new.messages }
        ensures path { result ≡ true → (e : PathEnd) × (self.old.end ≡ Some e)
            × GivesPath (I.remaining path.promise.from.value) e (given_bytes self.new) }
        ensures goes_on { result ≡ false → self.old.end ≡ None }
    {
        if self.end.is_none() {
            return false;
        }
        let mut finished = path.join(rt);
        self.gave_all(&mut finished)
    }
}
