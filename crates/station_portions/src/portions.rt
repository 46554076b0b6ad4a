//! A source over the lines that a path's reader sends.
ghost use Rattle.std.specs.Prelude.{◌≡◌, ◌<◌, ◌≤◌, ◌++◌, [], Some, is_some, length, take, true};
ghost use Rattle.rtrb.specs.Ring.{received};
ghost use Rattle.station_portions.specs.Messages.{bytes_of_messages, bytes_before, last_end, ungiven_of};
ghost use Rattle.station_portions.specs.declared.message.PathEnd.TheVariants.{ReadFailed};

mod receiving;
mod whole;

use crate::hand_over::{HandOver, Requested};
use crate::message::{Batch, Buffer, Message, PathEnd};
use crate::portions::receiving::{give_back, next_message};
use rtrb::{Consumer, Producer};
use std::alloc::Global;
use std::sync::{Arc, Wait};
use streams::{Failed, Source};

/// Gives the lines of a path in portions, each byte once and in order. A portion ends between two lines where a hand-over
/// was requested, or where the path ended or a read of it failed.
#[derive(Drop)]
pub struct Portions<'a, R> {
    rt: &'a R,
    hand_over: Arc<HandOver, Global>,
    messages: Consumer<Message>,
    emptied: Producer<Buffer>,
    batch: Option<Batch>,
    at: usize,
    end: Option<PathEnd>,
    // What shows that the last read found a hand-over requested.
    asked: Option<Requested>,
    reads: u64,
    ends: u64,
    failures: u64,
    ghost kept: { bytes_before (received messages) (ungiven_of batch at) ++ ungiven_of batch at
        ≡ bytes_of_messages (received messages) },
    ghost over: { is_some end ≡ true → ungiven_of batch at ≡ [] },
    ghost ended: { end ≡ last_end (received messages) },
    ghost failed: { 0 < failures → end ≡ Some ReadFailed },
}

// Gives what is left of a batch, as far as there is room.
fn give(batch: &Option<Batch>, at: &mut usize, buffer: &mut [u8]) -> usize
    ensures room { length buffer.new ≡ length buffer.old }
    ensures within { result ≤ length buffer.new }
    ensures given { ungiven_of batch.now at.old ≡ take result buffer.new ++ ungiven_of batch.now at.new }
    ensures none { result ≡ 0 → 0 < length buffer.new → ungiven_of batch.now at.old ≡ [] }
{
    let Some(batch) = batch else {
        return 0;
    };
    let from = *at;
    if from >= batch.count {
        return 0;
    }
    let count = (batch.count - from).min(buffer.len());
    buffer[..count].copy_from_slice(&batch.buffer.bytes[from..from + count]);
    *at = from + count;
    count
}

impl<R: Wait> Portions<'_, R> {
    ghost use Rattle.std.specs.Prelude.{◌≡◌, ◌<◌, ◌⊎◌, [], IfSome, Some, is_some, length, true};
    ghost use mathlib.Core.List.{IsPrefix};
    ghost use Rattle.rtrb.specs.Ring.{SameConsumer};
    ghost use Rattle.station_portions.specs.Giving.{given_bytes, state_of, taken_messages, ungiven_bytes};

    // Takes the next message, unless a hand-over is requested. Where there is none yet, it may wait for one.
    fn refill(&mut self, may_wait: bool)
        requires { ungiven_bytes self.old ≡ [] }
        ensures given { given_bytes self.new ≡ given_bytes self.old }
        ensures ring { SameConsumer self.old.messages self.new.messages }
        ensures taken { IsPrefix (taken_messages self.old) (taken_messages self.new) }
        ensures over { IfSome self.old.end (λ e. (self.new.end ≡ Some e) × (taken_messages self.new ≡ taken_messages self.old)) }
        ensures reads { self.new.reads ≡ self.old.reads }
        ensures ends { self.new.ends ≡ self.old.ends }
        ensures failures { self.new.failures ≡ self.old.failures }
        ensures found { may_wait ≡ true → (0 < length (ungiven_bytes self.new))
            ⊎ ((is_some self.new.end ≡ true) ⊎ (is_some self.new.asked ≡ true)) }
    {
        if self.end.is_some() {
            return;
        }
        let emptied = self.batch.take();
        give_back(&self.hand_over, &mut self.emptied, emptied);
        let next = next_message(
            self.rt,
            &self.hand_over,
            &mut self.messages,
            may_wait,
            &mut self.asked,
        );
        match next {
            None => {}
            Some(Message::Lines(batch)) => {
                self.batch = Some(batch);
                self.at = 0;
            }
            Some(Message::Over(end)) => self.end = Some(end),
        }
    }

    // Takes the next message where there is room for its bytes and none are left. It waits for it, unless a hand-over is
    // requested or the path is over.
    fn prepare(&mut self, has_room: bool)
        ensures given { given_bytes self.new ≡ given_bytes self.old }
        ensures ring { SameConsumer self.old.messages self.new.messages }
        ensures taken { IsPrefix (taken_messages self.old) (taken_messages self.new) }
        ensures over { IfSome self.old.end (λ e. (self.new.end ≡ Some e) × (taken_messages self.new ≡ taken_messages self.old)) }
        ensures reads { self.new.reads ≡ self.old.reads }
        ensures ends { self.new.ends ≡ self.old.ends }
        ensures failures { self.new.failures ≡ self.old.failures }
        ensures held { 0 < length (ungiven_bytes self.old) → 0 < length (ungiven_bytes self.new) }
        ensures found { has_room ≡ true → (0 < length (ungiven_bytes self.new))
            ⊎ ((is_some self.new.end ≡ true) ⊎ (is_some self.new.asked ≡ true)) }
    {
        if has_room && !self.has_bytes() {
            self.refill(true);
        }
    }
}

impl<'a, R> Portions<'a, R> {
    ghost use Rattle.std.specs.Prelude.{◌≡◌, ◌<◌, ◌≤◌, ◌++◌, None, Some, [], false, is_some, not, length, nat_lt, take, true};
    ghost use Rattle.rtrb.specs.Ring.{SameConsumer, received};
    ghost use Rattle.station_portions.specs.declared.message.PathEnd.TheVariants.{AtEnd, ReadFailed};
    ghost use Rattle.station_portions.specs.Batches.{IsBorder};
    ghost use Rattle.station_portions.specs.Giving.{given_bytes, state_of, taken_messages, ungiven_bytes};

    // Takes the messages from here on.
    pub(crate) fn new(
        rt: &'a R,
        hand_over: Arc<HandOver, Global>,
        messages: Consumer<Message>,
        emptied: Producer<Buffer>,
    ) -> Self
        requires { received messages ≡ [] }
        ensures given { given_bytes result ≡ [] }
        ensures messages { result.messages ≡ messages }
        ensures end { result.end ≡ None }
    {
        Portions {
            rt,
            hand_over,
            messages,
            emptied,
            batch: None,
            at: 0,
            end: None,
            asked: None,
            reads: 0,
            ends: 0,
            failures: 0,
        }
    }

    /// How the path ended. `None` while lines may still come.
    pub fn end(&self) -> Option<PathEnd>
        ensures { result ≡ self.now.end }
    {
        self.end
    }

    /// Whether every byte that was received is given, and so no line is begun.
    pub fn is_between_lines(&self) -> bool
        ensures empty { result ≡ not (nat_lt 0 (length (ungiven_bytes self.now))) }
        ensures border { result ≡ true → IsBorder (given_bytes self.now) }
    {
        !self.has_bytes()
    }

    // Whether bytes were received that aren't given yet.
    fn has_bytes(&self) -> bool
        ensures { result ≡ nat_lt 0 (length (ungiven_bytes self.now)) }
    {
        match &self.batch {
            Some(batch) => self.at < batch.count,
            None => false,
        }
    }

    // Whether a read of the path failed, and all before it is given.
    fn has_failed(&self) -> bool
        ensures failed { result ≡ true → self.now.end ≡ Some ReadFailed }
        ensures held { 0 < length (ungiven_bytes self.now) → result ≡ false }
        ensures ended { result ≡ false → ungiven_bytes self.now ≡ [] → is_some self.now.end ≡ true → self.now.end ≡ Some AtEnd }
    {
        match self.end {
            Some(PathEnd::ReadFailed) => !self.has_bytes(),
            Some(PathEnd::AtEnd) => false,
            None => false,
        }
    }

    // Gives bytes that were received, as far as there is room.
    fn give_some(&mut self, buffer: &mut [u8]) -> usize
        ensures room { length buffer.new ≡ length buffer.old }
        ensures within { result ≤ length buffer.new }
        ensures given { given_bytes self.new ≡ given_bytes self.old ++ take result buffer.new }
        ensures border { result ≡ 0 → 0 < length buffer.new → IsBorder (given_bytes self.new) }
        ensures none { result ≡ 0 → 0 < length buffer.new → ungiven_bytes self.old ≡ [] }
        ensures still { ungiven_bytes self.old ≡ [] → result ≡ 0 }
        ensures ring { SameConsumer self.old.messages self.new.messages }
        ensures taken { taken_messages self.new ≡ taken_messages self.old }
        ensures end { self.new.end ≡ self.old.end }
        ensures asked { self.new.asked ≡ self.old.asked }
        ensures reads { self.new.reads ≡ self.old.reads }
        ensures ends { self.new.ends ≡ self.old.ends }
        ensures failures { self.new.failures ≡ self.old.failures }
    {
        give(&self.batch, &mut self.at, buffer)
    }
}

impl<R: Wait> Source for Portions<'_, R> {
    ghost use Rattle.std.specs.Prelude.{◌≡◌, ◌<◌, ◌≤◌, ◌⊎◌, Some, nat_lt, length, IfOk, IfSome, OnErr, Ok, true, not, is_ok, is_some};
    ghost use mathlib.Core.List.{IsPrefix};
    ghost use Rattle.rtrb.specs.Ring.{SameConsumer};
    ghost use Rattle.std.specs.Io.KnownBytes.{ReadConsumes, WriteAppends};
    ghost use Rattle.streams.specs.Sink.{count_after};
    ghost use Rattle.streams.specs.Source.{is_end, one_more};
    ghost use Rattle.station_portions.specs.Batches.{IsBorder};
    ghost use Rattle.station_portions.specs.Giving.{given_bytes, left_of, state_of, taken_messages, ungiven_bytes};
    ghost use Rattle.station_portions.specs.Rings.{source_ring};
    ghost use Rattle.station_portions.specs.declared.message.PathEnd.TheVariants.{AtEnd, ReadFailed};

    ghost state = { state_of };

    fn is_at_hand(&self) -> bool {
        self.has_bytes()
    }

    /// Reads some bytes of the portion, and waits where none is there. 0 at the end of the portion, which is between two
    /// lines: where the path ended, or a hand-over is requested. [`Failed`] after the last line of a path with a failed
    /// read. From the path's end on each read answers the same.
    fn read(&mut self, buffer: &mut [u8]) -> Result<usize, Failed>
        ensures within { IfOk result (λ n. n ≤ length buffer.new) }
        ensures bytes { ReadConsumes (left_of self.old.end) (left_of self.new.end) result buffer.new }
        ensures given { WriteAppends (Some (given_bytes self.old)) (Some (given_bytes self.new)) result buffer.new }
        ensures reads { self.new.reads ≡ one_more self.old.reads }
        ensures ends { self.new.ends ≡ count_after (not (is_end result (length buffer.new))) self.old.ends }
        ensures failures { self.new.failures ≡ count_after (is_ok result) self.old.failures }
        ensures at_hand { nat_lt 0 (length (ungiven_bytes self.old)) ≡ true → is_ok result ≡ true }
        ensures border { result ≡ Ok 0 → 0 < length buffer.new → IsBorder (given_bytes self.new) }
        ensures ring { SameConsumer self.old.messages self.new.messages }
        ensures taken { IsPrefix (taken_messages self.old) (taken_messages self.new) }
        ensures over { IfSome self.old.end (λ e. (self.new.end ≡ Some e) × (taken_messages self.new ≡ taken_messages self.old)) }
        ensures failed { OnErr result (self.new.end ≡ Some ReadFailed) }
        ensures why { result ≡ Ok 0 → 0 < length buffer.new →
            (self.new.end ≡ Some AtEnd) ⊎ (is_some self.new.asked ≡ true) }
        ensures same { Some (source_ring self.new.messages) ≡ Some (source_ring self.old.messages) }
    {
        self.asked = None;
        self.reads = self.reads.saturating_add(1);
        self.prepare(!buffer.is_empty());
        if self.has_failed() {
            self.failures = self.failures.saturating_add(1);
            return Err(Failed);
        }
        let count = self.give_some(buffer);
        if count == 0 && !buffer.is_empty() {
            self.ends = self.ends.saturating_add(1);
        }
        if count > 0 && !self.has_bytes() {
            // What was received since is at hand then.
            self.refill(false);
        }
        Ok(count)
    }
}
