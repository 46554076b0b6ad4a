//! The thread that reads a path.
ghost use Rattle.std.specs.Prelude.{◌≡◌, ◌++◌, ◌∷◌, []};
ghost use Rattle.rtrb.specs.Ring.{SameProducer, sent};

use crate::backlog::Backlog;
use crate::finished_path::FinishedPath;
use crate::hand_over::{HandOver, PathState};
use crate::message::{Buffer, Message, PathEnd};
use crate::reopen::Reopen;
use rtrb::{Consumer, Producer, PushError};
use std::alloc::Global;
use std::io::{self, Read};
use std::sync::{Arc, Wait};

/// Reads a path and sends whole lines, each once and in order.
#[derive(Drop)]
pub struct PathReader {
    pub(crate) hand_over: Arc<HandOver, Global>,
    pub(crate) messages: Producer<Message>,
    pub(crate) emptied: Consumer<Buffer>,
    pub(crate) backlog: Backlog,
}

// Sends a message, and waits until there is room for it.
fn send<R: Wait>(rt: &R, hand_over: &HandOver, messages: &mut Producer<Message>, message: Message)
    ensures ring { SameProducer messages.old messages.new }
    ensures sent { sent messages.new ≡ sent messages.old ++ message ∷ [] }
{
    let mut message = message;
    for _ in rt.forever() {
        match messages.push(message) {
            Ok(()) => {
                hand_over.wake_source();
                return;
            }
            Err(PushError::Full(back)) => message = back,
        }
        hand_over.await_buffer(rt);
    }
    unreachable!()
}

// Waits for a buffer that was given back.
fn spare<R: Wait>(rt: &R, hand_over: &HandOver, emptied: &mut Consumer<Buffer>) -> Buffer {
    for _ in rt.forever() {
        if let Ok(buffer) = emptied.pop() {
            return buffer;
        }
        hand_over.await_buffer(rt);
    }
    unreachable!()
}

impl PathReader {
    ghost use Rattle.std.specs.Prelude.{◌≡◌, ◌≤◌, ◌++◌, ◌∷◌, [], IfOk, OnOk, length};
    ghost use Rattle.std.specs.Io.KnownBytes.{IsAtEnd};
    ghost use Rattle.rtrb.specs.Ring.{SameProducer, sent};
    ghost use Rattle.station_portions.specs.Batches.{HasNoLineFeed, longest_kept};
    ghost use Rattle.station_portions.specs.Backlog.{unsent_bytes};
    ghost use Rattle.station_portions.specs.Sending.{SendsOn, SendsOpening, SendsPath, SentSoFar};
    ghost use Rattle.station_portions.specs.Whole.{SendsWhole};
    ghost use Rattle.station_portions.specs.declared.message.Message.TheVariants.{Over};
    ghost use Rattle.station_portions.specs.declared.message.PathEnd.{PathEnd};

    // Sends the lines that a line feed ended.
    fn send_ended<R: Wait>(&mut self, rt: &R)
        ensures ring { SameProducer self.old.messages self.new.messages }
        ensures sends { SendsOn (sent self.old.messages) (sent self.new.messages)
            (unsent_bytes self.old.backlog) (unsent_bytes self.new.backlog) }
        ensures none { HasNoLineFeed (unsent_bytes self.new.backlog) }
    {
        let border = self.backlog.border();
        if border == 0 {
            return;
        }
        let spare = spare(rt, &self.hand_over, &mut self.emptied);
        let batch = self.backlog.split(border, spare);
        send(
            rt,
            &self.hand_over,
            &mut self.messages,
            Message::Lines(batch),
        );
    }

    // Sends the lines that a line feed ended, and keeps at most 512 bytes of the one after them.
    fn send_lines<R: Wait>(&mut self, rt: &R)
        ensures ring { SameProducer self.old.messages self.new.messages }
        ensures sends { SendsOn (sent self.old.messages) (sent self.new.messages)
            (unsent_bytes self.old.backlog) (unsent_bytes self.new.backlog) }
        ensures none { HasNoLineFeed (unsent_bytes self.new.backlog) }
        ensures short { length (unsent_bytes self.new.backlog) ≤ longest_kept }
    {
        self.send_ended(rt);
        self.backlog.shorten();
    }

    // Sends the lines of a reader that a line feed ends, up to its end or a failed read.
    fn send_up_to_end<R: Wait, I: Read>(&mut self, rt: &R, from: &mut I) -> io::Result<()>
        requires { unsent_bytes self.old.backlog ≡ [] }
        ensures ring { SameProducer self.old.messages self.new.messages }
        ensures so_far { SentSoFar (I.remaining from.old) (I.remaining from.new)
            (sent self.old.messages) (sent self.new.messages) (unsent_bytes self.new.backlog) }
        ensures none { HasNoLineFeed (unsent_bytes self.new.backlog) }
        ensures short { length (unsent_bytes self.new.backlog) ≤ longest_kept }
        ensures over { OnOk result (IsAtEnd (I.remaining from.new)) }
    {
        for _ in rt.forever() {
            let count = self.backlog.read_more(from)?;
            if count == 0 {
                return Ok(());
            }
            self.send_lines(rt);
        }
        unreachable!()
    }

    // Sends all lines of a reader, up to its end or a failed read, and answers which it was. A last line without line feed
    // gets one at the end, and is dropped after a failed read.
    fn send_path<R: Wait, I: Read>(&mut self, rt: &R, from: &mut I) -> PathEnd
        ensures ring { SameProducer self.old.messages self.new.messages }
        ensures sends { SendsPath (I.remaining from.old) (I.remaining from.new)
            (sent self.old.messages) (sent self.new.messages) result }
    {
        self.backlog.clear();
        match self.send_up_to_end(rt, from) {
            Ok(()) => {
                self.backlog.end_line();
                self.send_lines(rt);
                PathEnd::AtEnd
            }
            Err(_) => PathEnd::ReadFailed,
        }
    }

    // Sends that no further lines come.
    fn send_over<R: Wait>(&mut self, rt: &R, end: PathEnd)
        ensures ring { SameProducer self.old.messages self.new.messages }
        ensures sent { sent self.new.messages ≡ sent self.old.messages ++ Over end ∷ [] }
    {
        send(rt, &self.hand_over, &mut self.messages, Message::Over(end));
    }

    // Sends a path, and that it is over.
    pub(crate) fn run<R: Wait, I: Read>(self, rt: &R, from: I) -> FinishedPath<I>
        ensures { SendsWhole (I.remaining from) (I.remaining result.from) self.messages result.end result.messages }
    {
        let (mut reader, mut from) = (self, from);
        let end = reader.send_path(rt, &mut from);
        reader.hand_over.show(PathState::after(end));
        reader.send_over(rt, end);
        let PathReader {
            messages,
            hand_over: _,
            emptied: _,
            backlog: _,
        } = reader;
        FinishedPath {
            from,
            end,
            messages,
        }
    }

    // Sends the lines of one opening of a path, and then has the path opened again. The opening is closed before that: a pipe
    // that is open twice would take lines that nobody reads.
    fn send_opening<R: Wait, I: Read + Drop, O: Reopen<I>>(
        &mut self,
        rt: &R,
        from: I,
        again: &mut O,
    ) -> I
        ensures ring { SameProducer self.old.messages self.new.messages }
        ensures sends { SendsOpening O.opens (I.remaining from) (sent self.old.messages) (sent self.new.messages)
            again.old again.new result }
    {
        let mut opening = from;
        let end = self.send_path(rt, &mut opening);
        drop(opening);
        self.hand_over.show(PathState::Waiting);
        let opening = again.reopen(end);
        self.hand_over.show(PathState::Open);
        opening
    }

    // Opens a path that isn't open yet, sends it, and that it is over.
    pub(crate) fn run_later<R: Wait, I: Read + Drop, O: Reopen<I> + Drop>(
        self,
        rt: &R,
        from: I,
        later: O,
    ) -> FinishedPath<I>
        requires same { (end : PathEnd) (opened : I) (new : O) → O.opens later end opened new → I.remaining opened ≡ I.remaining from }
        ensures { SendsWhole (I.remaining from) (I.remaining result.from) self.messages result.end result.messages }
    {
        let (reader, mut later) = (self, later);
        reader.hand_over.show(PathState::Waiting);
        drop(from);
        let opened = later.reopen(PathEnd::AtEnd);
        reader.hand_over.show(PathState::Open);
        reader.run(rt, opened)
    }

    // Sends one opening of a path after another, for as long as the program runs.
    pub(crate) fn run_again<R: Wait, I: Read + Drop, O: Reopen<I>>(
        self,
        rt: &R,
        from: I,
        again: O,
    ) -> FinishedPath<I>
        ensures { SendsWhole (I.remaining from) (I.remaining result.from) self.messages result.end result.messages }
    {
        let (mut reader, mut from, mut again) = (self, from, again);
        for _ in rt.forever() {
            from = reader.send_opening(rt, from, &mut again);
        }
        unreachable!()
    }
}
