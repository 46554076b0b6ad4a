//! The queue of tables that wait for an output, and the thread that writes them.
ghost use Rattle.std.specs.Prelude.{◌≡◌, ◌++◌, ◌∷◌, ◌||◌, [], false, nat_lt};
ghost use Rattle.rtrb.specs.Ring.{SameProducer, received, sent};

use crate::passing::Passing;
use crate::table::Table;
use crate::writing::{WritesTables, Writing};
use rtrb::{Consumer, Producer, PushError};
use std::alloc::Global;
use std::sync::{Arc, Wait};
use std::thread::{PromisedHandle, Threads};
use streams::Sink;

// Four tables wait, and one is being written.
pub(crate) const TABLES: usize = 5;

// How often room is looked for, with a short rest after each time: a tenth of a second in all.
const LOOKS_FOR_ROOM: u32 = 10;

/// An output after its last table.
#[derive(Drop)]
pub struct WrittenOutput<S> {
    pub out: S,
    /// Whether a write failed.
    pub has_failed: bool,
}

/// The tables that wait for an output, at most four.
#[derive(Drop)]
pub struct TableQueue {
    pub(crate) tables: Producer<Table>,
    pub(crate) emptied: Consumer<Table>,
    // A table without text, if one is at hand.
    pub(crate) spare: Option<Table>,
    pub(crate) passing: Arc<Passing, Global>,
}

/// The thread that writes the tables of a queue. It ends with the queue.
#[derive(Drop)]
pub struct OutputThread<S: Sink> {
    pub(crate) handle: PromisedHandle<Writing<S>, WritesTables<S>>,
    ghost begun: { (received handle.promise.begun.value.tables ≡ [])
        × (handle.promise.begun.value.has_failed ≡ false) },
}

// Sends a table, and waits until there is room for it.
fn send<R: Wait>(rt: &R, passing: &Passing, tables: &mut Producer<Table>, table: Table)
    ensures ring { SameProducer tables.old tables.new }
    ensures sent { sent tables.new ≡ sent tables.old ++ table ∷ [] }
{
    let mut table = table;
    for _ in rt.forever() {
        match tables.push(table) {
            Ok(()) => {
                passing.wake_writer();
                return;
            }
            Err(PushError::Full(back)) => table = back,
        }
        passing.await_room(rt);
    }
    unreachable!()
}

// An output of which this many tables are left out after its last write.
fn written<S>(out: S, has_failed: bool, left: usize) -> WrittenOutput<S>
    ensures out { result.out ≡ out }
    ensures failed { result.has_failed ≡ (has_failed || nat_lt 0 left) }
{
    WrittenOutput {
        out,
        has_failed: has_failed || left > 0,
    }
}

impl TableQueue {
    ghost use Rattle.std.specs.Prelude.{◌≡◌, ◌++◌, []};
    ghost use Rattle.station_output.specs.Queued.{GivesBack, IsSame, queue_ring, sent_texts, taken_before, thread_ring};
    ghost use Rattle.std.specs.Io.KnownBytes.{append_known};

    /// Whether there is room for one more table.
    pub fn has_room(&mut self) -> bool
        ensures { IsSame self.old self.new }
    {
        if self.spare.is_none() {
            self.spare = self.emptied.pop().ok();
        }
        self.spare.is_some()
    }

    /// The same, after a tenth of a second at most in which it may come.
    pub fn has_room_soon<R: Wait>(&mut self, rt: &R) -> bool
        ensures { IsSame self.old self.new }
    {
        for _ in 0..LOOKS_FOR_ROOM {
            if self.has_room() {
                return true;
            }
            self.passing.await_room(rt);
        }
        self.has_room()
    }

    /// A table without text. Where there is no room it waits.
    pub fn blank<R: Wait>(&mut self, rt: &R) -> Table
        ensures same { IsSame self.old self.new }
        ensures blank { result.text.items ≡ [] }
    {
        for _ in rt.forever() {
            if let Some(mut table) = self.spare.take() {
                table.text.clear();
                return table;
            }
            if !self.has_room() {
                self.passing.await_room(rt);
            }
        }
        unreachable!()
    }

    /// Sends a table to the output. Where there is no room it waits.
    pub fn send<R: Wait>(&mut self, rt: &R, table: Table)
        ensures sent { sent_texts self.new ≡ sent_texts self.old ++ table.text.items }
        ensures ring { queue_ring self.new ≡ queue_ring self.old }
    {
        send(rt, &self.passing, &mut self.tables, table);
    }

    /// Gives a table back that isn't sent.
    pub fn keep(&mut self, table: Table)
        ensures { IsSame self.old self.new }
    {
        self.spare = Some(table);
    }

    /// Whether a write failed. What is sent later is left out.
    pub fn has_failed(&self) -> bool {
        self.passing.has_failed()
    }

    /// Waits until all tables that were sent are written, or left out after a failed write.
    pub fn settle<R: Wait>(&mut self, rt: &R)
        ensures { IsSame self.old self.new }
    {
        for _ in rt.forever() {
            let at_hand = usize::from(self.has_room());
            if self.emptied.slots() + at_hand >= TABLES {
                return;
            }
            self.passing.await_room(rt);
        }
        unreachable!()
    }

    /// Ends the queue: waits until its thread has written all tables, and takes the output from it.
    pub fn close<R: Threads + Wait, S: Sink>(
        self,
        rt: &R,
        thread: OutputThread<S>,
    ) -> WrittenOutput<S>
        requires { queue_ring self ≡ thread_ring thread }
        ensures { GivesBack (append_known (taken_before S.state thread) (sent_texts self)) (S.state result.out).taken result.has_failed }
    {
        let TableQueue {
            mut tables,
            passing,
            ..
        } = self;
        passing.end();
        let OutputThread { handle } = thread;
        let Writing {
            out,
            has_failed,
            tables: mut waiting,
        } = handle.join(rt);
        // None waits: the thread looks for a table once more after the end is shown.
        let left = waiting.slots_beside(&mut tables);
        written(out, has_failed, left)
    }
}
