//! The thread that writes tables.
ghost use Rattle.std.specs.Prelude.{◌≡◌, ◌++◌, ◌∷◌, [], IfSome, List, ℕ, Option};
ghost use Rattle.rtrb.specs.Ring.{SameConsumer, received};
ghost use Rattle.streams.specs.Sink.{TakesAll};
ghost use Rattle.station_output.specs.Queued.{HasWritten, WritesOn};

use crate::passing::Passing;
use crate::table::Table;
use rtrb::{Consumer, Producer};
use std::snapshot::Snapshot;
use std::sync::Wait;
use std::thread::Promise;
use streams::{Sink, flush_after, write_all};

/// An output with the tables that wait for it.
#[derive(Drop)]
pub struct Writing<S> {
    pub(crate) out: S,
    pub(crate) has_failed: bool,
    pub(crate) tables: Consumer<Table>,
}

/// The promise of the thread that writes: the output has all tables that came, in their order, or a front of their texts where
/// a write failed.
#[derive(Drop)]
pub struct WritesTables<S> {
    pub(crate) begun: Snapshot<Writing<S>>,
}

impl<S: Sink> Promise<Writing<S>> for WritesTables<S> {
    ghost kept_by = { λ p r. WritesOn (S.state p.begun.value.out).taken (S.state r.out).taken
        p.begun.value.tables r.tables p.begun.value.has_failed r.has_failed };
}

impl<S: Sink> Writing<S> {
    // Writes a text, and flushes. After a failed write it does nothing.
    fn write(&mut self, text: &[u8])
        ensures tables { self.new.tables ≡ self.old.tables }
        ensures written { (first : Option (List ℕ)) (texts : List ℕ) →
            HasWritten first (S.state self.old.out).taken texts self.old.has_failed →
            HasWritten first (S.state self.new.out).taken (texts ++ text.now) self.new.has_failed }
    {
        if self.has_failed {
            return;
        }
        let written = write_all(&mut self.out, text);
        self.has_failed = flush_after(written, &mut self.out).is_err();
    }

    // Whether no further table comes than those that wait now.
    fn is_over(&mut self, passing: &Passing) -> bool
        ensures { WritesOn (S.state self.old.out).taken (S.state self.new.out).taken
            self.old.tables self.new.tables self.old.has_failed self.new.has_failed }
    {
        passing.is_over() || self.tables.is_abandoned()
    }

    // Writes the next table and hands it back, if one waits.
    fn write_next(&mut self) -> Option<Table>
        ensures { WritesOn (S.state self.old.out).taken (S.state self.new.out).taken
            self.old.tables self.new.tables self.old.has_failed self.new.has_failed }
    {
        match self.tables.pop() {
            Ok(table) => {
                self.write(table.text.as_slice());
                Some(table)
            }
            Err(_) => None,
        }
    }

    // Writes the tables that come, up to the end of the queue. The tables go back without their texts.
    pub(crate) fn run<R: Wait>(
        self,
        rt: &R,
        passing: &Passing,
        mut emptied: Producer<Table>,
    ) -> Writing<S>
        ensures { WritesOn (S.state self.out).taken (S.state result.out).taken
            self.tables result.tables self.has_failed result.has_failed }
    {
        let mut writing = self;
        for _ in rt.forever() {
            let is_over = writing.is_over(passing);
            match writing.write_next() {
                Some(table) => give_back(passing, &mut emptied, table, writing.has_failed),
                None if is_over => return writing,
                None => passing.await_table(rt),
            }
        }
        unreachable!()
    }
}

// Gives a written table back, without its text.
fn give_back(passing: &Passing, emptied: &mut Producer<Table>, table: Table, has_failed: bool) {
    let mut table = table;
    table.text.clear();
    let _ = emptied.push(table);
    if has_failed {
        passing.fail();
    }
    passing.wake_sender();
}
