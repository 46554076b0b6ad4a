//! The output to which tables are printed.
ghost use Rattle.std.specs.Prelude.{◌≡◌, ◌∷◌, [], IfOk, Some, false, true};
ghost use Rattle.std.specs.Io.KnownBytes.{append_known};
ghost use Rattle.station_output.specs.Queued.{GivesBack, queue_ring, sent_texts, taken_before, thread_ring};
ghost use Rattle.station_output.specs.Tables.{MayFail, TakesTexts, TellsOutput, is_broken, put_after, text_of};
ghost use Rattle.messages.specs.Telling.{told_of};

use crate::stall_alarm::StallAlarm;
use crate::table::Table;
use crate::table_queue::{OutputThread, TableQueue, WrittenOutput};
use messages::{Fault, StandardError, tell};
use station_report::{Format, table_as};
use station_shared::{Look, Seat, StationName};
use std::io::Write;
use std::marker::Model;
use std::sync::Wait;
use std::thread::Threads;
use streams::{Sink, ToWrite};

/// The output of tables. Nothing is printed after a failed write.
#[derive(Drop)]
pub struct Printer<A: Write> {
    queue: TableQueue,
    // Whether it is known that a write failed.
    has_failed: bool,
    // Whether a run goes on without its output.
    goes_on: bool,
    // Where a failed write is then reported at once.
    alarm: StandardError<A>,
    stalls: StallAlarm<A>,
}

impl<A: Write> Model for Printer<A> {
    ghost use Rattle.std.specs.Prelude.{Some};
    ghost use Rattle.station_output.specs.Queued.{queue_ring, sent_texts};
    ghost use Rattle.station_output.specs.Tables.{Printing};
    ghost use Rattle.messages.specs.Telling.{told_of};

    ghost Value = { Printing };

    ghost view = { λ p. record {
      ring = Some (queue_ring p.queue);
      taken = Some (sent_texts p.queue);
      has_failed = p.has_failed;
      goes_on = p.goes_on;
      alarm = told_of A.contents p.alarm;
    } };
}

impl<A: Write> Printer<A> {
    /// An output of which no write failed yet. `goes_on` says whether the run goes on without it. Then a failed write is
    /// reported to `alarm`. Tables that are left out are reported to `stalls`.
    pub fn new(
        queue: TableQueue,
        goes_on: bool,
        alarm: StandardError<A>,
        stalls: StallAlarm<A>,
    ) -> Self
        ensures { result ≡ record {
          ring = Some (queue_ring queue);
          taken = Some (sent_texts queue);
          has_failed = false;
          goes_on = goes_on;
          alarm = told_of A.contents alarm;
        } }
    {
        Printer {
            queue,
            has_failed: false,
            goes_on,
            alarm,
            stalls,
        }
    }

    /// Whether it is known that a write failed.
    pub fn has_failed(&self) -> bool
        ensures { result ≡ self.now.has_failed }
    {
        self.has_failed
    }

    /// Whether the output is broken: a write failed, and the run doesn't go on without it.
    pub fn is_broken(&self) -> bool
        ensures { result ≡ is_broken self.now }
    {
        self.has_failed && !self.goes_on
    }

    /// Learns whether a write has failed. Where the run goes on, that is reported at once.
    pub fn learn(&mut self)
        ensures { MayFail self.old self.new }
    {
        if !self.has_failed && self.queue.has_failed() {
            self.fail();
        }
    }

    /// Whether the table that is due has room, or else is left out. Where none was left out yet, room may come within a tenth of a
    /// second. After a failed write no table needs any.
    pub fn has_room<R: Wait>(&mut self, rt: &R) -> bool
        ensures { self.new ≡ self.old }
    {
        if self.has_failed {
            return true;
        }
        if self.stalls.is_stalled() {
            return self.queue.has_room();
        }
        self.queue.has_room_soon(rt)
    }

    /// Leaves out the table that is due. The first is reported.
    pub fn leave_out(&mut self)
        ensures { self.new ≡ self.old }
    {
        self.stalls.leave_out();
    }

    /// Prints the table of a look, unless a write failed before, and ends the look. Where there is no room it waits.
    pub fn print<const N: usize, L: StationName, R: Wait>(
        &mut self,
        rt: &R,
        look: Look<N, L>,
        format: Format,
    ) -> Seat<N, L>
        requires { is_broken self.old ≡ false }
        ensures seat { result ≡ look }
        ensures takes { TakesTexts format L.start (Some look ∷ []) self.old self.new }
    {
        if self.has_failed {
            return look.done();
        }
        let blank = self.queue.blank(rt);
        let (seat, written) = write_table(look, format, blank);
        match written {
            Ok(table) => self.send(rt, table),
            Err(table) => {
                self.queue.keep(table);
                self.fail();
            }
        }
        seat
    }

    // Sends a table.
    fn send<R: Wait>(&mut self, rt: &R, table: Table)
        ensures taken { self.new.taken ≡ append_known self.old.taken table.text.items }
        ensures failed { self.new.has_failed ≡ self.old.has_failed }
        ensures goes_on { self.new.goes_on ≡ self.old.goes_on }
        ensures ring { self.new.ring ≡ self.old.ring }
        ensures told { self.new.alarm ≡ self.old.alarm }
    {
        self.queue.send(rt, table);
        self.stalls.go_on();
    }

    // Notes that a write failed. Where the run goes on, that is reported at once.
    fn fail(&mut self)
        ensures failed { self.new.has_failed ≡ true }
        ensures taken { self.new.taken ≡ self.old.taken }
        ensures goes_on { self.new.goes_on ≡ self.old.goes_on }
        ensures ring { self.new.ring ≡ self.old.ring }
        ensures told { TellsOutput self.old.goes_on self.old.alarm self.new.alarm }
    {
        self.has_failed = true;
        if self.goes_on {
            tell(&mut self.alarm, Fault::Write);
        }
    }

    /// Waits until all tables are written, and learns whether a write failed.
    pub fn settle<R: Wait>(&mut self, rt: &R)
        ensures { MayFail self.old self.new }
    {
        self.queue.settle(rt);
        self.learn();
    }
}

impl<A: Write + Drop> Printer<A> {
    /// Waits until the thread of its queue has written all tables, and takes the output from it.
    pub fn close<R: Threads + Wait, S: Sink>(
        self,
        rt: &R,
        thread: OutputThread<S>,
    ) -> WrittenOutput<S>
        requires { self.ring ≡ Some (thread_ring thread) }
        ensures { GivesBack (put_after (taken_before S.state thread) self.taken) (S.state result.out).taken result.has_failed }
    {
        let Printer { queue, .. } = self;
        queue.close(rt, thread)
    }
}

// Writes the table of a look, and ends the look. `Err` where there is no memory for the text.
fn write_table<const N: usize, L: StationName>(
    look: Look<N, L>,
    format: Format,
    blank: Table,
) -> (Seat<N, L>, Result<Table, Table>)
    requires { blank.text.items ≡ [] }
    ensures seat { result.0 ≡ look }
    ensures text { IfOk result.1 (λ table. table.text.items ≡ text_of format L.start look.seen) }
{
    let mut out = ToWrite::new(blank.text);
    let written = table_as(format, &look, look.now(), look.entries(), &mut out);
    let seat = look.done();
    let table = Table {
        text: out.into_inner(),
    };
    match written {
        Ok(()) => (seat, Ok(table)),
        Err(_) => (seat, Err(table)),
    }
}
