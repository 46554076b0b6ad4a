//! The output of a run while no station prints to it.
ghost use Rattle.std.specs.Prelude.{◌≡◌, Some};
ghost use Rattle.station_output.specs.Queued.{GivesBack, taken_before, thread_ring};
ghost use Rattle.station_output.specs.Tables.{based, is_broken};

use crate::printer::Printer;
use crate::table_queue::{OutputThread, WrittenOutput};
use std::io::Write;
use std::marker::Model;
use std::sync::Wait;
use std::thread::Threads;
use streams::Sink;

/// What prints tables, and the thread that writes what is printed.
#[derive(Drop)]
pub struct OpenOutput<S: Sink, A: Write> {
    printer: Printer<A>,
    thread: OutputThread<S>,
}

impl<S: Sink, A: Write> Model for OpenOutput<S, A> {
    ghost use Rattle.std.specs.Prelude.{◌≡◌, Some};
    ghost use Rattle.station_output.specs.Queued.{taken_before, thread_ring};
    ghost use Rattle.station_output.specs.Tables.{Printing, based};

    ghost Value = { Printing };

    ghost view = { λ o. based (taken_before S.state o.thread) o.printer };

    ghost invariant = { λ o. o.printer.ring ≡ Some (thread_ring o.thread) };
}

impl<S: Sink, A: Write> OpenOutput<S, A> {
    /// Puts both together.
    pub fn new(printer: Printer<A>, thread: OutputThread<S>) -> Self
        requires { printer.ring ≡ Some (thread_ring thread) }
        ensures { result ≡ based (taken_before S.state thread) printer }
    {
        OpenOutput { printer, thread }
    }

    /// Takes both apart.
    pub fn apart(self) -> (Printer<A>, OutputThread<S>)
        ensures whole { self ≡ based (taken_before S.state result.1) result.0 }
        ensures ring { result.0.ring ≡ Some (thread_ring result.1) }
    {
        let OpenOutput { printer, thread } = self;
        (printer, thread)
    }

    /// Whether it is known that a write failed.
    pub fn has_failed(&self) -> bool
        ensures { result ≡ self.now.has_failed }
    {
        self.printer.has_failed()
    }

    /// Whether the output is broken: a write failed, and the run doesn't go on without it.
    pub fn is_broken(&self) -> bool
        ensures { result ≡ is_broken self.now }
    {
        self.printer.is_broken()
    }
}

impl<S: Sink + Drop, A: Write + Drop> OpenOutput<S, A> {
    /// Waits until all that was printed is written, and takes the output.
    pub fn close<R: Threads + Wait>(self, rt: &R) -> WrittenOutput<S>
        ensures { GivesBack self.taken (S.state result.out).taken result.has_failed }
    {
        let OpenOutput { printer, thread } = self;
        printer.close(rt, thread)
    }
}
