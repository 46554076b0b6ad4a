//! How the thread of a path is started.

use crate::finished_path::{FinishedPath, WholePath};
use crate::path_reader::PathReader;
use crate::reopen::Reopen;
use std::io::{self, Read};
use std::snapshot::Snapshot;
use std::sync::Wait;
use std::thread;
use std::thread::{PromisedHandle, Threads};

impl PathReader {
    ghost use Rattle.std.specs.Prelude.{◌≡◌, IfOk};
    ghost use Rattle.station_portions.specs.Whole.{SendsWhole};
    ghost use Rattle.station_portions.specs.declared.message.PathEnd.{PathEnd};

    /// Starts the thread that reads `from` to its end, or to a read that fails. It needn't be joined: it ends with its
    /// path, or with the program. An error where no thread can be started.
    pub fn start<R: Threads, W: Wait + Copy + Send + 'static, I: Read + Send + Drop + 'static>(
        self,
        rt: &R,
        own: W,
        from: I,
    ) -> io::Result<PromisedHandle<FinishedPath<I>, WholePath<I>>>
        ensures { IfOk result (λ h. (h.promise.from.value ≡ from) × (h.promise.reader.value ≡ self)) }
    {
        let promise = WholePath {
            from: Snapshot::of(&from),
            reader: Snapshot::of(&self),
        };
        let reader = self;
        let handle = thread::spawn_with(
            rt,
            promise,
            move || -> FinishedPath<I>
                ensures { SendsWhole (I.remaining from) (I.remaining result.from)
                    reader.messages result.end result.messages }
            { reader.run(&own, from) },
        )?;
        Ok(handle)
    }

    /// Starts the thread that first has a path opened, whose bytes are those of `from`, and then reads it to its end, or to a read
    /// that fails. An error where no thread can be started.
    pub fn start_later<
        R: Threads,
        W: Wait + Copy + Send + 'static,
        I: Read + Send + Drop + 'static,
        O: Reopen<I> + Send + Drop + 'static,
    >(
        self,
        rt: &R,
        own: W,
        from: I,
        later: O,
    ) -> io::Result<PromisedHandle<FinishedPath<I>, WholePath<I>>>
        requires same { (end : PathEnd) (opened : I) (new : O) → O.opens later end opened new → I.remaining opened ≡ I.remaining from }
        ensures { IfOk result (λ h. (h.promise.from.value ≡ from) × (h.promise.reader.value ≡ self)) }
    {
        let promise = WholePath {
            from: Snapshot::of(&from),
            reader: Snapshot::of(&self),
        };
        let reader = self;
        let handle = thread::spawn_with(
            rt,
            promise,
            move || -> FinishedPath<I>
                requires { (end : PathEnd) (opened : I) (new : O) → O.opens later end opened new → I.remaining opened ≡ I.remaining from }
                ensures { SendsWhole (I.remaining from) (I.remaining result.from)
                    reader.messages result.end result.messages }
            { reader.run_later(&own, from, later) },
        )?;
        Ok(handle)
    }

    /// Starts the thread that reads `from`, and whatever it is opened again as, each to its end or to a read that fails. A
    /// last line without line feed gets one at the end, and is dropped after a failed read. The thread ends with the program.
    /// An error where no thread can be started.
    pub fn start_again<
        R: Threads,
        W: Wait + Copy + Send + 'static,
        I: Read + Send + Drop + 'static,
        O: Reopen<I> + Send + Drop + 'static,
    >(
        self,
        rt: &R,
        own: W,
        from: I,
        again: O,
    ) -> io::Result<PromisedHandle<FinishedPath<I>, WholePath<I>>>
        ensures { IfOk result (λ h. (h.promise.from.value ≡ from) × (h.promise.reader.value ≡ self)) }
    {
        let promise = WholePath {
            from: Snapshot::of(&from),
            reader: Snapshot::of(&self),
        };
        let reader = self;
        let handle = thread::spawn_with(
            rt,
            promise,
            move || -> FinishedPath<I>
                ensures { SendsWhole (I.remaining from) (I.remaining result.from)
                    reader.messages result.end result.messages }
            { reader.run_again(&own, from, again) },
        )?;
        Ok(handle)
    }
}
