//! How an output gets its queue, and the thread that writes its tables.
ghost use Rattle.std.specs.Prelude.{◌≡◌, [], IfOk};
ghost use Rattle.rtrb.specs.Ring.{IsPair, received, sent};
ghost use Rattle.station_output.specs.Queued.{WritesOn, queue_ring, sent_texts, taken_before, thread_ring};

use crate::passing::Passing;
use crate::table::Table;
use crate::table_queue::{OutputThread, TABLES, TableQueue};
use crate::writing::{WritesTables, Writing};
use rtrb::{Consumer, Producer, RingBuffer};
use std::alloc::{AllocError, Global};
use std::snapshot::Snapshot;
use std::sync::{Arc, Wait};
use std::thread::{Scope, Threads};
use streams::Sink;

/// Why no queue is made.
#[derive(Clone, Copy, Debug, PartialEq, Eq)]
pub enum QueueFault {
    /// An allocation was refused.
    NoMemory,
    /// The thread that writes couldn't be started.
    ThreadNotStarted,
}

impl From<AllocError> for QueueFault {
    fn from(_: AllocError) -> QueueFault {
        QueueFault::NoMemory
    }
}

// What the two threads share, and the ends of both rings: tables to the one that writes, and without their texts back to the one
// that sends.
#[derive(Drop)]
struct Ends {
    passing: Arc<Passing, Global>,
    shown: Arc<Passing, Global>,
    tables: Producer<Table>,
    to_write: Consumer<Table>,
    emptied: Producer<Table>,
    given_back: Consumer<Table>,
}

// Both ends, with tables that have room for this many bytes each.
fn connect(alloc: Global, room: usize) -> Result<Ends, AllocError>
    ensures none { IfOk result (λ ends. received ends.to_write ≡ []) }
    ensures sent { IfOk result (λ ends. sent ends.tables ≡ []) }
    ensures pair { IfOk result (λ ends. IsPair ends.tables ends.to_write) }
{
    let passing = Arc::new(alloc, Passing::new())?;
    let shown = Arc::try_clone(&passing)?;
    let (tables, to_write) = RingBuffer::new(alloc, TABLES)?;
    let (mut emptied, given_back) = RingBuffer::new(alloc, TABLES)?;
    for _ in 0..TABLES {
        let _ = emptied.push(Table::with_room(alloc, room)?);
    }
    Ok(Ends {
        passing,
        shown,
        tables,
        to_write,
        emptied,
        given_back,
    })
}

/// Starts the thread that writes to an output. Each table has room for this many bytes before it needs memory. A fault where no
/// thread can be started, or out of memory.
pub fn start<'s, 'e: 's, R: Threads + Wait + Sync, S: Sink + Send + Drop + 'e>(
    scope: &Scope<'s, &'e ()>,
    rt: &'e R,
    alloc: Global,
    room: usize,
    out: S,
) -> Result<(TableQueue, OutputThread<S>), QueueFault>
    ensures sent { IfOk result (λ made. sent_texts made.0 ≡ []) }
    ensures ring { IfOk result (λ made. queue_ring made.0 ≡ thread_ring made.1) }
    ensures before { IfOk result (λ made. taken_before S.state made.1 ≡ (S.state out).taken) }
{
    let Ends {
        passing,
        shown,
        tables,
        to_write,
        emptied,
        given_back,
    } = connect(alloc, room)?;
    let writing = Writing {
        out,
        has_failed: false,
        tables: to_write,
    };
    let promise = WritesTables {
        begun: Snapshot::of(&writing),
    };
    let job = move || -> Writing<S>
        ensures { WritesOn (S.state writing.out).taken (S.state result.out).taken
            writing.tables result.tables writing.has_failed result.has_failed }
    { writing.run(rt, &shown, emptied) };
    let Ok(handle) = scope.spawn_with(promise, job) else {
        return Err(QueueFault::ThreadNotStarted);
    };
    let queue = TableQueue {
        tables,
        emptied: given_back,
        spare: None,
        passing,
    };
    Ok((queue, OutputThread { handle }))
}
