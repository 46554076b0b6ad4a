//! Both ends of a source of portions.
ghost use Rattle.std.specs.Prelude.{◌≡◌, IfOk, None, []};
ghost use Rattle.rtrb.specs.Ring.{IsPair, sent};
ghost use Rattle.station_portions.specs.Giving.{given_bytes, taken_messages};
ghost use Rattle.station_portions.specs.Rings.{reader_ring, source_ring};

use crate::backlog::Backlog;
use crate::hand_over::HandOver;
use crate::message::Buffer;
use crate::path_reader::PathReader;
use crate::portions::Portions;
use rtrb::RingBuffer;
use std::alloc::{AllocError, Global};
use std::sync::Arc;

// The buffers of a path. One is with the reader, the others are sent and come back.
const BUFFERS: usize = 3;

/// A source that has given nothing, the reader that sends to it, and the request for its hand-over. It allocates 384 KiB
/// for their buffers, and nothing later. [`AllocError`] where memory runs out.
pub fn connect<R>(
    rt: &R,
    alloc: Global,
) -> Result<(PathReader, Portions<'_, R>, Arc<HandOver, Global>), AllocError>
    ensures given { IfOk result (λ made. given_bytes made.1 ≡ []) }
    ensures taken { IfOk result (λ made. taken_messages made.1 ≡ []) }
    ensures sent { IfOk result (λ made. sent made.0.messages ≡ []) }
    ensures pair { IfOk result (λ made. IsPair made.0.messages made.1.messages) }
    ensures ring { IfOk result (λ made. source_ring made.1.messages ≡ reader_ring made.0.messages) }
    ensures left { IfOk result (λ made. made.1.end ≡ None) }
{
    let hand_over = Arc::new(alloc, HandOver::new())?;
    let (to_source, messages) = RingBuffer::new(alloc, BUFFERS + 2)?;
    let (mut emptied, to_reader) = RingBuffer::new(alloc, BUFFERS)?;
    for _ in 0..BUFFERS - 1 {
        let _ = emptied.push(Buffer::new(alloc)?);
    }
    let reader = PathReader {
        hand_over: Arc::try_clone(&hand_over)?,
        messages: to_source,
        emptied: to_reader,
        backlog: Backlog::new(Buffer::new(alloc)?),
    };
    let portions = Portions::new(rt, Arc::try_clone(&hand_over)?, messages, emptied);
    Ok((reader, portions, hand_over))
}
