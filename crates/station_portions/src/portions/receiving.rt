//! Messages that come from a path's thread, and the buffers that go back.
ghost use Rattle.std.specs.Prelude.{◌≡◌, ◌++◌, ◌∷◌, IfSome, IfNone, [], is_some, true};
ghost use Rattle.rtrb.specs.Ring.{SameConsumer, received};

use crate::hand_over::{HandOver, Requested};
use crate::message::{Batch, Buffer, Message};
use rtrb::{Consumer, Producer};
use std::sync::Wait;

/// The next message, for which it may wait. `None` where there is none yet, or a hand-over is requested. Then `asked` shows
/// the request.
pub(super) fn next_message<R: Wait>(
    rt: &R,
    hand_over: &HandOver,
    messages: &mut Consumer<Message>,
    may_wait: bool,
    asked: &mut Option<Requested>,
) -> Option<Message>
    ensures asked { may_wait ≡ true → IfNone result (is_some asked.new ≡ true) }
    ensures ring { SameConsumer messages.old messages.new }
    ensures some { IfSome result (λ m. received messages.new ≡ received messages.old ++ m ∷ []) }
    ensures none { IfNone result (received messages.new ≡ received messages.old) }
{
    for _ in rt.forever() {
        if let Some(requested) = hand_over.requested() {
            *asked = Some(requested);
            return None;
        }
        if let Ok(message) = messages.pop() {
            return Some(message);
        }
        if !may_wait {
            return None;
        }
        hand_over.await_message(rt);
    }
    unreachable!()
}

/// Gives the buffer of a batch back to the reader.
pub(super) fn give_back(
    hand_over: &HandOver,
    emptied: &mut Producer<Buffer>,
    batch: Option<Batch>,
) {
    if let Some(batch) = batch {
        let Batch { buffer, count: _ } = batch;
        let _ = emptied.push(buffer);
        hand_over.wake_reader();
    }
}
