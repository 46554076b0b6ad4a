//! What the lock of a station protects.
ghost use Rattle.std.specs.Prelude.{◌≡◌, false, IfOk, IfErr};
ghost use Rattle.station_book.specs.Call.{entry_of};
ghost use Rattle.station_shared.specs.Seats.{Accepted, Refused};

use crate::counted_desk::CountedDesk;
use crate::receipt::Receipt;
use crate::seat::Seat;
use crate::station_name::StationName;
use station_book::Call;
use station_journal::Refusal;
use std::sync::Wait;

/// The desk, of which readers are shown all that it took.
pub struct ShownDesk<const N: usize, L: StationName> {
    pub(crate) counted: CountedDesk<N, L>,
    ghost shown: { counted.is_open ≡ false },
}

impl<const N: usize, L: StationName> ShownDesk<N, L> {
    /// Takes the entry of a call by the seat, and shows it.
    pub(crate) fn take<R: Wait>(
        &mut self,
        rt: &R,
        seat: &mut Seat<N, L>,
        call: &Call,
    ) -> Result<Receipt<L>, Refusal>
        ensures accepted { IfOk result (λ receipt. (receipt.name ≡ L.start.history)
            × Accepted L.start seat.old seat.new (entry_of seat.old.number call.now) receipt) }
        ensures refused { IfErr result (λ refusal.
            Refused L.start seat.old seat.new (entry_of seat.old.number call.now) refusal) }
    {
        self.counted.confirm_prefix(seat);
        let answer = self.counted.take(rt, seat, call);
        self.counted.show(rt);
        answer
    }
}
