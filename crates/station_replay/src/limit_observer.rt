//! What observes the limits that refused calls meet.
ghost use Rattle.station_replay.specs.FullLimits.{limits_of};

use station_journal::{FullLimit, Refusal};

/// Observes each call that meets a limit, as the call is refused.
pub trait LimitObserver {
    ghost use Rattle.std.specs.Prelude.{List, [], ◌∷◌, ◌++◌};
    ghost use Rattle.station_journal.specs.declared.full_limit.FullLimit.{FullLimit};

    /// The state before some limits were met, these limits in their order, and the state after them.
    ghost met: { Self → List FullLimit → Self → Type 0 };

    /// A call met this limit.
    fn limit_met(&mut self, limit: FullLimit)
        ensures { met self.old (limit ∷ []) self.new };

    /// Where no limit is met, nothing changes.
    ghost none: { (x : Self) → met x [] x };

    /// Meeting some limits and then others is meeting them all, in order.
    ghost then: { (x y z : Self) (cs ds : List FullLimit)
        → met x cs y → met y ds z → met x (cs ++ ds) z };
}

/// Ignores the limits that calls meet.
#[derive(Clone, Copy, Debug, PartialEq, Eq)]
pub struct Unobserved;

impl LimitObserver for Unobserved {
    ghost met = { λ x limits y. Unit {0} };

    fn limit_met(&mut self, _limit: FullLimit) {}

    ghost none = { λ x. tt };

    ghost then = { λ x y z cs ds p q. tt };
}

// Passes the limit on for which a call was refused so, if it was for one.
pub(crate) fn report_limit<O: LimitObserver>(observer: &mut O, refusal: Refusal)
    ensures { O.met observer.old (limits_of refusal) observer.new }
{
    if let Some(limit) = FullLimit::of(refusal) {
        observer.limit_met(limit);
    }
}
