//! How a running book goes on with the recent entries alone.

ghost use Rattle.std.specs.Prelude.{◌≡◌, ◌≤◌, length};
ghost use Rattle.station_journal.specs.Forgetting.{recent_log};
ghost use Rattle.station_journal.specs.Log.{Log, most_entries};
ghost use Rattle.station_book.specs.Matching.{Matches};

use crate::Book;

impl<const N: usize> Book<N> {
    /// Counts only the recent entries of those that it took, `count`. What it shows stays, as no entry that is more than
    /// 70,000 ms old is looked at any more.
    pub fn forget_old(&mut self, count: u64)
        requires few { count ≤ most_entries }
        ensures value { self.new ≡ record self.old { entries = count } }
        ensures kept { (log : Log) → Matches N log.base self.old log.entries → count ≡ length (recent_log log).entries →
            Matches N (recent_log log).base self.new (recent_log log).entries }
    {
        self.count = count;
    }
}
