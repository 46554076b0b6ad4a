//! Counts lines by their kind, and the calls that they make by the answer.
ghost use Rattle.std.specs.Prelude.{◌≡◌, ◌+◌, ◌^◌, ◌<◌};
ghost use Rattle.station_lines.specs.Counting.{CountsCall, CountsNoCall};

use crate::tally::Tally;

impl Tally {
    /// Counts a line with a frame, and the answer to it.
    pub fn frame(&mut self, is_accepted: bool)
        requires room { self.old.lines + 1 < 2 ^ 64 }
        ensures { CountsCall self.old self.new 1 0 is_accepted }
    {
        self.call(1, 0, is_accepted);
    }

    /// Counts a line with a tick, and the answer to it.
    pub fn tick(&mut self, is_accepted: bool)
        requires room { self.old.lines + 1 < 2 ^ 64 }
        ensures { CountsCall self.old self.new 0 1 is_accepted }
    {
        self.call(0, 1, is_accepted);
    }

    // Counts a line with one call, a frame or a tick, and the answer to it.
    fn call(&mut self, frames: u64, ticks: u64, is_accepted: bool)
        requires room { self.old.lines + 1 < 2 ^ 64 }
        requires one { frames + ticks ≡ 1 }
        ensures { CountsCall self.old self.new frames ticks is_accepted }
    {
        self.lines += 1;
        self.frames += frames;
        self.ticks += ticks;
        self.accepted += u64::from(is_accepted);
        self.refused += u64::from(!is_accepted);
    }

    /// Counts a line that asks for the table.
    pub fn show(&mut self)
        requires room { self.old.lines + 1 < 2 ^ 64 }
        ensures { CountsNoCall self.old self.new 1 0 0 }
    {
        self.lines += 1;
        self.shows += 1;
    }

    /// Counts a line of blanks alone.
    pub fn blank(&mut self)
        requires room { self.old.lines + 1 < 2 ^ 64 }
        ensures { CountsNoCall self.old self.new 0 1 0 }
    {
        self.lines += 1;
        self.blank += 1;
    }

    /// Counts a Mode A/C reply or a heartbeat.
    pub fn mode_ac(&mut self)
        requires room { self.old.lines + 1 < 2 ^ 64 }
        ensures { CountsNoCall self.old self.new 0 0 1 }
    {
        self.lines += 1;
        self.mode_ac += 1;
    }

    /// Counts a line that can't be read.
    pub fn fault(&mut self)
        requires room { self.old.lines + 1 < 2 ^ 64 }
        ensures { CountsNoCall self.old self.new 0 0 0 }
    {
        self.lines += 1;
        self.faults += 1;
    }
}
