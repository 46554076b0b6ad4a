//! Counts of lines.
ghost use Rattle.std.specs.Prelude.{◌≡◌, ◌+◌};

/// Counts of lines by kind, and of calls by answer.
#[derive(Clone, Copy, Debug, PartialEq, Eq)]
pub struct Tally {
    /// All lines.
    pub lines: u64,
    /// Lines with a frame of 56 or 112 bits.
    pub frames: u64,
    /// Lines with a tick.
    pub ticks: u64,
    /// Lines that ask for the table.
    pub shows: u64,
    /// Lines of blanks alone.
    pub blank: u64,
    /// Mode A/C replies and heartbeats.
    pub mode_ac: u64,
    /// Lines that can't be read.
    pub faults: u64,
    /// Frames and ticks that were accepted.
    pub accepted: u64,
    /// Frames and ticks that were refused. A frame that repeats one heard since the newest tick is refused too.
    pub refused: u64,
    pub ghost by_kind: { lines ≡ frames + ticks + shows + blank + mode_ac + faults },
    pub ghost by_answer: { accepted + refused ≡ frames + ticks },
}

impl Tally {
    /// A tally of no lines.
    pub fn new() -> Self
        ensures { result.lines ≡ 0 }
    {
        Tally {
            lines: 0,
            frames: 0,
            ticks: 0,
            shows: 0,
            blank: 0,
            mode_ac: 0,
            faults: 0,
            accepted: 0,
            refused: 0,
        }
    }
}
