//! Where the clock of a run begins.
ghost use Rattle.std.specs.Prelude.{◌≡◌, option_map};
ghost use Rattle.command_line.specs.Command.{clock_named};

/// Where the clock of a run begins, in milliseconds.
#[derive(Clone, Copy, Debug, PartialEq, Eq)]
pub enum ClockOrigin {
    /// With 0, at the start of the run.
    Start,
    /// With the time since 1970, UTC, at the start of the run.
    Unix,
}

impl ClockOrigin {
    /// The beginning that a word of `--clock` names, and the start of the run where there is none.
    pub fn named(word: Option<&str>) -> ClockOrigin
        ensures { result ≡ clock_named (option_map (λ w. w.now) word.entry) }
    {
        match word {
            Some(word) if word == "unix" => ClockOrigin::Unix,
            _ => ClockOrigin::Start,
        }
    }
}
