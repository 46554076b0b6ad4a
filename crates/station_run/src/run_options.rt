//! The options of a run.
ghost use Rattle.std.specs.Prelude.{◌≡◌};
ghost use Rattle.station_run.specs.Stations.{origin_of, plan_from};
ghost use Rattle.station_run.specs.Stations.{plan_of};

use crate::limits::FORGET_AT;
use command_line::{ClockOrigin, RunArguments};
use modes_cpr::Reference;
use station_paths::Opening;
use station_reporter::Tables;

/// The options of a run.
#[derive(Clone, Copy)]
pub struct RunOptions<'a> {
    /// When tables are due, and how they are written.
    pub tables: Tables,
    /// 1 to 1,000.
    pub rounds: u16,
    /// Whether a path that has ended, or whose read failed, is opened again. Then there is one round.
    pub reopens: bool,
    /// After how many seconds without a frame a path is reported to be silent, 1 to 86,400, where paths are watched.
    pub watch: Option<u32>,
    /// The named pipe that ends the run once it is written to, if one is given.
    pub stop: &'a Option<String>,
    /// Where the clock begins, in milliseconds: 0 at the start of the run, or the time since 1970.
    pub begins_at: u64,
    /// The time at which that clock shows 0, in milliseconds since 1970.
    pub origin: u64,
    /// The file that the run is recorded to, if one is given.
    pub record: &'a Option<String>,
    /// The folder in which displays find the tables, if one is given.
    pub displays: &'a Option<String>,
    /// 1 to 8 files or pipes.
    pub paths: &'a Vec<String>,
    /// How many entries of its journal make a station hand over to the next.
    pub hand_over_at: u64,
    /// The place of the receivers, if it is given.
    pub site: Option<Reference>,
}

impl<'a> RunOptions<'a> {
    /// What the arguments ask for, of a run that starts at `now`, in milliseconds since 1970.
    pub fn new(arguments: &'a RunArguments, now: u64) -> Self
        ensures plan { plan_of result ≡ plan_from arguments.entry.now now }
        ensures rounds { result.rounds ≡ arguments.entry.now.rounds }
        ensures reopens { result.reopens ≡ arguments.entry.now.reopens }
        ensures origin { result.origin ≡ origin_of arguments.entry.now.clock now }
        ensures displays { result.displays.now ≡ arguments.entry.now.displays }
        ensures paths { result.paths.now ≡ arguments.entry.now.paths }
    {
        let (begins_at, origin) = match arguments.clock {
            ClockOrigin::Start => (0, now),
            ClockOrigin::Unix => (now, 0),
        };
        RunOptions {
            tables: Tables {
                pace: arguments.pace,
                format: arguments.format.since(origin),
            },
            rounds: arguments.rounds,
            reopens: arguments.reopens,
            watch: arguments.watch,
            stop: &arguments.stop,
            begins_at,
            origin,
            record: &arguments.record,
            displays: &arguments.displays,
            paths: &arguments.paths,
            hand_over_at: FORGET_AT,
            site: arguments.site,
        }
    }

    /// How its paths are opened.
    pub fn opening(self) -> Opening {
        if self.reopens {
            return Opening::Again;
        }
        if self.watch.is_some() {
            return Opening::Later;
        }
        Opening::Once
    }
}
