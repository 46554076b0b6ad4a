//! A law over the definitions alone: what the receivers of a run take of its paths.
ghost use Rattle.std.specs.Prelude.{List};
ghost use Rattle.station_run.specs.Stations.{RunEnd, RunPlan, Runs, Station, Streams};
ghost use Rattle.station_run.specs.Taken.{TakesEachPath};

/// What the receivers of a run took of each path is what reading it gave, in each round, over all its stations.
///
/// In each station the receiver at a path's place took some lines of some bytes that its source gave. The bytes of a round, one
/// after another, are all that the source has given in the end, and the lines are those of these bytes. Of a path that was read
/// to its end, or to a failed read, they are the lines of all bytes that reading it gave. In a round with status 0 each path is
/// so, and all rounds before the last have it.
///
/// A receiver that ran out of memory, or used up its turns, took the first of these lines. It is the last of its path.
pub fn receivers_take_what_their_paths_give()
    ensures { (asked : RunPlan) (old : Streams) (stations : List Station) (end : RunEnd) →
        Runs asked old stations end → TakesEachPath asked stations }
{}
