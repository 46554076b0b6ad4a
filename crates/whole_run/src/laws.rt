//! Laws over the definitions alone: what a run did, and what the tables show that it printed.
ghost use Rattle.std.specs.Prelude.{◌<◌, ℕ, List, [], ◌∷◌, All, Option, Result, length};
ghost use Rattle.clap.specs.Words.{Text};
ghost use Rattle.streams.specs.Source.{SourceState};
ghost use Rattle.station_lines.specs.declared.pumping.PumpFault.{PumpFault};
ghost use Rattle.station_lines.specs.declared.tally.Tally.{Tally};
ghost use Rattle.one_journal.specs.Merge.{Deed};
ghost use Rattle.station_run.specs.Stations.{RunEnd, RunPlan, Runs, Station, Streams};
ghost use Rattle.whole_run.specs.Accounted.{IsAccounted};
ghost use Rattle.station_run.specs.Taken.{Portion, TakesEachPath};
ghost use Rattle.whole_run.specs.OneHistory.{BeginsWithNothing, IsOneHistory, TakeAll, TakePath};

/// Whatever the threads of a run did, the journal of each of its stations is a merge of the calls of its receivers and of the
/// ticks of its reporter. The receiver of each path called with the frame of each line that it took of it, in their order.
///
/// Each table that was printed shows a beginning of the journal, and each such beginning goes on from the one before. A last table
/// shows the whole journal, so it has every frame that was accepted.
pub fn one_journal_accounts_for_each_station()
    ensures { (asked : RunPlan) (old : Streams) (stations : List Station) (end : RunEnd) →
        Runs asked old stations end → All IsAccounted stations }
{}

/// Whatever the threads of a run did, there is one history of all its stations: what they accepted, one after another. It is a
/// merge of what each seat did in all of them: of the calls with the frames of all lines that the receiver of each path took, in
/// their order, and of the reporter's ticks. So each accepted call is in it once, and the plain search over a beginning of it
/// accepts or refuses each call, without a limit of entries. (Calls that were refused as a station's journal was full are left out.)
///
/// Each table that was printed is that of the plain search over a beginning of this history, and each such beginning goes on from
/// the one before. A last table has all that was accepted up to it.
///
/// This is so whatever portions of their paths the receivers took. There are such portions of which, path by path, the law of
/// `station_run` is true: their lines are those of the bytes that reading the path gave. A journal that begins with nothing is
/// that of the first station's history, under any limit.
pub fn one_history_accounts_for_a_run()
    ensures taken { (asked : RunPlan) (old : Streams) (stations : List Station) (end : RunEnd) →
        Runs asked old stations end → TakesEachPath asked stations →
        (path : Text) (known : Option (List ℕ)) (source : SourceState) (answer : Result Tally PumpFault) →
        (taken : List (ℕ → Portion)) × TakeAll stations taken ×
        ((place : ℕ) → place < length asked.paths → TakePath asked place path known source answer [] stations taken) }
    ensures begins { (asked : RunPlan) (old : Streams) (station : Station) (stations : List Station) (end : RunEnd) →
        Runs asked old (station ∷ stations) end → (n : ℕ) → BeginsWithNothing asked.site n (record {
          history = station.left.start.history;
          limits = record { entries = n; aircraft = 512; site = asked.site };
          resumed = 0;
        }) }
    ensures one { (asked : RunPlan) (old : Streams) (stations : List Station) (end : RunEnd) → Runs asked old stations end →
        (taken : List (ℕ → Portion)) → TakeAll stations taken → (dids : List (ℕ → List Deed)) × IsOneHistory asked.site stations taken dids }
{}
