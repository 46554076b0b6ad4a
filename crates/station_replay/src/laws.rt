//! Laws over the definitions alone.

ghost use Rattle.std.specs.Prelude.{◌≡◌, ℕ, ◌+◌, ◌≤◌, List, Ok};
ghost use Rattle.std.specs.Io.KnownBytes.{Appends};
ghost use Rattle.modes_frame.specs.declared.cutter.Cut.{Cut};
ghost use Rattle.station_journal.specs.declared.limits.Limits.{Limits};
ghost use Rattle.station_journal.specs.Log.{Log, empty_log};
ghost use Rattle.streams.specs.Sink.{SinkState};
ghost use Rattle.streams.specs.Source.{SourceState};
ghost use Rattle.station_lines.specs.declared.tally.Tally.{Tally};
ghost use Rattle.station_replay.specs.Forgetting.{calls_in, forgetting_output, unlimited_output, StaysSparse, forgetting_step};
ghost use Rattle.station_replay.specs.ForgettingReplay.{ReplaysForgetting};
ghost use Rattle.station_replay.specs.Replay.{output};
ghost use Rattle.std.specs.List.{AllByRecursion};
ghost use Rattle.station_replay.specs.FullLimits.{limits_met_by};
ghost use Rattle.station_journal.specs.declared.full_limit.FullLimit.TheVariants.{Table};
ghost use Rattle.station_report.specs.declared.formats.Format.TheVariants.{Text};

/// A desk forgets what isn't recent at a tick, once it has `most` entries. As text, it shows the tables of one without a
/// limit of entries, as long as two bounds are kept:
///
/// - fewer than `most` entries are at most 70,000 ms old;
/// - fewer than `few` entries come between two ticks, where the limit leaves room for `few` beside `most`.
pub fn forgetting_loses_nothing()
    ensures { (limits : Limits) (most few : ℕ) (lines : List Cut) → most + few ≤ limits.entries →
        StaysSparse most few (empty_log limits) lines →
        forgetting_output most (empty_log limits) lines ≡ unlimited_output (empty_log limits) lines }
{}

/// A replay as text by such a desk that comes to the end of its source writes those tables, from an empty desk on.
pub fn a_forgetting_replay_loses_nothing()
    ensures { (limits : Limits) (most few : ℕ) (after : Log)
        (source_old source_new : SourceState) (sink_old sink_new : SinkState)
        (turns : ℕ) (tally : Tally) → most + few ≤ limits.entries →
        (replay : ReplaysForgetting Text most (empty_log limits) after source_old source_new sink_old sink_new turns (Ok tally)) →
        StaysSparse most few (empty_log limits) replay.lines →
        Appends sink_old.taken sink_new.taken (unlimited_output (empty_log limits) replay.lines) }
{}

/// If lines make no more calls than the limit of entries, the limit changes nothing. That is so at a desk that forgets, too.
pub fn a_limit_that_is_not_reached()
    ensures whole { (limits : Limits) (lines : List Cut) → calls_in lines ≤ limits.entries →
        output (empty_log limits) lines ≡ unlimited_output (empty_log limits) lines }
    ensures forgetting { (limits : Limits) (most : ℕ) (lines : List Cut) → calls_in lines ≤ limits.entries →
        forgetting_output most (empty_log limits) lines ≡ unlimited_output (empty_log limits) lines }
{}

/// At such a desk no call meets a full journal, as long as the same bounds are kept.
pub fn a_journal_that_is_never_full()
    ensures { (limits : Limits) (most few : ℕ) (lines : List Cut) → most + few ≤ limits.entries →
        StaysSparse most few (empty_log limits) lines →
        AllByRecursion (λ limit. limit ≡ Table) (limits_met_by (forgetting_step most) (empty_log limits) lines) }
{}
