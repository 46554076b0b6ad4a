//! A law over the definitions alone: what `replay` prints of the record of a run.
ghost use Rattle.std.specs.Prelude.{◌≡◌, ℕ, List, Option, is_some, true};
ghost use Rattle.station_report.specs.declared.formats.Format.TheVariants.{Text};
ghost use Rattle.station_run.specs.Stations.{RunPlan, RunsStations};
ghost use Rattle.shown_again.specs.ShownAgain.{HasPrinted, HasRecorded, HasRoom, IsOneStation, ReplayPrints, WroteAll};
ghost use Rattle.messages.specs.Telling.{Alarmed, Told};
ghost use Rattle.station_run.specs.Limits.{program_limits};
ghost use Rattle.station_replay.specs.Forgetting.{unlimited_output};
ghost use Rattle.station_journal.specs.Log.{empty_log};
ghost use Rattle.modes_frame.specs.Lines.{cuts};

/// `replay` of the record of a run prints, byte for byte, what the run printed as text. The run may have several rounds, each of
/// any number of stations that hand over one to the next. It left its output, and no write of that or of its record failed,
/// whatever its status. (One with status 0 is such a run.) The replay ended with status 0. Its input is just the lines that the
/// record took, and it is given the same place, if any, as the run.
///
/// The replay's journal has to have room for the entries in these lines. It has for those of one station. It has for any number of
/// them as long as fewer than 12,582,912 are recent and fewer than 4,194,304 come between two ticks.
pub fn a_replay_prints_what_the_run_printed()
    ensures again { (asked : RunPlan) (before : Option (List ℕ)) (after : Option (Option (List ℕ)))
        (alarm : Alarmed) (err_old err_new : Told) (status : ℕ) → asked.tables.format ≡ Text → is_some asked.file ≡ true →
        (run : RunsStations asked before after alarm err_old err_new status) → WroteAll run.leaves.end → (text lines : List ℕ) ×
        HasPrinted before after text × HasRecorded run.blank run.leaves.end.recording lines ×
        (unlimited_output (empty_log (program_limits asked.site)) (cuts lines) ≡ text) ×
        (IsOneStation run.stations → HasRoom asked.site lines) ×
        (HasRoom asked.site lines → ReplayPrints asked.site lines text) }
    ensures well { (asked : RunPlan) (before : Option (List ℕ)) (after : Option (Option (List ℕ)))
        (alarm : Alarmed) (err_old err_new : Told) →
        (run : RunsStations asked before after alarm err_old err_new 0) → WroteAll run.leaves.end }
{}
