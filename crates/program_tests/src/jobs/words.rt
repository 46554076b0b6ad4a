//! The jobs that command lines name.
use crate::comparing::{holds_at, same_at};
use station_main::{
    ClockOrigin, Job, Pace, RunArguments, TableFormat, WordsFault, program, read_words,
};
use std::alloc::{AllocError, Global};
use test_support::{NO_LINES, text, words_of};

// The job that a line names.
fn job_of(alloc: Global, line: &str) -> Result<Job, WordsFault> {
    let words = words_of(alloc, line, [].as_slice())?;
    read_words(alloc, words.as_slice())
}

// The options that a line gives, if its job is `run`.
fn options_of(alloc: Global, line: &str) -> Result<Option<RunArguments>, WordsFault> {
    match job_of(alloc, line)? {
        Job::Run(options) => Ok(Some(options)),
        Job::Replay { .. } => Ok(None),
    }
}

#[test]
fn rounds_are_1_where_they_are_not_given(rt: HostRuntime) -> Result<(), WordsFault> {
    for (line, rounds) in [
        ("run --every 5 x", 1),
        ("run --every 5 --rounds 1000 x", 1_000),
        ("run x --rounds=1 --every=5", 1),
    ] {
        let found = options_of(rt.alloc(), line)?.map(|options| options.rounds);
        same_at(&rt, found, Some(rounds), line);
    }
    Ok(())
}

#[test]
fn paths_are_opened_again_only_where_it_is_asked(rt: HostRuntime) -> Result<(), WordsFault> {
    for (line, is_asked) in [
        ("run --every 5 x", false),
        ("run --every 5 --rounds 2 x", false),
        ("run --every 5 -- x --reopen", false),
        ("run --reopen --every 5 x", true),
        ("run --every 5 x --reopen", true),
        ("run --every 5 --reopen --record f x y", true),
    ] {
        let found = options_of(rt.alloc(), line)?.map(|options| options.reopens);
        same_at(&rt, found, Some(is_asked), line);
    }
    Ok(())
}

#[test]
fn ticks_are_only_where_they_are_given(rt: HostRuntime) -> Result<(), WordsFault> {
    for (line, every, tick) in [
        ("run --every 5 x", 5, None),
        ("run --tick 1 --every 3600000 x", 3_600_000, Some(1)),
        ("run x --every=7 --tick=60000", 7, Some(60_000)),
        ("run --every 5 -- x --tick 6", 5, None),
    ] {
        let found = options_of(rt.alloc(), line)?.map(|options| options.pace);
        same_at(&rt, found, Some(Pace { every, tick }), line);
    }
    Ok(())
}

#[test]
fn paths_are_watched_only_where_it_is_asked(rt: HostRuntime) -> Result<(), WordsFault> {
    for (line, watch) in [
        ("run --every 5 x", None),
        ("run --every 5 -- x --watch 60", None),
        ("run --watch 1 --every 5 x", Some(1)),
        ("run x --tick 5 --every=7 --watch=86400", Some(86_400)),
    ] {
        let found = options_of(rt.alloc(), line)?.map(|options| options.watch);
        same_at(&rt, found, Some(watch), line);
    }
    Ok(())
}

#[test]
fn tables_are_text_where_no_format_is_given(rt: HostRuntime) -> Result<(), WordsFault> {
    for (line, format) in [
        ("replay", TableFormat::Text),
        ("replay --format text", TableFormat::Text),
        ("replay --format=json", TableFormat::Json),
        ("run --every 5 x", TableFormat::Text),
        ("run --every 5 --format text x", TableFormat::Text),
        ("run x --format json --every 5", TableFormat::Json),
        ("run --every 5 -- x --format json", TableFormat::Text),
    ] {
        let found = match job_of(rt.alloc(), line)? {
            Job::Run(options) => options.format,
            Job::Replay { format, .. } => format,
        };
        same_at(&rt, found, format, line);
    }
    Ok(())
}

#[test]
fn the_clock_begins_at_the_start_where_no_other_is_given(
    rt: HostRuntime,
) -> Result<(), WordsFault> {
    for (line, clock) in [
        ("run --every 5 x", ClockOrigin::Start),
        ("run --every 5 -- x --clock unix", ClockOrigin::Start),
        ("run --clock start --every 5 x", ClockOrigin::Start),
        ("run x --clock=unix --every 5", ClockOrigin::Unix),
    ] {
        let found = options_of(rt.alloc(), line)?.map(|options| options.clock);
        same_at(&rt, found, Some(clock), line);
    }
    Ok(())
}

#[test]
fn record_is_the_file_that_is_given(rt: HostRuntime) -> Result<(), WordsFault> {
    for (line, file) in [
        ("run --every 5 x", None),
        ("run --every 5 -- x --record f", None),
        ("run --record f --every 5 x", Some("f")),
        ("run --every 5 --record f x y", Some("f")),
        ("run --every 5 x y --record f", Some("f")),
        ("run --every 5 x --record=f", Some("f")),
        ("run --every 5 x --record=--every", Some("--every")),
    ] {
        let is_found = match options_of(rt.alloc(), line)? {
            Some(options) => options.record.as_deref() == file,
            None => false,
        };
        holds_at(&rt, is_found, line);
    }
    Ok(())
}

#[test]
fn stop_is_the_pipe_that_is_given(rt: HostRuntime) -> Result<(), WordsFault> {
    for (line, pipe) in [
        ("run --every 5 x", None),
        ("run --every 5 --record f --json d x", None),
        ("run --every 5 -- x --stop p", None),
        ("run --stop p --record f --every 5 x", Some("p")),
        ("run --every 5 x --reopen --stop=--every", Some("--every")),
    ] {
        let is_found = match options_of(rt.alloc(), line)? {
            Some(options) => options.stop.as_deref() == pipe,
            None => false,
        };
        holds_at(&rt, is_found, line);
    }
    Ok(())
}

// The call with one standard error, which two threads may hold.
#[test]
fn a_status_is_that_of_the_words(rt: HostRuntime) -> Result<(), AllocError> {
    let (alloc, err) = (rt.alloc(), rt.stderr());
    for (line, version) in [("--version", "groundstation 1.0.0\n"), ("replay", "")] {
        let words = words_of(alloc, line, [].as_slice())?;
        let words = words.as_slice();
        let mut out = Vec::new(alloc);
        let status = program(&rt, rt, alloc, words, NO_LINES, &mut out, err);
        same_at(&rt, text(&out), version, line);
        same_at(&rt, status, 0, line);
    }
    Ok(())
}
