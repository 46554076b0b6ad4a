//! Command lines that are refused.
use crate::comparing::{holds_at, same_at};
use crate::trials::{Host, Trials};
use std::alloc::AllocError;
use test_support::{NO_LINES, Own, text};

// `clap` accepts the words, and the program refuses them.
const BOTH: &str = "error: the argument '--reopen' cannot be used with '--rounds <R>'\n";

impl<R: Host, W: Own> Trials<'_, R, W> {
    // Ends the test unless the program refuses each of these lines by this text. All end in the same way.
    fn refuses(&self, lines: &[(&str, &str)]) -> Result<(), AllocError> {
        for &(line, told) in lines {
            let refused = self.rig.ask(line, NO_LINES)?;
            holds_at(self.rt, refused.status == 2 && refused.out.is_empty(), line);
            let end = text(&refused.err).strip_prefix(told);
            let help = Some("\nFor more information, try '--help'.\n");
            same_at(self.rt, end, help, line);
        }
        Ok(())
    }
}

#[test]
fn unknown_words_are_refused(rt: HostRuntime) -> Result<(), AllocError> {
    let lines = [
        (
            "",
            concat!(
                "error: 'groundstation' requires a subcommand but one was not provided\n",
                "  [subcommands: replay, run, help]\n\n",
                "Usage: groundstation <COMMAND>\n",
            ),
        ),
        (
            "fly",
            "error: unrecognized subcommand 'fly'\n\n\
            Usage: groundstation <COMMAND>\n",
        ),
        (
            "replay --reopen",
            "error: unexpected argument '--reopen' found\n\n\
            Usage: groundstation replay [OPTIONS]\n",
        ),
    ];
    Trials::on(&rt).refuses(lines.as_slice())
}

#[test]
fn bad_values_are_refused(rt: HostRuntime) -> Result<(), AllocError> {
    let lines = [
        (
            "run --every 0 x",
            "error: invalid value '0' for '--every <MS>': 0 is not in 1..=3600000\n",
        ),
        (
            "run --every 5 --rounds 0 x",
            "error: invalid value '0' for '--rounds <R>': 0 is not in 1..=1000\n",
        ),
        (
            "run --every 5 --rounds 1001 x",
            "error: invalid value '1001' for '--rounds <R>': 1001 is not in 1..=1000\n",
        ),
        (
            "run --every 5 --rounds x x",
            "error: invalid value 'x' for '--rounds <R>': invalid digit found in string\n",
        ),
        (
            "run --every 5 --tick 0 x",
            "error: invalid value '0' for '--tick <MS>': 0 is not in 1..=60000\n",
        ),
        (
            "run --every 5 --tick 60001 x",
            "error: invalid value '60001' for '--tick <MS>': 60001 is not in 1..=60000\n",
        ),
        (
            "replay --format xml",
            "error: invalid value 'xml' for '--format <FORMAT>'\n  [possible values: text, json]\n",
        ),
        (
            "run --every 5 --clock utc x",
            "error: invalid value 'utc' for '--clock <CLOCK>'\n  [possible values: start, unix]\n",
        ),
        (
            "run --every 5 --format JSON x",
            "error: invalid value 'JSON' for '--format <FORMAT>'\n  [possible values: text, json]\n",
        ),
    ];
    Trials::on(&rt).refuses(lines.as_slice())
}

#[test]
fn a_watch_is_given_once_of_at_most_a_day(rt: HostRuntime) -> Result<(), AllocError> {
    let lines = [
        (
            "run --every 5 --watch 0 x",
            "error: invalid value '0' for '--watch <S>': 0 is not in 1..=86400\n",
        ),
        (
            "run --every 5 --watch 86401 x",
            "error: invalid value '86401' for '--watch <S>': 86401 is not in 1..=86400\n",
        ),
        (
            "run --every 5 --watch x x",
            "error: invalid value 'x' for '--watch <S>': invalid digit found in string\n",
        ),
        (
            "run --every 5 --watch 5 --watch 5 x",
            "error: the argument '--watch <S>' cannot be used multiple times\n\n\
            Usage: groundstation run [OPTIONS] --every <MS> <PATH>...\n",
        ),
    ];
    Trials::on(&rt).refuses(lines.as_slice())
}

#[test]
fn badly_given_options_are_refused(rt: HostRuntime) -> Result<(), AllocError> {
    let lines = [
        (
            "run --every 5 --record f --record g x",
            "error: the argument '--record <FILE>' cannot be used multiple times\n\n\
            Usage: groundstation run [OPTIONS] --every <MS> <PATH>...\n",
        ),
        (
            "run --every 5 x --record",
            "error: a value is required for '--record <FILE>' but none was supplied\n",
        ),
        (
            "run --every 5 --record= x",
            "error: a value is required for '--record <FILE>' but none was supplied\n",
        ),
        (
            "run --every 5 --json= x",
            "error: a value is required for '--json <DIR>' but none was supplied\n",
        ),
        (
            "run --every 5 --stop= x",
            "error: a value is required for '--stop <PIPE>' but none was supplied\n",
        ),
        (
            "run --every 5 --stop p --stop p x",
            "error: the argument '--stop <PIPE>' cannot be used multiple times\n\n\
            Usage: groundstation run [OPTIONS] --every <MS> <PATH>...\n",
        ),
        (
            "run --every 5 --reopen=true x",
            "error: unexpected value 'true' for '--reopen' found; no more were expected\n\n\
            Usage: groundstation run --every <MS> --reopen <PATH>...\n",
        ),
        (
            "run --every 5 --reopen --reopen x",
            "error: the argument '--reopen' cannot be used multiple times\n\n\
            Usage: groundstation run [OPTIONS] --every <MS> <PATH>...\n",
        ),
        ("run --every 5 --reopen --rounds 2 x", BOTH),
        ("run --rounds=1 --every 5 x --reopen", BOTH),
    ];
    Trials::on(&rt).refuses(lines.as_slice())
}
