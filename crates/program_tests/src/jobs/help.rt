//! Command lines that ask for help or the version.
use crate::comparing::{holds_at, same_at};
use crate::trials::Trials;
use std::alloc::AllocError;
use test_support::{NO_LINES, text};

// The lines for which help is asked fit a terminal of 80 columns.
fn is_narrow(text: &str) -> bool {
    text.split('\n').all(|line| line.len() <= 80)
}

const HELP: &str = concat!(
    "Decodes Mode S frames and keeps a table of aircraft\n\n",
    "Usage: groundstation <COMMAND>\n\n",
    "Commands:\n",
    "  replay  Reads standard input, and writes the table at each line that is ?\n",
    "  run     Reads 1 to 8 paths side by side, and writes one table every MS\n",
    "  help    Print this message or the help of the given subcommand(s)\n\n",
    "Options:\n",
    "  -h, --help     Print help\n",
    "  -V, --version  Print version\n\n",
    "Examples:\n",
    "  groundstation replay < examples/klm1023.avr\n",
    "  groundstation run --every 1000 <(nc -w 130 127.0.0.1 30002 < /dev/null)\n\n",
    "'groundstation help run' says more. The formats of lines and tables are in\n",
    "docs/FORMATS.md; columns, counts and faults in docs/USING.md.\n",
);

const RUN_HELP: &str = concat!(
    "Reads 1 to 8 paths side by side, and writes one table every MS\n\n",
    "Usage: groundstation run [OPTIONS] --every <MS> <PATH>...\n\n",
    "Arguments:\n",
    "  <PATH>...  1 to 8 files or named pipes, each read by a receiver of its own\n\n",
    "Options:\n",
    "      --every <MS>       Milliseconds from one table to the next, 1 to 3600000\n",
    "      --tick <MS>        Milliseconds between ticks without a table, 1 to 60000\n",
    "      --watch <S>        Report paths without frames for S seconds, 1 to 86400\n",
    "      --clock <CLOCK>    Beginning of the clock [possible values: start, unix]\n",
    "      --format <FORMAT>  How tables are written [possible values: text, json]\n",
    "      --json <DIR>       Folder for each table as aircraft.json, for displays\n",
    "      --rounds <R>       How often to read the paths, 1 to 1000 [default: 1]\n",
    "      --reopen           Open each path again 1 s after it ended or failed\n",
    "      --stop <PIPE>      Named pipe that ends the run once it is written to\n",
    "      --record <FILE>    File to record the run to, for replay\n",
    "      --at <LAT,LON>     Place of the receivers, for aircraft on the ground\n",
    "  -h, --help             Print help\n\n",
    "Lines of a path, one of each kind:\n",
);

const REPLAY_HELP: &str = "Reads standard input, and writes the table at each line that is ?\n\n";

const REPLAY_HELP_END: &str = concat!(
    "\nAt a + line, once there are 12582912 accepted frames and + lines, those that\n",
    "are more than 70 s old are forgotten. There is room for 16777216. When it is\n",
    "full, all that comes is refused, and 'now' stands still.\n",
    "With --at aircraft on the ground have positions too. LAT and LON are the place\n",
    "of the receivers in degrees, right to some 100 km. A latitude of the south needs\n",
    "the = sign: --at=-33.9,151.2\n",
    "Formats: docs/FORMATS.md.\n",
);

const RUN_HELP_END: &str = concat!(
    "\nOnce there are 12582912 accepted frames and ticks, those that are more than\n",
    "70 s old are forgotten. There is room for 16777216. When it is full, all that\n",
    "comes is refused, and 'now' stands still.\n",
    "Formats: docs/FORMATS.md. Receivers that drop: docs/USING.md.\n",
);

// How the text of each begins and ends. An empty end says that nothing follows.
#[test]
fn help_is_written_to_standard_output(rt: HostRuntime) -> Result<(), AllocError> {
    for (line, front, end) in [
        ("--help", HELP, ""),
        ("run --help", RUN_HELP, RUN_HELP_END),
        ("replay -h", REPLAY_HELP, REPLAY_HELP_END),
    ] {
        let help = Trials::on(&rt).rig.ask(line, NO_LINES)?;
        let shown = text(&help.out);
        let is_help = help.status == 0 && help.err.is_empty() && is_narrow(shown);
        holds_at(&rt, is_help, line);
        let rest = shown.strip_prefix(front).unwrap_or("no such front");
        let is_end = rest.ends_with(end) && rest.is_empty() == end.is_empty();
        holds_at(&rt, is_end, line);
    }
    Ok(())
}

#[test]
fn the_version_is_written_to_standard_output(rt: HostRuntime) -> Result<(), AllocError> {
    for line in ["--version", "-V"] {
        let told = Trials::on(&rt).rig.ask(line, NO_LINES)?;
        same_at(&rt, text(&told.out), "groundstation 1.0.0\n", line);
        holds_at(&rt, told.err.is_empty() && told.status == 0, line);
    }
    Ok(())
}
