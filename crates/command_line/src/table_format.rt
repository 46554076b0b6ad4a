//! The format that the arguments ask for.
ghost use Rattle.std.specs.Prelude.{◌≡◌, option_map};
ghost use Rattle.command_line.specs.Command.{format_named, format_since};

use station_report::Format;

/// How tables are written.
#[derive(Clone, Copy, Debug, PartialEq, Eq)]
pub enum TableFormat {
    /// Columns, a line for each aircraft.
    Text,
    /// A line of JSON.
    Json,
}

impl TableFormat {
    /// The format that a word of `--format` names, and columns where there is none.
    pub fn named(word: Option<&str>) -> TableFormat
        ensures { result ≡ format_named (option_map (λ w. w.now) word.entry) }
    {
        match word {
            Some(word) if word == "json" => TableFormat::Json,
            _ => TableFormat::Text,
        }
    }

    /// The same of tables whose clock begins at `origin`, in milliseconds since 1970.
    pub fn since(self, origin: u64) -> Format
        ensures { result ≡ format_since self origin }
    {
        match self {
            TableFormat::Text => Format::Text,
            TableFormat::Json => Format::Json { origin },
        }
    }
}
