//! The blanks at the ends of a line.
ghost use Rattle.std.specs.Prelude.{◌≡◌, ◌≤◌, length};
ghost use Rattle.modes_frame.specs.Reading.{is_blank, front_trimmed, back_trimmed, trimmed_line};

/// The line without the spaces, tabs and carriage returns at its ends. All other bytes stay, also vertical tabs,
/// form feeds and line feeds.
pub fn trim_blanks(line: &[u8]) -> &[u8]
    ensures value { result.now ≡ trimmed_line line.now }
    ensures within { length result.now ≤ length line.now }
{
    without_back(without_front(line))
}

fn is_blank_byte(byte: u8) -> bool
    ensures { result ≡ is_blank byte }
{
    byte == b' ' || byte == b'\t' || byte == b'\r'
}

fn without_front(line: &[u8]) -> &[u8]
    ensures value { result.now ≡ front_trimmed line.now }
    ensures within { length result.now ≤ length line.now }
{
    let mut start = 0;
    while start < line.len() && is_blank_byte(line[start]) {
        start += 1;
    }
    &line[start..]
}

fn without_back(line: &[u8]) -> &[u8]
    ensures value { result.now ≡ back_trimmed line.now }
    ensures within { length result.now ≤ length line.now }
{
    let mut end = line.len();
    while end > 0 && is_blank_byte(line[end - 1]) {
        end -= 1;
    }
    &line[..end]
}
