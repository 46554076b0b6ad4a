//! The words that the program gets, and what it leaves.
use std::alloc::{AllocError, Global};

/// What the program leaves: its status, its output, standard error, and what it reports at once.
#[derive(Drop)]
pub struct Ran {
    pub status: u8,
    pub out: Vec<u8>,
    pub err: Vec<u8>,
    pub output_alarm: Vec<u8>,
    pub stall_alarm: Vec<u8>,
    pub record_alarm: Vec<u8>,
    pub display_alarm: Vec<u8>,
    pub limit_alarm: Vec<u8>,
    pub path_alarm: Vec<u8>,
}

impl Ran {
    /// Nothing so far.
    pub fn nothing(alloc: Global) -> Ran {
        Ran {
            status: 0,
            out: Vec::new(alloc),
            err: Vec::new(alloc),
            output_alarm: Vec::new(alloc),
            stall_alarm: Vec::new(alloc),
            record_alarm: Vec::new(alloc),
            display_alarm: Vec::new(alloc),
            limit_alarm: Vec::new(alloc),
            path_alarm: Vec::new(alloc),
        }
    }
}

/// A stream whose first 2,048 bytes take no memory. Where an allocation is refused, it is made once more.
pub fn stream(alloc: Global) -> Result<Vec<u8>, AllocError> {
    Vec::with_capacity(alloc, 2_048).or_else(|_| Vec::with_capacity(alloc, 2_048))
}

/// The program's name, the words of a line, and these paths.
pub fn words_of<'a>(
    alloc: Global,
    line: &'a str,
    paths: &[&'a str],
) -> Result<Vec<&'a str>, AllocError> {
    let mut words = Vec::new(alloc);
    words.push("groundstation")?;
    for word in line.split_whitespace() {
        words.push(word)?;
    }
    words.extend_from_slice(paths)?;
    Ok(words)
}

/// The text of these bytes, or no text if they aren't UTF-8.
pub fn text(bytes: &Vec<u8>) -> &str {
    std::str::from_utf8(bytes.as_slice()).unwrap_or("")
}
