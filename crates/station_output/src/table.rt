//! A table that waits for the output.
ghost use Rattle.std.specs.Prelude.{◌≡◌, [], IfOk};

use std::alloc::{AllocError, Global};

/// The text of a table.
#[derive(Drop)]
pub struct Table {
    pub text: Vec<u8>,
}

impl Table {
    /// No text, and room for this many bytes.
    pub(crate) fn with_room(alloc: Global, bytes: usize) -> Result<Table, AllocError> {
        let text = Vec::with_capacity(alloc, bytes)?;
        Ok(Table { text })
    }
}
