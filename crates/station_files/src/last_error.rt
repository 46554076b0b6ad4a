//! Why a write of a file failed, kept for whoever reports it.

use messages::Reason;
use std::alloc::{AllocError, Global};
use std::io;
use std::sync::Arc;
use std::sync::atomic::{AtomicI32, Ordering};

/// One of two handles of the system's last error: a file keeps its number, and the other handle gives the reason.
#[derive(Drop)]
pub struct LastError {
    // 0 where no error of the system was kept.
    number: Arc<AtomicI32, Global>,
}

impl LastError {
    /// Two handles of one error, as yet none. Refused if out of memory.
    pub fn new(alloc: Global) -> Result<(LastError, LastError), AllocError> {
        let kept = Arc::new(alloc, AtomicI32::new(0))?;
        let reported = kept.clone()?;
        Ok((LastError { number: kept }, LastError { number: reported }))
    }

    /// Keeps an error in place of the one before.
    pub fn keep(&self, error: &io::Error) {
        let number = error.raw_os_error().unwrap_or(0);
        self.number.store(number, Ordering::SeqCst);
    }

    /// The reason that the error gives.
    pub fn reason(&self) -> Reason {
        match self.number.load(Ordering::SeqCst) {
            0 => Reason::Unknown,
            number => Reason::of(&io::Error::from_raw_os_error(number)),
        }
    }
}
