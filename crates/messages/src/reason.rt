//! Why a file couldn't be opened or written.
ghost use Rattle.std.specs.Prelude.{◌≡◌};
ghost use Rattle.std.specs.IoError.{error_kind, raw_os_error};
ghost use Rattle.messages.specs.Reasons.{reason_of, reason_words, system_words};

use std::fmt::{self, Display, Formatter};
use std::io::{self, ErrorKind};

// The system's number of an error of a device, which has no kind of its own.
const INPUT_OUTPUT: i32 = 5;

/// Why a file couldn't be opened or written. Its text is in brackets, behind a space, and empty where no reason is known.
#[derive(Clone, Copy, Debug, PartialEq, Eq)]
pub enum Reason {
    /// The file has bytes already.
    HasBytes,
    /// An allocation of the program was refused.
    NoMemory,
    /// An error of the device.
    InputOutput,
    /// Another error of the system, by its kind.
    System(ErrorKind),
    /// None is known.
    Unknown,
}

impl Reason {
    /// The reason that an error gives.
    pub fn of(error: &io::Error) -> Reason
        ensures { result ≡ reason_of (raw_os_error error.now) (error_kind error.now) }
    {
        match error.raw_os_error() {
            Some(code) if code == INPUT_OUTPUT => Reason::InputOutput,
            _ => Reason::System(error.kind()),
        }
    }

    // The words of the reason. There are none where it isn't known.
    fn words(self) -> &'static str
        ensures { result.now ≡ reason_words self }
    {
        match self {
            Reason::HasBytes => "it has bytes",
            Reason::NoMemory => "no memory",
            Reason::InputOutput => "input/output error",
            Reason::System(kind) => system_words(kind),
            Reason::Unknown => "",
        }
    }
}

// The words of the C library for the errors of such a kind that a file can give, in lower case.
fn system_words(kind: ErrorKind) -> &'static str
    ensures { result.now ≡ system_words kind }
{
    match kind {
        ErrorKind::NotFound => "no such file or directory",
        ErrorKind::PermissionDenied => "permission denied",
        ErrorKind::AlreadyExists => "file exists",
        ErrorKind::NotADirectory => "not a directory",
        ErrorKind::IsADirectory => "is a directory",
        ErrorKind::DirectoryNotEmpty => "directory not empty",
        ErrorKind::ReadOnlyFilesystem => "read-only file system",
        ErrorKind::FilesystemLoop => "too many levels of symbolic links",
        ErrorKind::InvalidFilename => "file name too long",
        ErrorKind::InvalidInput => "invalid argument",
        ErrorKind::StorageFull => "no space left on device",
        ErrorKind::QuotaExceeded => "disk quota exceeded",
        ErrorKind::FileTooLarge => "file too large",
        ErrorKind::ResourceBusy => "device or resource busy",
        ErrorKind::ExecutableFileBusy => "text file busy",
        ErrorKind::BrokenPipe => "broken pipe",
        ErrorKind::StaleNetworkFileHandle => "stale file handle",
        ErrorKind::OutOfMemory => "cannot allocate memory",
        _ => "",
    }
}

impl Display for Reason {
    ghost use Rattle.std.specs.Prelude.{Some};
    ghost use Rattle.messages.specs.Reasons.{reason_text};

    ghost output = { λ reason. Some (reason_text reason) };

    fn fmt<W: fmt::Write>(&self, f: &mut Formatter<W>) -> fmt::Result {
        let words = self.words();
        if words.is_empty() {
            return Ok(());
        }
        write!(f, " ({words})")
    }
}
