//! A file in a folder that displays read.
ghost use Rattle.std.specs.Prelude.{◌≡◌, IfOk};
ghost use Rattle.std.specs.String.{string_bytes};
ghost use Rattle.station_files.specs.Displays.{in_folder};

use messages::Reason;
use std::alloc::{AllocError, Global};
use std::fs::{self, File, Permissions};
use std::io::Write;
use std::os::unix::fs::PermissionsExt;
use std::rt::Files;

// Who may read a file for displays, whatever the mask of the process: all. Its owner may write it.
const READABLE: u32 = 0o644;

/// A file that displays read whenever they like, so it is written beside itself and then renamed.
#[derive(Drop)]
pub(crate) struct ShownFile {
    pub path: String,
    beside: String,
}

impl ShownFile {
    // The file with this name in a folder.
    pub(crate) fn at(alloc: Global, folder: &str, name: &str) -> Result<Self, AllocError>
        ensures { IfOk result (λ file. string_bytes file.path ≡ in_folder folder.now name.now) }
    {
        Ok(ShownFile {
            path: file_in(alloc, folder, name)?,
            beside: format!(in alloc; "{folder}/{name}.new")?,
        })
    }

    // Writes this text to it.
    pub(crate) fn replace<R: Files<File = File>>(&self, rt: &R, text: &[u8]) -> Result<(), Reason> {
        let beside = self.beside.as_str();
        write_readable(rt, beside, text)?;
        fs::rename(rt, beside, self.path.as_str()).map_err(|error| Reason::of(&error))
    }
}

// Writes a file that all may read. Where its mode can't be set, as that of another's file, it stays as it is.
pub(crate) fn write_readable<R: Files<File = File>>(
    rt: &R,
    path: &str,
    text: &[u8],
) -> Result<(), Reason> {
    let mut file = File::create(rt, path).map_err(|error| Reason::of(&error))?;
    let _ = file.set_permissions(Permissions::from_mode(READABLE));
    file.write_all(text).map_err(|error| Reason::of(&error))
}

// The path of a file in a folder.
pub(crate) fn file_in(alloc: Global, folder: &str, name: &str) -> Result<String, AllocError>
    ensures { IfOk result (λ path. string_bytes path ≡ in_folder folder.now name.now) }
{
    format!(in alloc; "{folder}/{name}")
}
