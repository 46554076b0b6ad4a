//! Files in a folder of their own. What is refused is done once more.
use crate::bounds::{FileHost, Own};
use crate::ran::Ran;
use crate::rig::Rig;
use crate::staged::Staged;
use crate::texts::EVERY_HOUR;
use std::io::ErrorKind;
use std::test::*;
use std::{env, fs, io};

/// Two files in a folder of their own, by their paths.
#[derive(Drop)]
pub struct TwoFiles {
    pub folder: String,
    pub first: String,
    pub second: String,
}

impl TwoFiles {
    /// Their paths, in order.
    pub fn paths(&self) -> [&str; 2] {
        [self.first.as_str(), self.second.as_str()]
    }
}

impl<R: FileHost, W: Own> Rig<'_, R, W> {
    fn try_new_folder(&self) -> io::Result<String> {
        let base = env::temp_dir(self.rt)?;
        for i in 0..10_000u32 {
            let folder = format!(in self.alloc; "{}/groundstation_{i}", base.as_str())?;
            if fs::create_dir(self.rt, folder.as_str()).is_ok() {
                return Ok(folder);
            }
        }
        Err(io::Error::from(ErrorKind::AlreadyExists))
    }

    /// Makes a folder that wasn't there, and answers its path.
    pub fn new_folder(&self) -> io::Result<String> {
        self.try_new_folder().or_else(|_| self.try_new_folder())
    }

    fn try_put(&self, folder: &String, name: &str, text: &str) -> io::Result<String> {
        let path = format!(in self.alloc; "{folder}/{name}")?;
        fs::write(self.rt, path.as_str(), text)?;
        Ok(path)
    }

    /// Writes a file into a folder, and answers its path.
    pub fn put(&self, folder: &String, name: &str, text: &str) -> io::Result<String> {
        self.try_put(folder, name, text)
            .or_else(|_| self.try_put(folder, name, text))
    }

    /// Writes two files into a folder of their own.
    pub fn two_files(&self, first_text: &str, second_text: &str) -> io::Result<TwoFiles> {
        let folder = self.new_folder()?;
        let first = self.put(&folder, "first", first_text)?;
        let second = self.put(&folder, "second", second_text)?;
        Ok(TwoFiles {
            folder,
            first,
            second,
        })
    }

    /// Removes a folder with all in it.
    pub fn remove(&self, folder: &String) -> Result<(), Fail> {
        let path = folder.as_str();
        fs::remove_dir_all(self.rt, path).or_else(|_| fs::remove_dir_all(self.rt, path))?;
        Ok(())
    }

    /// Runs over the two files beside a clock that stands still.
    pub fn run_still(&self, files: &TwoFiles, options: &str) -> Result<Ran, Fail> {
        let staged = Staged::new(self.rt, [1_000_000].as_slice());
        let line = format!(in self.alloc; "{EVERY_HOUR} {options}")?;
        let rig = self.over(&staged);
        Ok(rig.run(line.as_str(), files.paths().as_slice())?)
    }

    /// The bytes of a file, and what `replay` prints of them.
    pub fn shown_again(&self, record: &str) -> Result<(Vec<u8>, Vec<u8>), Fail> {
        let lines = fs::read(self.rt, record)?;
        let shown = self.ask("replay", lines.as_slice())?;
        Ok((lines, shown.out))
    }
}
