//! A runtime whose clock shows a test's times.
use std::alloc::Allocator;
use std::fs::{File, Metadata, OpenOptions};
use std::io;
use std::rt::Files;
use std::sync::Wait;
use std::sync::atomic::{AtomicBool, AtomicUsize, Ordering};
use std::thread::Threads;
use std::time::{Clock, Duration};

/// A runtime whose clock shows one time after another, in milliseconds: each reading shows the next. The last one
/// repeats, and the reading after it sets `has_ended`. `hold_at` stops the clock earlier. The time since 1970 is always
/// 1,700,000,000,000 ms.
#[derive(Drop)]
pub struct Staged<'a, R> {
    rt: &'a R,
    moments: &'a [u64],
    // How many times it may show.
    most: AtomicUsize,
    // Which one comes next.
    next: AtomicUsize,
    /// Set once the last time has repeated.
    pub has_ended: AtomicBool,
}

impl<'a, R> Staged<'a, R> {
    /// A clock that shows these times.
    pub fn new(rt: &'a R, moments: &'a [u64]) -> Staged<'a, R> {
        Staged {
            rt,
            moments,
            most: AtomicUsize::new(moments.len()),
            next: AtomicUsize::new(0),
            has_ended: AtomicBool::new(false),
        }
    }

    /// Stops the clock at the last of `most` times, 1 at least. It goes on from where it was stopped before.
    pub fn hold_at(&self, most: usize) {
        let next = self.next.load(Ordering::SeqCst);
        let held = self.most.load(Ordering::SeqCst);
        self.next.store(next.min(held), Ordering::SeqCst);
        self.most.store(most, Ordering::SeqCst);
    }

    /// How often it was read, if it was never stopped.
    pub fn readings(&self) -> usize {
        self.next.load(Ordering::SeqCst)
    }
}

impl<'a, R: Threads> Threads for Staged<'a, R> {}

impl<'a, R: Wait> Wait for Staged<'a, R> {}

impl<'a, R: Clock> Clock for Staged<'a, R> {
    fn monotonic(&self) -> io::Result<Duration> {
        let most = self.most.load(Ordering::SeqCst);
        let next = self.next.fetch_add(1, Ordering::SeqCst);
        if next >= most {
            self.has_ended.store(true, Ordering::SeqCst);
        }
        let shown = self.moments.get(next.min(most.saturating_sub(1)));
        let last = self.moments.last();
        Ok(Duration::from_millis(*shown.or(last).unwrap_or(&0)))
    }

    fn since_1970(&self) -> io::Result<Duration> {
        Ok(Duration::from_millis(1_700_000_000_000))
    }

    fn sleep(&self, duration: Duration) {
        self.rt.sleep(duration);
    }
}

impl<'a, R: Files<File = File>> Files for Staged<'a, R> {
    type File = File;

    type Dir = R::Dir;

    fn open_file(&self, how: &OpenOptions, path: &str) -> io::Result<File> {
        self.rt.open_file(how, path)
    }

    fn open_dir(&self, path: &str) -> io::Result<R::Dir> {
        self.rt.open_dir(path)
    }

    fn metadata(&self, path: &str) -> io::Result<Metadata> {
        self.rt.metadata(path)
    }

    fn symlink_metadata(&self, path: &str) -> io::Result<Metadata> {
        self.rt.symlink_metadata(path)
    }

    fn copy(&self, from: &str, to: &str) -> io::Result<u64> {
        self.rt.copy(from, to)
    }

    fn rename(&self, from: &str, to: &str) -> io::Result<()> {
        self.rt.rename(from, to)
    }

    fn remove_file(&self, path: &str) -> io::Result<()> {
        self.rt.remove_file(path)
    }

    fn create_dir(&self, path: &str) -> io::Result<()> {
        self.rt.create_dir(path)
    }

    fn remove_dir(&self, path: &str) -> io::Result<()> {
        self.rt.remove_dir(path)
    }

    fn remove_dir_all<B: Allocator>(&self, alloc: B, path: &str) -> io::Result<()> {
        self.rt.remove_dir_all(alloc, path)
    }
}
