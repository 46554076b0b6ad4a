//! How receivers wait for the lock of a station.

use std::sync::atomic::AtomicU64;
use std::sync::atomic::Ordering::SeqCst;
use std::sync::{Mutex, MutexGuard, Wait};
use std::time::Duration;

// The longest sleep, in microseconds. Where a thread sleeps for longer, its processor of a virtual machine sleeps too. Then the
// system may wake the thread on the processor of the one that wakes it, where the two take turns.
const SLEEP_US: u64 = 100;

// After as many sleeps it waits for the lock alone.
const MOST_SLEEPS: u32 = 4096;

/// How often receivers have freed the lock.
#[derive(Drop)]
pub(crate) struct Releases {
    freed: AtomicU64,
}

impl Releases {
    pub(crate) fn new() -> Self {
        Releases {
            freed: AtomicU64::new(0),
        }
    }

    // Takes the lock. While another has it, it sleeps until a receiver has freed it, but never for long.
    pub(crate) fn lock<'a, R: Wait, T>(&self, rt: &R, locked: &'a Mutex<T>) -> MutexGuard<'a, T> {
        for _sleep in 0..MOST_SLEEPS {
            let freed = self.freed.load(SeqCst);
            if let Some(guard) = locked.try_lock() {
                return guard;
            }
            self.freed.park_timeout(
                rt,
                (freed & 0xffff_ffff) as u32,
                Duration::from_micros(SLEEP_US),
            );
        }
        locked.lock(rt)
    }

    // Frees the lock, and wakes one that waits for it.
    pub(crate) fn free<T>(&self, guard: MutexGuard<'_, T>) {
        MutexGuard::unlock(guard);
        self.freed.fetch_add(1, SeqCst);
        self.freed.wake_one();
    }
}
