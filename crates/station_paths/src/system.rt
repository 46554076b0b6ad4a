//! What the program needs of the system that it runs on.
use crate::path_host::PathHost;
use std::alloc::Global;
use std::fs::File;
use std::rt::Files;
use std::sync::Wait;
use std::thread::Threads;
use std::time::Clock;

/// What a run needs: threads, waiting, the clock and files.
pub trait System: Threads + Wait + Clock + Files<File = File, Dir: Send> + Sync {}

impl<R: Threads + Wait + Clock + Files<File = File, Dir: Send> + Sync> System for R {}

/// What the threads that read paths have of the system, each for itself.
pub trait PathSystem: Wait + Clock + PathHost + Copy + Send + 'static {}

impl<W: Wait + Clock + PathHost + Copy + Send + 'static> PathSystem for W {}

/// The system that a job runs on.
#[derive(Drop)]
pub struct Host<'a, R, W> {
    /// Threads, waiting, the clock and files.
    pub rt: &'a R,
    /// What the threads that read paths have of it.
    pub own: W,
    /// The memory.
    pub alloc: Global,
}
