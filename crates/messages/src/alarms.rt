//! Where a job reports at once what can't wait for its end.

/// Standard errors for what is reported at once, each used by one thread at a time.
#[derive(Drop)]
pub struct Alarms<A> {
    /// For a failed write of the output, where the job goes on without it.
    pub output: A,
    /// For an output that nobody reads, and one that is read again.
    pub stalls: A,
    /// For a failed write of the record.
    pub record: A,
    /// For a failed write for displays.
    pub displays: A,
    /// For a full journal or a full table.
    pub limits: A,
    /// For a change of a path that is watched.
    pub paths: A,
}
