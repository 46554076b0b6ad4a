//! What a reader's thread leaves, and what it promises of it.
ghost use Rattle.station_portions.specs.Whole.{SendsWhole};

use crate::message::{Message, PathEnd};
use crate::path_reader::PathReader;
use rtrb::Producer;
use std::io::Read;
use std::snapshot::Snapshot;
use std::thread::Promise;

/// A path that was read to its end, or to a read that failed.
#[derive(Drop)]
pub struct FinishedPath<I> {
    /// What gave the bytes of the path.
    pub from: I,
    /// How the reading ended.
    pub end: PathEnd,
    // The sending end of its ring, which shows all messages that were sent.
    pub(crate) messages: Producer<Message>,
}

/// The promise of a reader's thread: the lines that it sends are those of all bytes that it reads.
#[derive(Drop)]
pub struct WholePath<I> {
    pub(crate) from: Snapshot<I>,
    pub(crate) reader: Snapshot<PathReader>,
}

impl<I: Read> Promise<FinishedPath<I>> for WholePath<I> {
    ghost kept_by = { λ p r. SendsWhole (I.remaining p.from.value) (I.remaining r.from)
        p.reader.value.messages r.end r.messages };
}
