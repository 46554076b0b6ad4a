//! The bytes of several reads, gathered while they are at hand.
ghost use Rattle.std.specs.Prelude.{◌≡◌, ◌+◌, ◌<◌, ◌≤◌, ◌++◌, ℕ, List, [], length, IfOk, OnErr, is_ok, true};
ghost use Rattle.station_lines.specs.Drawing.{FailsOnce, Gathers, ReadsMore};
ghost use Rattle.station_lines.specs.Reads.{longest_piece};

use streams::{Failed, Source};

// The most bytes asked for by one read.
const READ: usize = 512;

/// The most bytes of a piece. It is on the stack of its thread, as taking lines allocates nothing.
pub const PIECE: usize = 16_384;

/// The bytes of one read, and of the reads after it that didn't wait.
#[derive(Drop)]
pub(crate) struct Piece {
    bytes: [u8; PIECE],
    count: usize,
    ghost within: { count ≤ longest_piece },
}

/// The reads that filled a piece.
#[derive(Clone, Copy, Debug, PartialEq, Eq)]
pub(crate) struct Gathered {
    /// How many reads were made.
    pub reads: u32,
    /// Whether the last of them found the end.
    pub is_over: bool,
}

impl Piece {
    ghost use Rattle.station_lines.specs.Piece.{piece_bytes};

    /// A piece of no bytes.
    pub(crate) fn new() -> Self {
        Piece {
            bytes: [0; PIECE],
            count: 0,
        }
    }

    /// Its bytes.
    pub(crate) fn as_slice(&self) -> &[u8]
        ensures value { result.now ≡ piece_bytes self.now }
        ensures few { length result.now ≤ longest_piece }
    {
        &self.bytes[..self.count]
    }

    // Whether there is room for one more read.
    fn has_room(&self) -> bool
        ensures { result ≡ true → self.now.count + 512 ≤ longest_piece }
    {
        self.count + READ <= PIECE
    }

    // Reads once, behind the bytes that it has. Answers how many bytes came.
    fn read_more<S: Source>(&mut self, from: &mut S) -> Result<usize, Failed>
        requires room { self.old.count + 512 ≤ longest_piece }
        ensures ok { IfOk result (λ n. ReadsMore (S.state from.old) (S.state from.new) (piece_bytes self.old) (piece_bytes self.new) n) }
        ensures err { OnErr result (FailsOnce (S.state from.old) (S.state from.new)) }
        ensures at_hand { (S.state from.old).at_hand ≡ true → is_ok result ≡ true }
    {
        let held = self.count;
        let count = from.read(&mut self.bytes[held..held + READ])?;
        self.count = held + count;
        Ok(count)
    }

    /// Reads up to 512 bytes, and again while bytes are at hand, turns are left and there is room.
    /// Only the first read can wait or fail.
    pub(crate) fn gather<S: Source>(&mut self, from: &mut S, turns: u32) -> Result<Gathered, Failed>
        requires { 0 < turns }
        ensures ok { IfOk result (λ g.
            Gathers (S.state from.old) (S.state from.new) turns (piece_bytes self.new) g.reads g.is_over) }
        ensures err { OnErr result (FailsOnce (S.state from.old) (S.state from.new)) }
        ensures at_hand { (S.state from.old).at_hand ≡ true → is_ok result ≡ true }
    {
        self.count = 0;
        let mut count = self.read_more(from)?;
        let mut reads = 1;
        while count > 0 && reads < turns && self.has_room() && from.is_at_hand() {
            let Ok(more) = self.read_more(from) else {
                unreachable!();
            };
            count = more;
            reads += 1;
        }
        Ok(Gathered {
            reads,
            is_over: count == 0,
        })
    }
}
