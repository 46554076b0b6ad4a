//! What takes lines one after another, and the loops that give it the lines of a source.
ghost use Rattle.std.specs.Prelude.{◌≡◌, ℕ, ◌+◌, ◌^◌, ◌<◌, ◌≤◌, ◌⊎◌, List, length, take, true, OnOk};
ghost use Rattle.std.specs.Option.{option_to_list};
ghost use Rattle.modes_frame.specs.Lines.{pending};
ghost use Rattle.station_lines.specs.Drawing.{TakesBytes, TakesEach, TakesLast, Taken, ended_by, ending_as, stopped_as};

use crate::parsed_line::ParsedLine;
use crate::piece::Piece;
use modes_frame::{CheckedFrame, Cut, Cutter};
use streams::Source;

/// Takes lines one after another, and counts them. It may keep lines, and takes those when it settles.
pub trait LineTaker {
    ghost use Rattle.std.specs.Prelude.{◌≡◌, ℕ, ◌+◌, ◌^◌, ◌<◌, ◌≤◌, Bool, List, [], ◌∷◌, ◌++◌, Result, Ok, OnOk};
    ghost use Rattle.modes_frame.specs.declared.cutter.Cut.{Cut};
    ghost use Rattle.station_lines.specs.ParsedLines.{parsed_of, read_as};

    /// Why no further line is taken.
    type Stop;

    /// Whether its lines are those of a replay, with ticks and questions, or of a receiver alone.
    ghost is_replay: { Bool };

    /// The state before some lines, these lines, whether one stopped it, and the state after them.
    ghost took: { Self → List Cut → Result (Unit {0}) Self.Stop → Self → Type 0 };

    /// It keeps no lines.
    ghost is_settled: { Self → Type 0 };

    /// How many lines it has counted, or keeps.
    ghost counted: { Self → ℕ };

    /// What one of its lines says, as it was cut.
    fn parse(cut: &Cut) -> ParsedLine
        ensures { result ≡ parsed_of (read_as is_replay cut.now) };

    /// Takes one line, as `parse` gave it.
    fn take_line(&mut self, line: &ParsedLine) -> Result<(), Self::Stop>
        requires room { counted self.old + 1 < 2 ^ 64 }
        ensures counted { counted self.new ≤ counted self.old + 1 }
        ensures taken { (cut : Cut) → line.now ≡ parsed_of (read_as is_replay cut) →
            took self.old (cut ∷ []) result self.new };

    /// Takes the lines that it keeps.
    fn settle(&mut self) -> Result<(), Self::Stop>
        requires room { counted self.old < 2 ^ 64 }
        ensures counted { counted self.new ≤ counted self.old }
        ensures settled { OnOk result (is_settled self.new) }
        ensures taken { took self.old [] result self.new };

    /// Where there are no lines, nothing changes.
    ghost none: { (x : Self) → took x [] (Ok tt) x };

    /// Taking some lines and then others takes them all, in order.
    ghost then: { (x y z : Self) (cs ds : List Cut) (r : Result (Unit {0}) Self.Stop)
        → took x cs (Ok tt) y → took y ds r z → took x (cs ++ ds) r z };
}

/// Why no further line was taken.
#[derive(Clone, Copy, Debug, PartialEq, Eq)]
pub enum Ended<E> {
    /// The source reached its end.
    AtEnd,
    /// A read failed.
    ReadFailed,
    /// All turns were used.
    TurnsOver,
    /// A line stopped it.
    Stopped(E),
}

// Takes the line that was cut, if there is one.
fn take_cut<T: LineTaker>(taker: &mut T, cut: Option<Cut>) -> Result<(), T::Stop>
    requires room { T.counted taker.old + 1 < 2 ^ 64 }
    ensures counted { T.counted taker.new ≤ T.counted taker.old + 1 }
    ensures taken { T.took taker.old (option_to_list cut) result taker.new }
{
    match cut {
        Some(cut) => taker.take_line(&T::parse(&cut)),
        None => Ok(()),
    }
}

// Takes the next line by the cutter, or only reads the bytes where they end none. Answers how many it read.
// Not inlined, so that a plain line doesn't clear the room of the cut line.
#[inline(never)]
fn take_other<T: LineTaker>(
    taker: &mut T,
    cutter: &mut Cutter,
    bytes: &[u8],
) -> (usize, Result<(), T::Stop>)
    requires room { T.counted taker.old + 1 < 2 ^ 64 }
    ensures within { result.0 ≤ length bytes.now }
    ensures some { 0 < length bytes.now → 0 < result.0 }
    ensures counted { T.counted taker.new ≤ T.counted taker.old + 1 }
    ensures taken { (before : List ℕ) → cutter.old ≡ pending before →
        TakesEach T.took before (take result.0 bytes.now) cutter.new taker.old taker.new result.1 }
{
    let (read, cut) = cutter.push_line(bytes);
    (read, take_cut(taker, cut))
}

// Takes the next line, a plain one in place, or only reads the bytes where they end none. Answers how many it read.
#[inline(always)]
fn take_next<T: LineTaker>(
    taker: &mut T,
    cutter: &mut Cutter,
    bytes: &[u8],
) -> (usize, Result<(), T::Stop>)
    requires room { T.counted taker.old + 1 < 2 ^ 64 }
    ensures within { result.0 ≤ length bytes.now }
    ensures some { 0 < length bytes.now → 0 < result.0 }
    ensures counted { T.counted taker.new ≤ T.counted taker.old + 1 }
    ensures taken { (before : List ℕ) → cutter.old ≡ pending before →
        TakesEach T.took before (take result.0 bytes.now) cutter.new taker.old taker.new result.1 }
{
    if let Some(plain) = cutter.plain_line(bytes) {
        let heard = CheckedFrame::of(plain.frame);
        return (plain.length, taker.take_line(&ParsedLine::Frame(heard)));
    }
    take_other(taker, cutter, bytes)
}

// Takes the lines that end in `bytes` one by one, up to one that stops it.
fn take_each<T: LineTaker>(taker: &mut T, cutter: &mut Cutter, bytes: &[u8]) -> Result<(), T::Stop>
    requires room { T.counted taker.old + length bytes.now < 2 ^ 64 }
    ensures counted { T.counted taker.new ≤ T.counted taker.old + length bytes.now }
    ensures taken { (before : List ℕ) → cutter.old ≡ pending before →
        TakesBytes T.took before bytes.now cutter.new taker.old taker.new result }
{
    let mut at = 0;
    while at < bytes.len() {
        let (read, taken) = take_next(taker, cutter, &bytes[at..]);
        at += read;
        match taken {
            Ok(()) => {}
            Err(stop) => return Err(stop),
        }
    }
    Ok(())
}

// Takes the lines that end in `bytes`, and those that it kept, unless further bytes are at hand and `left` turns for them.
fn take_piece<T: LineTaker, S: Source>(
    taker: &mut T,
    cutter: &mut Cutter,
    bytes: &[u8],
    from: &S,
    left: u32,
) -> Result<(), T::Stop>
    requires room { T.counted taker.old + length bytes.now < 2 ^ 64 }
    ensures counted { T.counted taker.new ≤ T.counted taker.old + length bytes.now }
    ensures settled { OnOk result (T.is_settled taker.new ⊎ ((0 < left) × ((S.state from.now).at_hand ≡ true))) }
    ensures taken { (before : List ℕ) → cutter.old ≡ pending before →
        TakesBytes T.took before bytes.now cutter.new taker.old taker.new result }
{
    match take_each(taker, cutter, bytes) {
        Ok(()) if left > 0 && from.is_at_hand() => Ok(()),
        Ok(()) => taker.settle(),
        Err(stop) => Err(stop),
    }
}

// Takes a last line without its line feed, unless it is empty, and the lines that it kept.
fn take_last<T: LineTaker>(taker: &mut T, cutter: &mut Cutter) -> Result<(), T::Stop>
    requires room { T.counted taker.old + 1 < 2 ^ 64 }
    ensures settled { OnOk result (T.is_settled taker.new) }
    ensures taken { (before : List ℕ) → cutter.old ≡ pending before →
        TakesLast T.took before taker.old taker.new result }
{
    match take_cut(taker, cutter.finish()) {
        Ok(()) => taker.settle(),
        Err(stop) => Err(stop),
    }
}

// Why a call ended whose source reached its end: there, or at its last line.
fn after_the_last<E>(stopped: Result<(), E>) -> Ended<E>
    ensures { result ≡ ended_by stopped }
{
    match stopped {
        Ok(()) => Ended::AtEnd,
        Err(stop) => Ended::Stopped(stop),
    }
}

/// Takes the lines of a source, in order, by at most `turns` reads of up to 512 bytes each. It ends at the end of the
/// source, whose last line may lack its line feed. Where it ends before that, a line that hasn't ended is dropped.
///
/// The bytes of several reads are one piece where they are at hand. It settles at the end, and before a read for which no
/// bytes are at hand, so no line is kept while a read waits.
pub fn take_lines<T: LineTaker, S: Source>(
    taker: &mut T,
    from: &mut S,
    turns: u32,
) -> Ended<T::Stop>
    requires new { T.counted taker.old ≡ 0 }
    requires settled { T.is_settled taker.old }
    ensures taken { Taken T.took (S.state from.old) (S.state from.new) turns (ending_as result)
        taker.old taker.new (stopped_as result) }
    ensures settled { OnOk (stopped_as result) (T.is_settled taker.new) }
{
    let mut cutter = Cutter::new();
    let mut piece = Piece::new();
    let mut left = turns;
    while left > 0 {
        let read = match piece.gather(from, left) {
            Ok(read) => read,
            Err(_) => return Ended::ReadFailed,
        };
        left -= read.reads;
        match take_piece(taker, &mut cutter, piece.as_slice(), from, left) {
            Ok(()) => {}
            Err(stop) => return Ended::Stopped(stop),
        }
        if read.is_over {
            return after_the_last(take_last(taker, &mut cutter));
        }
    }
    Ended::TurnsOver
}
