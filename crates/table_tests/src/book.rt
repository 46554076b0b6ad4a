//! Known frames, given to a journal and to a book. Both answer and show the same after each.

ghost use Rattle.std.specs.Prelude.{◌≡◌};

mod copies;
mod lists;
mod positions;
mod repeats;
mod surface;

use crate::calls::Call::{self, Hear, Tick};
use crate::calls::{entry, once};
use crate::comparing::{holds, same};
use crate::journal::{REPLY_AT_A_FULL_TABLE, Script};
use crate::known::{IDENTIFICATION, SHORT_AIR};
use modes_cpr::{Degrees, Position, Reference};
use station_book::Book;
use station_journal::{Aircraft, Entry, Journal, Limits, PlacedRows, Refusal, Rows};
use std::alloc::Global;
use std::process::Abort;
use std::test::Fail;

fn same_rows<const N: usize>(rt: &impl Abort, rows: &[Aircraft], book: &Book<N>) {
    same(rt, rows.len(), book.len());
    for (i, row) in rows.iter().enumerate() {
        if i < book.len() {
            same(rt, book.row(i), *row);
            same(rt, book.get(row.address), Some(*row));
        }
    }
}

// The book has the time of each row's position that a search of the journal finds.
fn same_times<const N: usize>(rt: &impl Abort, journal: &Journal, book: &Book<N>) {
    for i in 0..book.len() {
        same(rt, book.placed(i), journal.placed(book.row(i).address));
    }
}

fn same_verdict<const N: usize>(
    rt: &impl Abort,
    book: &Book<N>,
    entry: &Entry,
    answer: Result<(), Refusal>,
) {
    same(rt, book.verdict_of(&station_book::Call::of(entry)), answer);
    match entry {
        Entry::Tick { seat: _, at } => same(rt, book.verdict_tick(*at), answer),
        Entry::Heard { seat: _, frame } => same(rt, book.verdict(frame), answer),
    }
}

// Gives the entry to a journal and to a book. Both answer the same, and count the same entries.
fn give<const N: usize>(
    rt: &impl Abort,
    journal: &mut Journal,
    book: &mut Book<N>,
    entry: &Entry,
) -> Result<u64, Refusal> {
    let answer = once(journal, entry);
    same_verdict(rt, book, entry, answer.map(|_| ()));
    if let Ok(place) = answer {
        same(rt, place, book.entries());
        book.offer(entry);
    }
    same(rt, book.entries(), journal.len());
    answer
}

// Makes the call. Both show the same after it, and the entry is at the place that they answer.
fn make<const N: usize>(
    rt: &impl Abort,
    journal: &mut Journal,
    book: &mut Book<N>,
    call: Call,
    alloc: Global,
) -> Result<Result<u64, Refusal>, Fail> {
    let entry = entry(call)?;
    let answer = give(rt, journal, book, &entry);
    if let Ok(place) = answer {
        same(rt, journal.get(place), Some(entry));
    }
    let rows = journal.all(alloc)?;
    same_rows(rt, rows.as_slice(), book);
    same_times(rt, journal, book);
    same(rt, book.now(), journal.now());
    Ok(answer)
}

fn limits(aircraft: usize) -> Limits
    ensures { result.entries ≡ 16 }
{
    Limits {
        entries: 16,
        aircraft: u32::try_from(aircraft).unwrap_or(u32::MAX),
        site: None,
    }
}

fn hundred_thousandths(degrees: Degrees) -> i128 {
    let den = degrees.den as i128;
    if den == 0 {
        return 0;
    }
    (degrees.num as i128 * 200_000 + den).div_euclid(2 * den)
}

// Latitude and longitude in 1/100,000 degree, to the nearest.
fn position(row: &Aircraft) -> Option<(i128, i128)> {
    let Position { lat, lon } = row.position?;
    Some((hundred_thousandths(lat), hundred_thousandths(lon)))
}

// The book after the calls. It shows what the journal does after each.
fn compare<const N: usize>(
    rt: &impl Abort,
    alloc: Global,
    calls: &[Call],
) -> Result<Book<N>, Fail> {
    compare_at(rt, alloc, None, calls)
}

// The same at a site.
fn compare_at<const N: usize>(
    rt: &impl Abort,
    alloc: Global,
    site: Option<Reference>,
    calls: &[Call],
) -> Result<Book<N>, Fail> {
    let mut journal = Journal::new(alloc, Limits { site, ..limits(N) });
    let mut book = Book::<N>::starting(site, 0);
    for call in calls {
        let _answer = make(rt, &mut journal, &mut book, *call, alloc)?;
    }
    Ok(book)
}

/// A journal of at most 16 entries and a book after the calls. Each answers as the script says.
pub fn played<const N: usize>(
    rt: &impl Abort,
    alloc: Global,
    script: Script,
) -> Result<(Journal, Book<N>), Fail> {
    let mut journal = Journal::new(alloc, limits(N));
    let mut book = Book::<N>::new();
    for (call, answer) in script {
        let found = make(rt, &mut journal, &mut book, *call, alloc)?;
        same(rt, found, *answer);
    }
    Ok((journal, book))
}

#[test]
fn a_full_book_frees_a_place_at_a_tick(rt: HostRuntime) -> Result<(), Fail> {
    let (_, book) = played::<1>(&rt, rt.alloc(), REPLY_AT_A_FULL_TABLE)?;
    holds(&rt, book.get(0x4840D6).is_none());
    holds(&rt, book.get(0x510AF9).is_some());
    Ok(())
}

// Replies of 4840D6, whose address is overlaid on their parity.
const LONG_AIR: &[u8] = b"\x80\x00\x14\xB4\x00\x00\x00\x00\x00\x00\x00\x3E\xAE\x64";

const LONG_ALTITUDE: &[u8] = b"\xA0\x00\x14\xB4\x00\x00\x00\x00\x00\x00\x00\xCF\x19\x1A";

const LONG_IDENTITY: &[u8] = b"\xA8\x00\x11\x6D\x00\x00\x00\x00\x00\x00\x00\xF7\x2A\xAA";

#[test]
fn overlaid_replies_speak_for_live_aircraft(rt: HostRuntime) -> Result<(), Fail> {
    let alloc = rt.alloc();
    // A reply, and the altitude in feet and the squawk that it carries.
    for (reply, altitude, squawk) in [
        (SHORT_AIR, Some(32_300), None),
        (LONG_AIR, Some(32_300), None),
        (LONG_ALTITUDE, Some(32_300), None),
        (LONG_IDENTITY, None, Some(0o356)),
    ] {
        let alone = [(Hear(reply), Err(Refusal::Unknown(0x4840D6)))];
        let (_, book) = played::<4>(&rt, alloc, &alone)?;
        same(&rt, book.entries(), 0);
        let book: Book<4> = compare(&rt, alloc, &[Hear(IDENTIFICATION), Hear(reply)])?;
        let row = book.get(0x4840D6).ok_or("no aircraft")?;
        same(&rt, row.altitude, altitude);
        same(&rt, row.squawk.map(|code| code.value()), squawk);
    }
    Ok(())
}

#[test]
fn a_book_of_512_aircraft_is_made(rt: HostRuntime) -> Result<(), Fail> {
    let mut book = Book::<512>::new();
    book.offer(&entry(Tick(5))?);
    book.offer(&entry(Hear(IDENTIFICATION))?);
    same(&rt, book.len(), 1);
    same(&rt, book.now(), 5);
    Ok(())
}

// An all-call reply of 4848D6, whose low eleven bits are those of 4840D6, and one of 400000, below both.
const SAME_LOW_BITS: &[u8] = b"\x5D\x48\x48\xD6\x88\x18\x0F";

const BELOW: &[u8] = b"\x5D\x40\x00\x00\xEE\x1F\x40";

// Heard again after a tick, 4840D6 is first. Then 400000 comes before it, and 4848D6 has its hint.
#[test]
fn hints_that_are_out_of_date(rt: HostRuntime) -> Result<(), Fail> {
    let calls = [
        Hear(IDENTIFICATION),
        Tick(1),
        Hear(IDENTIFICATION),
        Hear(BELOW),
        Hear(SAME_LOW_BITS),
        Tick(2),
        Hear(SAME_LOW_BITS),
        Hear(IDENTIFICATION),
    ];
    let book: Book<4> = compare(&rt, rt.alloc(), &calls)?;
    let row = book.get(0x4840D6).ok_or("no aircraft")?;
    same(&rt, row.address, 0x4840D6);
    holds(&rt, row.callsign.is_some());
    same(&rt, book.len(), 3);
    Ok(())
}
