//! Entries that fit, and lists of them that a book takes.

use crate::calls::Call::{Hear, Tick};
use crate::calls::entry;
use crate::comparing::{holds, holds_at, same};
use crate::known::{ALL_CALL, EVEN, IDENTIFICATION, NOBODY, SHORT_AIR, SPOILED};
use station_book::{Book, Call};
use station_journal::{Refusal, Rows};
use std::test::Fail;

#[test]
fn what_does_not_fit_leaves_a_book_as_it_was(rt: HostRuntime) -> Result<(), Fail> {
    let mut book = Book::<4>::starting(None, 7);
    for call in [Tick(7), Hear(NOBODY), Hear(SPOILED)] {
        let entry = entry(call)?;
        holds(&rt, !book.fits(&entry));
        book.offer(&entry);
        book.offer_call(&Call::of(&entry));
    }
    same(&rt, (book.entries(), book.now(), book.len()), (0, 7, 0));
    Ok(())
}

#[test]
fn an_overlaid_frame_fits_whoever_is_live(rt: HostRuntime) -> Result<(), Fail> {
    let mut book = Book::<1>::new();
    let reply = entry(Hear(SHORT_AIR))?;
    let unknown = Err(Refusal::Unknown(0x4840D6));
    same(&rt, book.verdict_of(&Call::of(&reply)), unknown);
    holds(&rt, book.fits(&reply));
    book.offer(&reply);
    same(&rt, book.len(), 1);
    holds_at(&rt, book.fits(&entry(Hear(IDENTIFICATION))?), "it is live");
    holds_at(&rt, !book.fits(&entry(Hear(ALL_CALL))?), "the book is full");
    Ok(())
}

#[test]
fn a_list_is_taken_up_to_the_first_that_does_not_fit(rt: HostRuntime) -> Result<(), Fail> {
    let mut book = Book::<1>::starting(None, 5);
    let (heard, other) = (entry(Hear(IDENTIFICATION))?, entry(Hear(EVEN))?);
    let fitting = [heard, entry(Tick(60_006))?, other, other];
    same(&rt, book.take_all(5, &fitting), Ok(()));
    let shown = (book.entries(), book.now(), book.len());
    same(&rt, shown, (4, 60_006, 1));
    holds(&rt, book.get(0x40621D).is_some());
    let early = Book::<1>::starting(None, 5).take_all(5, &[entry(Tick(5))?]);
    same(&rt, early, Err(0));
    let full = Book::<1>::starting(None, 5).take_all(5, &[heard, other]);
    same(&rt, full, Err(1));
    let spoiled = [entry(Tick(6))?, heard, entry(Hear(SPOILED))?];
    same(
        &rt,
        Book::<1>::starting(None, 5).take_all(5, &spoiled),
        Err(2),
    );
    Ok(())
}
