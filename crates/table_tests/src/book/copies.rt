//! A copy that is brought up to date by what each entry changes.

use crate::book::repeats::give_change;
use crate::calls::Call::{Hear, Tick};
use crate::calls::{entry, frame};
use crate::comparing::{same, same_at};
use crate::known::{ALL_CALL, EVEN, IDENTIFICATION, IDENTITY, LOW, ODD, SHORT_AIR, SPEED};
use modes_frame::remainder;
use station_book::Book;
use station_journal::{Entry, PlacedRows, Rows};
use std::process::Abort;
use std::test::Fail;

// Both books show the same rows, with the same times of their positions.
fn same_table<const N: usize>(rt: &impl Abort, shown: &Book<N>, copy: &Book<N>, place: usize) {
    same_at(rt, copy.len(), shown.len(), place);
    for i in 0..shown.len().min(copy.len()) {
        same_at(rt, copy.row(i), shown.row(i), place);
        same_at(rt, copy.placed(i), shown.placed(i), place);
    }
}

// Each kind of frame comes after one that gave its aircraft other values, and the first of an aircraft may be a reply.
#[test]
fn a_copy_catches_up_with_each_kind_of_frame(rt: HostRuntime) -> Result<(), Fail> {
    let calls = [
        Hear(ALL_CALL),
        Hear(IDENTIFICATION),
        Hear(SHORT_AIR),
        Hear(EVEN),
        Tick(1000),
        Hear(ODD),
        Hear(IDENTITY),
        Hear(SPEED),
        Hear(LOW),
        Tick(60_500),
        Hear(SHORT_AIR),
        Hear(ALL_CALL),
        Tick(61_001),
    ];
    let mut shown = Book::<4>::new();
    let mut copy = Book::<4>::new();
    for (place, call) in calls.into_iter().enumerate() {
        give_change(&mut shown, &mut copy, &entry(call)?);
        same_table(&rt, &shown, &copy, place);
    }
    same(
        &rt,
        (copy.entries(), copy.now(), copy.len()),
        (13, 61_001, 2),
    );
    let low = copy.get(0x510AF9).ok_or("no aircraft")?;
    same(&rt, low.altitude, None);
    Ok(())
}

// A short frame that begins with these four bytes. Its parity has the address overlaid.
fn short_frame(first: [u8; 4], address: u32) -> Result<Entry, Fail> {
    let [format, high, middle, low] = first;
    let unaddressed = frame(&[format, high, middle, low, 0, 0, 0])?;
    let [_, first, second, third] = (remainder(&unaddressed) ^ address).to_be_bytes();
    let frame = frame(&[format, high, middle, low, first, second, third])?;
    Ok(Entry::Heard { seat: 0, frame })
}

// The `i`th address, of 512 that come in no order and have the same low 15 bits.
fn address_of(i: u16) -> u32 {
    u32::from(i) * 37 % 512 * 0x8000 + 5
}

#[test]
fn a_copy_of_a_full_table_catches_up(rt: HostRuntime) -> Result<(), Fail> {
    let mut shown = Book::<512>::new();
    let mut copy = Book::<512>::new();
    for i in 0..512 {
        let [_, high, middle, low] = address_of(i).to_be_bytes();
        let all_call = short_frame([0x5D, high, middle, low], 0)?;
        give_change(&mut shown, &mut copy, &all_call);
    }
    same_table(&rt, &shown, &copy, 512);
    for i in 0..512 {
        let identity = short_frame([0x28, 0, 0x1F, (i % 256) as u8], address_of(i))?;
        give_change(&mut shown, &mut copy, &identity);
    }
    same_table(&rt, &shown, &copy, 1024);
    same(&rt, (copy.len(), copy.entries()), (512, 1024));
    for i in 0..512 {
        let row = copy.get(address_of(i)).ok_or("no aircraft")?;
        same(&rt, row.squawk.is_some(), true);
    }
    Ok(())
}
