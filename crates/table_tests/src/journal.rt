//! Worked examples of a journal, with the values that are known for them.

mod paged;
mod resumed;
mod stories;

use crate::calls::Call::{self, Hear, Tick};
use crate::calls::{entry, once};
use crate::comparing::same;
use crate::known::{
    ALL_CALL, FORMAT_1, IDENTIFICATION, IDENTITY, NOBODY, ONES, SHORT_AIR, SPEED, SPOILED,
    SPOILED_REPLY, ZEROS,
};
use station_journal::{Aircraft, Entry, Journal, Limits, Refusal, Rows};
use std::process::Abort;
use std::test::Fail;

const MANY: Limits = Limits {
    entries: 16_777_216,
    aircraft: 512,
    site: None,
};

const ONE_AIRCRAFT: Limits = Limits {
    entries: 16,
    aircraft: 1,
    site: None,
};

const ONE_ENTRY: Limits = Limits {
    entries: 1,
    aircraft: 1,
    site: None,
};

/// Calls, each with its answer: the place of its entry, or why it is refused.
pub type Script<'a> = &'a [(Call, Result<u64, Refusal>)];

fn row(journal: &Journal, address: u32) -> Result<Aircraft, Fail> {
    Ok(journal.aircraft(address).ok_or("no aircraft")?)
}

// What a journal shows: its length, its time, the number of live aircraft, and the last entry.
fn shown(journal: &Journal) -> (u64, u64, usize, Option<Entry>) {
    let last = journal.get(journal.len().saturating_sub(1));
    (journal.len(), journal.now(), Rows::len(journal), last)
}

// A call that is out of memory leaves the journal as it was, and is made once more. For the tests that run with each
// allocation refused in turn; all others make a call once.
fn retried(rt: &impl Abort, journal: &mut Journal, entry: &Entry) -> Result<u64, Refusal> {
    let before = shown(journal);
    match once(journal, entry) {
        Err(Refusal::NoMemory) => {
            same(rt, shown(journal), before);
            once(journal, entry)
        }
        answer => answer,
    }
}

// Makes the calls, each of which may be out of memory once. Each answers as the script says.
fn go_on(rt: &impl Abort, journal: &mut Journal, script: Script) -> Result<(), Fail> {
    for (call, answer) in script {
        same(rt, retried(rt, journal, &entry(*call)?), *answer);
    }
    Ok(())
}

const IN_ORDER: Script = &[
    (Tick(0), Err(Refusal::NotLater(0))),
    (Hear(IDENTIFICATION), Ok(0)),
    (Hear(ALL_CALL), Err(Refusal::JournalFull)),
    (Hear(SPEED), Err(Refusal::JournalFull)),
    (Hear(IDENTIFICATION), Err(Refusal::Repeated)),
    (Hear(IDENTITY), Err(Refusal::Unknown(0x510AF9))),
    (Tick(5), Err(Refusal::JournalFull)),
    (Tick(0), Err(Refusal::NotLater(0))),
    (Hear(SPOILED), Err(Refusal::BadParity(1))),
    (Hear(SPOILED_REPLY), Err(Refusal::BadParity(128))),
    (Hear(ZEROS), Err(Refusal::Unassigned(0))),
    (Hear(ONES), Err(Refusal::Unassigned(0xFF_FFFF))),
    (Hear(NOBODY), Err(Refusal::Unknown(0))),
    (Hear(FORMAT_1), Err(Refusal::Unsupported(1))),
];

#[test]
fn refusals_in_their_order(rt: HostRuntime) -> Result<(), Fail> {
    let mut journal = Journal::new(rt.alloc(), ONE_ENTRY);
    go_on(&rt, &mut journal, IN_ORDER)?;
    same(&rt, journal.len(), 1);
    same(&rt, journal.get(0), Some(entry(Hear(IDENTIFICATION))?));
    same(&rt, journal.get(1), None);
    same(&rt, journal.limits(), ONE_ENTRY);
    Ok(())
}

/// Calls that a table of one aircraft answers, and that leave it 510AF9.
pub const REPLY_AT_A_FULL_TABLE: Script = &[
    (Hear(IDENTIFICATION), Ok(0)),
    (Hear(ALL_CALL), Err(Refusal::BookFull)),
    (Hear(IDENTIFICATION), Err(Refusal::Repeated)),
    (Hear(SHORT_AIR), Ok(1)),
    (Tick(60_001), Ok(2)),
    (Hear(ALL_CALL), Ok(3)),
];

const SQUITTER_AT_A_FULL_TABLE: Script = &[
    (Hear(IDENTIFICATION), Ok(0)),
    (Hear(SPEED), Err(Refusal::BookFull)),
    (Hear(IDENTIFICATION), Err(Refusal::Repeated)),
    (Tick(60_001), Ok(1)),
    (Hear(SPEED), Ok(2)),
];

#[test]
fn a_full_table_takes_another_aircraft_when_one_is_gone(rt: HostRuntime) -> Result<(), Fail> {
    for script in [REPLY_AT_A_FULL_TABLE, SQUITTER_AT_A_FULL_TABLE] {
        let mut journal = Journal::new(rt.alloc(), ONE_AIRCRAFT);
        go_on(&rt, &mut journal, script)?;
        assert_eq!(rt; journal.aircraft(0x4840D6), None);
        assert_eq!(rt; Rows::len(&journal), 1);
    }
    Ok(())
}

fn are_rows_of_two(rt: &impl Abort, rows: &impl Rows) {
    assert_eq!(rt; Rows::len(rows), 2);
    assert_eq!(rt; Rows::row(rows, 0).address, 0x4840D6);
    assert_eq!(rt; Rows::row(rows, 1).address, 0x485020);
}

// Where the table or the room is out of memory, it is asked for once more.
#[test]
fn aircraft_stand_by_rising_address(rt: HostRuntime) -> Result<(), Fail> {
    let mut journal = Journal::new(rt.alloc(), MANY);
    let script = [(Hear(IDENTIFICATION), Ok(0)), (Hear(SPEED), Ok(1))];
    go_on(&rt, &mut journal, &script)?;
    let rows = journal
        .all(rt.alloc())
        .or_else(|_| journal.all(rt.alloc()))?;
    are_rows_of_two(&rt, &rows);
    are_rows_of_two(&rt, &journal);
    assert_eq!(rt; journal.aircraft(1), None);
    if journal.room().is_err() {
        journal.room()?;
    }
    assert_eq!(rt; journal.len(), 2);
    Ok(())
}

#[test]
fn an_entry_goes_into_the_room_reserved(rt: HostRuntime) -> Result<(), Fail> {
    let mut journal = Journal::new(rt.alloc(), MANY);
    journal.room()?;
    journal.push_reserved(Entry::Tick { seat: 3, at: 5 });
    same(&rt, journal.get(0), Some(Entry::Tick { seat: 3, at: 5 }));
    same(&rt, journal.now(), 5);
    Ok(())
}
