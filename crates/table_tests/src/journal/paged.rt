//! A journal in pages that forgets.

use super::MANY;
use crate::comparing::same;
use station_journal::{Entry, Journal};
use std::test::Fail;

// Ticks each ten milliseconds, and a page where there is no room. Those more than 70,000 ms old are forgotten.
#[test]
fn what_a_journal_forgets_leaves_its_room(rt: HostRuntime) -> Result<(), Fail> {
    let mut journal = Journal::new(rt.alloc(), MANY);
    for index in 0..20_000 {
        if journal.has_less_room(1) {
            let page = Journal::new_page(rt.alloc()).map_err(|_| "no page")?;
            same(&rt, journal.add_room(page).is_none(), true);
        }
        same(&rt, journal.tick(0, 10 * index + 10), Ok(index));
    }
    let room = 3 * 8_192;
    same(&rt, journal.has_less_room(room - 20_000), false);
    same(&rt, journal.has_less_room(room - 20_000 + 1), true);
    journal.forget_old();
    same(&rt, (journal.len(), journal.base()), (7_001, 129_990));
    same(&rt, journal.has_less_room(room - 7_001), false);
    same(&rt, journal.has_less_room(room - 7_001 + 1), true);
    for (index, at) in [(0, 130_000), (3_500, 165_000), (7_000, 200_000)] {
        same(&rt, journal.get(index), Some(Entry::Tick { seat: 0, at }));
    }
    Ok(())
}
