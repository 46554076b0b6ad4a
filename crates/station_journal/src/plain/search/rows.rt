//! The live aircraft among a list of entries, by rising address.

ghost use Rattle.std.specs.Prelude.{◌≡◌, ◌<◌, ◌^◌, IfSome, IfOk, OnOk, [], ◌∷◌, ◌++◌, reverse, length, Some, slice_get};
ghost use Rattle.station_journal.specs.Past.{IsTimed};
ghost use Rattle.station_journal.specs.Table.{table, live_addresses};
ghost use Rattle.station_journal.specs.Found.{first, lower_of, live_from, is_live_from, best_after};

use crate::plain::search::{is_live, row};
use crate::{Aircraft, Entry};
use modes_cpr::Reference;
use modes_frame::readers::claim;
use paged_list::Front;
use std::alloc::{AllocError, Global};

fn lowered(best: Option<u32>, address: u32) -> Option<u32>
    ensures { result ≡ lower_of best address }
{
    match best {
        Some(b) if b <= address => Some(b),
        _ => Some(address),
    }
}

// The lowest live address from `from` on, after one entry more.
fn best_after(
    best: Option<u32>,
    entries: &Front<'_, Entry>,
    base: u64,
    from: u32,
    entry: &Entry,
) -> Option<u32>
    requires timed { IsTimed base (reverse entries.now) }
    requires small { IfSome best (λ a. a < 2 ^ 24) }
    ensures best { result ≡ best_after (is_live_from from base (reverse entries.now)) best entry.now }
    ensures small { IfSome result (λ a. a < 2 ^ 24) }
{
    match entry {
        Entry::Tick { seat: _, at: _ } => best,
        Entry::Heard { seat: _, frame } => match claim(frame) {
            Ok(claim) if claim.address >= from && is_live(entries, base, claim.address) => {
                lowered(best, claim.address)
            }
            _ => best,
        },
    }
}

/// The least live address from `from` on.
pub fn next_live(entries: &Front<'_, Entry>, base: u64, from: u32) -> Option<u32>
    requires { IsTimed base (reverse entries.now) }
    ensures first { result ≡ first (live_from from base (reverse entries.now)) }
    ensures small { IfSome result (λ a. a < 2 ^ 24) }
{
    let mut best: Option<u32> = None;
    for place in 0..entries.len() {
        best = best_after(best, entries, base, from, entries.at(place));
    }
    best
}

// The live address at place `i`, by rising address.
fn nth_live(entries: &Front<'_, Entry>, base: u64, i: usize) -> Option<u32>
    requires { IsTimed base (reverse entries.now) }
    ensures { result ≡ slice_get (live_addresses base (reverse entries.now)) i }
{
    let mut from = 0;
    for _place in 0..i {
        from = next_live(entries, base, from)? + 1;
    }
    next_live(entries, base, from)
}

/// The row at place `i` of the table.
pub fn nth_row(entries: &Front<'_, Entry>, site: Option<Reference>, base: u64, i: usize) -> Aircraft
    requires timed { IsTimed base (reverse entries.now) }
    requires within { i < length (table site base (reverse entries.now)) }
    ensures { slice_get (table site base (reverse entries.now)) i ≡ Some result }
{
    let address = nth_live(entries, base, i).unwrap();
    row(entries, site, base, address)
}

/// The number of live aircraft.
pub fn live_count(entries: &Front<'_, Entry>, base: u64) -> u32
    requires { IsTimed base (reverse entries.now) }
    ensures { result ≡ length (live_addresses base (reverse entries.now)) }
{
    let mut count = 0;
    let mut from = 0;
    while let Some(address) = next_live(entries, base, from) {
        count += 1;
        from = address + 1;
    }
    count
}

// Appends an item.
fn append<T: Copy>(items: &mut Vec<T>, item: T) -> Result<(), AllocError>
    ensures { OnOk result (items.new.items ≡ items.old.items ++ item ∷ []) }
{
    items.push(item)?;
    Ok(())
}

/// The rows of the live aircraft, by rising address. Refused where it is out of memory.
pub fn all_rows(
    alloc: Global,
    entries: &Front<'_, Entry>,
    site: Option<Reference>,
    base: u64,
) -> Result<Vec<Aircraft>, AllocError>
    requires { IsTimed base (reverse entries.now) }
    ensures { IfOk result (λ rows. rows.items ≡ table site base (reverse entries.now)) }
{
    let mut rows = Vec::new(alloc);
    let mut from = 0;
    while let Some(address) = next_live(entries, base, from) {
        append(&mut rows, row(entries, site, base, address))?;
        from = address + 1;
    }
    Ok(rows)
}
