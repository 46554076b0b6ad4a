//! The running book equals the search: laws over the definitions that the contracts of its calls cite.

ghost use Rattle.std.specs.Prelude.{◌≡◌, ℕ, true, List, ◌∷◌, [], ◌++◌, ◌<◌, length, None, Some};
ghost use Rattle.station_journal.specs.declared.entry.Entry.{Entry};
ghost use Rattle.station_journal.specs.Past.{Site};
ghost use Rattle.station_journal.specs.Log.{Log, IsLegal, table_of, placed_of, clock_of, refusal_of, most_entries};
ghost use Rattle.station_book.specs.declared.call.Call.{Call};
ghost use Rattle.station_book.specs.declared.call.Change.{Change};
ghost use Rattle.station_book.specs.Call.{call_of, change_of};
ghost use Rattle.station_book.specs.State.{BookState, starting, rows, placed_rows};
ghost use Rattle.station_book.specs.State.{applied_book, book_offered, fits, caught_up, book_refusal};
ghost use Rattle.station_book.specs.Matching.{Matches, Shows, book_after};

/// A book without entries matches the list without entries, whatever the base of its clock.
pub fn a_new_book_matches()
    ensures { (site : Site) (n : ℕ) (base : ℕ) → Matches n base (starting site base) [] }
{}

/// A book that matches a list shows what the search finds in it. It refuses what a journal would, but for
/// `JournalFull`.
pub fn a_match_shows_the_search()
    ensures { (n : ℕ) (base : ℕ) (book : BookState) (entries : List Entry) →
        Matches n base book entries → Shows n base book entries }
{}

/// An entry that a journal accepts fits each book that matches it.
pub fn an_accepted_entry_fits()
    ensures { (log : Log) (book : BookState) (entry : Entry) → refusal_of log entry ≡ None →
        Matches log.limits.aircraft log.base book log.entries →
        fits log.limits.aircraft book (call_of entry) ≡ true }
{}

/// An entry that a matching book doesn't refuse fits it.
pub fn an_entry_that_is_not_refused_fits()
    ensures { (n : ℕ) (base : ℕ) (book : BookState) (entries : List Entry) (entry : Entry) →
        Matches n base book entries → book_refusal n book (call_of entry) ≡ None →
        fits n book (call_of entry) ≡ true }
{}

/// A matching book that applies an accepted entry still matches.
pub fn a_match_stays()
    ensures { (log : Log) (book : BookState) (entry : Entry) → refusal_of log entry ≡ None →
        Matches log.limits.aircraft log.base book log.entries →
        Matches log.limits.aircraft log.base (applied_book book (call_of entry)) (log.entries ++ entry ∷ []) }
{}

/// A matching book that is offered an accepted entry still matches, if it counts fewer than the most entries.
pub fn an_offer_keeps_a_match()
    ensures { (log : Log) (book : BookState) (entry : Entry) → refusal_of log entry ≡ None →
        length log.entries < most_entries →
        Matches log.limits.aircraft log.base book log.entries →
        Matches log.limits.aircraft log.base (book_offered log.limits.aircraft book (call_of entry))
        (log.entries ++ entry ∷ []) }
{}

/// After the entries of any legal journal the book shows the journal's table with the times of its positions and the
/// journal's clock, and counts its entries.
pub fn the_book_equals_the_search()
    ensures { (log : Log) → IsLegal log →
        (rows (book_after log.limits.site log.base log.entries) ≡ table_of log) ×
        ((book_after log.limits.site log.base log.entries).moment ≡ clock_of log) ×
        ((book_after log.limits.site log.base log.entries).entries ≡ length log.entries) ×
        (placed_rows (book_after log.limits.site log.base log.entries) ≡ placed_of log) }
{}

/// A book that copies what a call changed equals the one that applied the call.
pub fn a_change_brings_up()
    ensures { (n : ℕ) (book : BookState) (call : Call) (change : Change) → fits n book call ≡ true →
        change_of call ≡ Some change →
        caught_up n (applied_book book call) change book ≡ applied_book book call }
{}
