//! Why a call is refused at a journal with its running book.
ghost use Rattle.std.specs.Prelude.{◌≡◌, ◌≢◌, ℕ, ◌<◌, IfErr, OnOk, None, Some, MatchResult, length};
ghost use Rattle.station_journal.specs.declared.refusal.Refusal.TheVariants.{NoMemory};
ghost use Rattle.station_journal.specs.Log.{refusal_of};
ghost use Rattle.station_book.specs.Call.{entry_of};
ghost use Rattle.station_book.specs.JournalBook.{HasMatchingBook, full_first};

use crate::book::Book;
use crate::call::Call;
use station_journal::{Journal, Refusal};

/// Answers why a journal with this book refuses a call, by whatever seat, if it does. `NoMemory` is never the answer.
// Inlined with what it calls, so that a desk never writes the call to memory.
#[inline(always)]
pub fn verdict<const N: usize>(
    journal: &Journal,
    book: &Book<N>,
    call: &Call,
) -> Result<(), Refusal>
    requires { HasMatchingBook N journal.now.log book.now }
    ensures verdict { (seat : ℕ) → let refusal = refusal_of journal.now.log (entry_of seat call.now) in
        MatchResult result (λ _. refusal ≡ None) (λ e. refusal ≡ Some e) }
    ensures few { OnOk result (length journal.now.log.entries < journal.now.log.limits.entries) }
    ensures never { IfErr result (λ refusal. refusal ≢ NoMemory) }
{
    let verdict = book.verdict_of(call);
    if journal.len() >= u64::from(journal.limits().entries) {
        full_first(verdict)
    } else {
        verdict
    }
}

// The verdict on a call where the journal is full, from the book's verdict.
fn full_first(verdict: Result<(), Refusal>) -> Result<(), Refusal>
    ensures { result ≡ full_first verdict }
{
    match verdict {
        Ok(()) => Err(Refusal::JournalFull),
        Err(Refusal::BookFull) => Err(Refusal::JournalFull),
        Err(refusal) => Err(refusal),
    }
}
