//! Laws over the definitions alone: the history of a closed station.
ghost use Rattle.std.specs.Prelude.{◌≡◌, ◌<◌, ◌≤◌, ℕ, Bool, List, [], ◌∷◌, ◌++◌, All, None, Result, length};
ghost use Rattle.std.specs.List.{Contains};
ghost use mathlib.Core.List.{IsPrefix};
ghost use Rattle.streams.specs.Source.{SourceState};
ghost use Rattle.station_journal.specs.declared.entry.Entry.{Entry};
ghost use Rattle.station_journal.specs.declared.entry.Entry.TheVariants.{Tick, Heard};
ghost use Rattle.station_journal.specs.declared.refusal.Refusal.{Refusal};
ghost use Rattle.station_journal.specs.Log.{refusal_of};
ghost use Rattle.station_history.specs.Start.{Start, log_of};
ghost use Rattle.station_lines.specs.declared.pumping.PumpFault.{PumpFault};
ghost use Rattle.station_lines.specs.declared.tally.Tally.{Tally};
ghost use Rattle.station_lines.specs.Calls.{frames_of};
ghost use Rattle.station_shared.specs.Closing.{Closes};
ghost use Rattle.station_shared.specs.Seats.{Seated, new_seat, own_entries, seat_of};
ghost use Rattle.station_shared.specs.Workers.{Works};
ghost use Rattle.one_journal.specs.Example.{IsWorked, swapped_deeds, worked_deeds, worked_history};
ghost use Rattle.one_journal.specs.Receiver.{IsReceiver, feeds};
ghost use Rattle.one_journal.specs.Merge.{Deed, Called, Did, IsMerge, accepted_in, entries_of_seat, entry_added, verdict_on};

/// What a merge says of each call, wherever it is among what its seat did. The plain search decided it at a beginning of the
/// history, which has each accepted call of its seat before it, and none after it. An accepted call's entry comes next.
///
/// Where nobody but the first `n` seats did anything, each entry is of one of them.
pub fn a_merge_decides_each_call()
    ensures calls { (start : Start) (entries history : List Entry) (did : ℕ → List Deed) → IsMerge start entries history did →
        (seat : ℕ) (before after : List Deed) (entry : Entry) (answer : Result (Unit {0}) Refusal) →
        did seat ≡ before ++ Called entry answer ∷ after → (at : List Entry) × IsPrefix (at ++ entry_added entry answer) history ×
        (refusal_of (log_of start at) entry ≡ verdict_on answer) ×
        (entries_of_seat seat (own_entries start at) ≡ accepted_in before) }
    ensures seats { (start : Start) (entries history : List Entry) (did : ℕ → List Deed) → IsMerge start entries history did →
        (n : ℕ) → ((seat : ℕ) → n ≤ seat → did seat ≡ []) → All (λ (e : Entry). seat_of e < n) (own_entries start history) }
{}

/// An example of a merge, of two receivers and a reporter. It is none without an accepted frame, with one twice, or with a
/// refused one. Nor is it one where a call is refused after a call of its seat that made the reason go away.
pub fn an_example_of_a_merge()
    ensures merge { (start : Start) (f g : List ℕ) → IsWorked start f g → IsMerge start [] (worked_history f g) (worked_deeds f g) }
    ensures lost { (start : Start) (f g : List ℕ) → IsWorked start f g →
        ¬ IsMerge start [] (Heard 0 f ∷ Tick 2 5 ∷ []) (worked_deeds f g) }
    ensures twice { (start : Start) (f g : List ℕ) → IsWorked start f g →
        ¬ IsMerge start [] (Heard 0 f ∷ Heard 0 f ∷ Tick 2 5 ∷ Heard 1 g ∷ []) (worked_deeds f g) }
    ensures refused { (start : Start) (f g : List ℕ) → IsWorked start f g →
        ¬ IsMerge start [] (Heard 0 f ∷ Heard 1 f ∷ Tick 2 5 ∷ Heard 1 g ∷ []) (worked_deeds f g) }
    ensures order { (start : Start) (f g : List ℕ) → IsWorked start f g →
        refusal_of (log_of start (worked_history f g)) (Heard 1 f) ≡ None →
        ¬ IsMerge start [] (worked_history f g) (swapped_deeds f g) }
{}

/// However the threads of a station interleaved, its journal at the close is a merge of what its seats did: of the calls of
/// each, in their order, and of what it saw: by its looks, or as it learned from another seat.
///
/// Each accepted call is in it once, after all that its seat had seen. Each refusal is that of the plain search at a beginning
/// of the journal. That has all that the seat had seen, and of its calls just the accepted ones before.
///
/// The station goes on from `entries`, and has `n` seats, 1 or more. What each did is known from then on to the close.
pub fn one_history_accounts_for_all_seats()
    ensures { (start : Start) (entries journal : List Entry) (n : ℕ) (seats : List Seated) (did : ℕ → List Deed) →
        start.resumed ≡ length entries → 0 < n → Closes start n journal seats →
        ((k : ℕ) → k < n → (end : Seated) × Contains seats end ×
        ((can_look : Bool) × Did start (new_seat entries can_look k) (did k) end)) →
        ((k : ℕ) → n ≤ k → did k ≡ []) →
        IsMerge start entries journal did }
{}

/// Who has seen all that each seat of a closed station has seen has seen its whole journal. So a look sees every accepted call
/// if its seat has learned from all others before, and none of them calls any more.
pub fn who_learned_from_all_seats_has_seen_all()
    ensures { (start : Start) (entries journal : List Entry) (n : ℕ) (seats : List Seated) (did : ℕ → List Deed) →
        start.resumed ≡ length entries → 0 < n → Closes start n journal seats →
        ((k : ℕ) → k < n → (end : Seated) × Contains seats end ×
        ((can_look : Bool) × Did start (new_seat entries can_look k) (did k) end)) →
        ((k : ℕ) → n ≤ k → did k ≡ []) →
        (seen : List Entry) → IsPrefix seen journal → All (λ (s : Seated). IsPrefix s.seen seen) seats → seen ≡ journal }
{}

/// What a receiver did whose pump is over: it called with the frame of each line that it took of what its source gave, in their
/// order. Its tally counts the lines by kind, and the accepted calls.
pub fn a_receiver_calls_with_its_lines()
    ensures { (start : Start) (old new : Seated) (source_old source_new : SourceState) (turns : ℕ) (result : Result Tally PumpFault) →
        (works : Works start old new source_old source_new turns result) →
        IsReceiver old.number source_old source_new turns result (feeds old.number (frames_of works.pumps.lines) works.pumps.answers) ×
        Did start old (feeds old.number (frames_of works.pumps.lines) works.pumps.answers) new }
{}
