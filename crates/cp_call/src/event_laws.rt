ghost use Rattle.std.specs.Prelude.{◌≡◌, ◌≢◌, ◌+◌, ◌<◌, true, ℕ, Bool, Some, List, [], ◌∷◌, ◌++◌, length, replicate, slice_get, slice_set};
ghost use Rattle.std.specs.List.{list_all};
ghost use Rattle.cp_list.specs.Lists.{IsPrefix};
ghost use Rattle.cp_call.specs.declared.asked.Asked.TheVariants.{Replied};
ghost use Rattle.cp_call.specs.declared.call.Call.{Call};
ghost use Rattle.cp_call.specs.declared.call.Reply.{Reply};
ghost use Rattle.cp_call.specs.declared.call.Entry.{Entry};
ghost use Rattle.cp_call.specs.declared.item.Item.{Item};
ghost use Rattle.cp_call.specs.declared.item.Item.TheVariants as item;
ghost use Rattle.cp_call.specs.declared.item.PutReply.{PutReply};
ghost use Rattle.cp_call.specs.declared.outcome.EngineEnd.{EngineEnd};
ghost use Rattle.cp_call.specs.declared.outcome.PredEnd.{PredEnd};
ghost use Rattle.cp_call.specs.declared.outcome.OutEntry.{OutEntry};
ghost use Rattle.cp_call.specs.declared.outcome.Outcome.{Outcome};
ghost use Rattle.cp_call.specs.Asker.{entry_added, IsFullBy};
ghost use Rattle.cp_call.specs.Life.{Rule, IsWorkersLife};
ghost use Rattle.cp_call.specs.Sound.{Object, Setup, own_entries, own_writes, Agrees, AreTied, Going, history_at, is_engine};
ghost use Rattle.cp_call.specs.Added.{HasAdded, AsksForOne, WritesForOne, is_silent};
ghost use Rattle.cp_call.specs.Running.{AreRunning, AreWorkerEnds};
ghost use Rattle.cp_call.specs.Progress.{GoesOn, GoesOnBy, Pick, beginning};

/// A call of an object that was replied adds one event.
pub fn replied_calls_add_an_event()
    ensures { (objects : List Object) (seen : ℕ → List Entry) (now : ℕ → List Entry) (wrote : List OutEntry) (n : ℕ) (p : ℕ) (c : Call) (r : Reply) → p < length objects → ((q : ℕ) → IsPrefix (seen q) (now q)) → own_entries n (now p) ≡ own_entries n (seen p) ++ entry_added n c (Replied r) → ((q : ℕ) → p ≢ q → own_entries n (now q) ≡ own_entries n (seen q)) → IsFullBy (slice_get objects p) (now p) n c (Replied r) → HasAdded objects seen now wrote wrote n (item.Asked p c r ∷ []) }
{}

/// A call that was not replied adds none, though more may have been seen of the objects.
pub fn unanswered_calls_add_nothing()
    ensures { (objects : List Object) (seen : ℕ → List Entry) (now : ℕ → List Entry) (wrote : List OutEntry) (n : ℕ) → ((q : ℕ) → IsPrefix (seen q) (now q)) → ((q : ℕ) → own_entries n (now q) ≡ own_entries n (seen q)) → HasAdded objects seen now wrote wrote n [] }
{}

/// A write that was answered adds one event.
pub fn writes_add_an_event()
    ensures { (objects : List Object) (seen : ℕ → List Entry) (wrote : List OutEntry) (n : ℕ) (bytes : List ℕ) (r : PutReply) → HasAdded objects seen seen wrote (wrote ++ record { engine = n; bytes = bytes; reply = r } ∷ []) n (item.Wrote bytes r ∷ []) }
{}

/// An event that is neither a call of an object nor a write may be added at any time.
pub fn silent_events_are_added()
    ensures { (objects : List Object) (seen : ℕ → List Entry) (wrote : List OutEntry) (n : ℕ) (i : Item) → is_silent i ≡ true → HasAdded objects seen seen wrote wrote n (i ∷ []) }
{}

/// What is added after what was added is added as a whole.
pub fn added_events_join()
    ensures { (objects : List Object) (first : ℕ → List Entry) (seen : ℕ → List Entry) (now : ℕ → List Entry) (wrote : List OutEntry) (wrote_then : List OutEntry) (wrote_now : List OutEntry) (n : ℕ) (earlier : List Item) (later : List Item) → HasAdded objects first seen wrote wrote_then n earlier → HasAdded objects seen now wrote_then wrote_now n later → HasAdded objects first now wrote wrote_now n (earlier ++ later) }
{}

/// What an engine tells of the objects and the port stays so with the events that a call adds.
pub fn added_events_agree()
    ensures { (objects : List Object) (seen : ℕ → List Entry) (now : ℕ → List Entry) (wrote : List OutEntry) (wrote_now : List OutEntry) (n : ℕ) (items : List Item) (added : List Item) → Agrees objects seen wrote n items → HasAdded objects seen now wrote wrote_now n added → Agrees objects now wrote_now n (items ++ added) }
{}

/// What an engine tells of the objects and the port stays so with the events of others.
pub fn events_of_others_agree()
    ensures { (objects : List Object) (seen : ℕ → List Entry) (now : ℕ → List Entry) (writes : List OutEntry) (n : ℕ) (items : List Item) → ((q : ℕ) → IsPrefix (seen q) (now q)) → ((q : ℕ) → own_entries n (now q) ≡ own_entries n (seen q)) → Agrees objects seen writes n items → Agrees objects now writes n items }
{}

/// Workers that have done nothing yet are running.
pub fn new_workers_run()
    ensures { (rule : Rule) (objects : List Object) (seen : ℕ → ℕ → List Entry) (wrote : ℕ → List OutEntry) (n : ℕ) (count : ℕ) → ((m : ℕ) (p : ℕ) → own_entries m (seen m p) ≡ []) → ((m : ℕ) → wrote m ≡ []) → AreRunning rule objects seen wrote n (replicate count []) }
{}

/// All workers run on where a call has worked for one of them, and has added events to it that go on its life.
pub fn workers_run_on()
    ensures { (rule : Rule) (objects : List Object) (objects_now : List Object) (serves : ℕ → Bool) (serves_now : ℕ → Bool) (seen : ℕ → ℕ → List Entry) (now : ℕ → ℕ → List Entry) (looked : ℕ → ℕ → ℕ) (looked_now : ℕ → ℕ → ℕ) (writes : ℕ → Bool) (writes_now : ℕ → Bool) (wrote : ℕ → List OutEntry) (wrote_now : ℕ → List OutEntry) (n : ℕ) (k : ℕ) (engines : List (List Item)) (items : List Item) (added : List Item) → AreRunning rule objects seen wrote n engines → slice_get engines k ≡ Some items → HasAdded objects (seen (n + k)) (now (n + k)) (wrote (n + k)) (wrote_now (n + k)) (n + k) added → IsWorkersLife rule (items ++ added) → AsksForOne (n + k) objects objects_now serves serves_now seen now looked looked_now → WritesForOne (n + k) writes writes_now wrote wrote_now → AreRunning rule objects now wrote_now n (slice_set engines k (items ++ added)) }
{}

/// At the end the workers are tied to the run, where the histories are what was seen last of the objects, with no entry of
/// the workers behind it, and the port is what was written.
pub fn ended_workers_are_tied()
    ensures { (s : Setup) (preds : List PredEnd) (port : List OutEntry) (seen : ℕ → ℕ → List Entry) (wrote : ℕ → List OutEntry) (n : ℕ) (lives : List (List Item)) (engines : List EngineEnd) → AreRunning s.rule s.objects seen wrote n lives → AreWorkerEnds n lives engines → ((m : ℕ) (q : ℕ) → IsPrefix (seen m q) (history_at preds q)) → ((m : ℕ) (q : ℕ) → own_entries m (history_at preds q) ≡ own_entries m (seen m q)) → ((m : ℕ) → own_writes m port ≡ wrote m) → AreTied s preds port n engines }
{}

/// Engines of two parts that are numbered on, as workers and lanes, are tied together.
pub fn tied_engines_join()
    ensures { (s : Setup) (preds : List PredEnd) (port : List OutEntry) (n : ℕ) (first : List EngineEnd) (others : List EngineEnd) → AreTied s preds port n first → AreTied s preds port (n + length first) others → AreTied s preds port n (first ++ others) }
{}

/// A history that an engine's own entries alone have lengthened has engines as its callers, if it had before.
pub fn callers_stay_engines()
    ensures { (count : ℕ) (n : ℕ) (history : List Entry) (now : List Entry) → IsPrefix history now → ((m : ℕ) → m ≢ n → own_entries m now ≡ own_entries m history) → is_engine count n ≡ true → list_all (λ (e : Entry). is_engine count e.caller) history ≡ true → list_all (λ (e : Entry). is_engine count e.caller) now ≡ true }
{}

/// A run that begins is going.
pub fn runs_begin_going()
    ensures { (s : Setup) (steps : ℕ) (workers : ℕ) → Going s (beginning s steps workers) }
{}

/// One event keeps a run going, whichever worker it is of.
pub fn one_event_keeps_going()
    ensures { (s : Setup) (before : Outcome) (place : ℕ) (event : Item) (after : Outcome) → Going s before → GoesOn s before place event after → Going s after }
{}

/// Any list of events keeps a run going, whichever worker each of them is of.
pub fn events_keep_going()
    ensures { (s : Setup) (before : Outcome) (picks : List Pick) (after : Outcome) → Going s before → GoesOnBy s before picks after → Going s after }
{}
