//! The words that engines, shared objects and the outside have in common, and the rules that a run obeys.
#![tactic(auto)]

mod asked;
mod call;
mod copies;
mod event_laws;
mod item;
mod laws;
mod outcome;
mod refused;
mod traits;
mod wire;

pub use asked::Asked;
pub use call::{Call, Callers, Entries, Entry, FullBy, ObjectKind, ObjectName, Reply, Terms};
pub use copies::copy_of;
pub use event_laws::{
    added_events_agree, added_events_join, callers_stay_engines, ended_workers_are_tied,
    events_keep_going, events_of_others_agree, new_workers_run, one_event_keeps_going,
    replied_calls_add_an_event, runs_begin_going, silent_events_are_added, tied_engines_join,
    unanswered_calls_add_nothing, workers_run_on, writes_add_an_event,
};
pub use item::{
    How, Input, Item, Items, Next, PutReply, RemoteAnswers, RemoteCall, RemoteEnd, RemoteReply,
};
pub use laws::{
    calls_keep_calm, facts_are_taken_once, histories_leave_calm, legal_histories_grow,
    parked_callers_were_told, steps_are_never_full, waiting_workers_rest,
};
pub use outcome::{
    EngineEnd, EngineEnds, FactRow, FactRows, OutEntries, OutEntry, Outcome, ParkedRow, ParkedRows,
    PredEnd, PredEnds, Stand,
};
pub use refused::Refused;
pub use traits::{Asker, Asks, Caller, Machine, Writer};
pub use wire::wire_size;
