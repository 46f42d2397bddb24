ghost use Rattle.std.specs.Prelude.{◌≡◌, ◌≢◌, ◌≤◌, ◌<◌, ◌+◌, ◌++◌, [], ◌∷◌, length, IsSome, IfSome, IfOk, IfErr, OnOk, OnErr, Some, None};
ghost use Rattle.cp_call.specs.Refusals.{IsPrepared};
ghost use Rattle.cp_call.specs.Object.{step, is_parked, placed_from};
ghost use Rattle.cp_call.specs.History.{Legal, Calm};
ghost use Rattle.cp_call.specs.Store.{state_of, is_still_parked, limit_of};
ghost use Rattle.cp_call.specs.Sound.{IsKept};
ghost use Rattle.cp_factindex.specs.Contents.{facts_in, parked_in, state_in};
ghost use Rattle.cp_factindex.specs.Inside.{placed_facts};
ghost use Rattle.cp_factindex.specs.Steps.{steps_at};

use crate::contents::{Contents, drop_ahead, make};
use crate::limits::{is_add_back_of, test};
use crate::plan::{Plan, prepared};
use crate::waiter::Waiter;
use crate::waiting::Waiting;
use cp_call::{
    Call, Entry, FactRow, FactRows, ObjectKind, ObjectName, ParkedRows, PredEnd, Refused, Reply,
    Terms,
};
use cp_counted::{Steps, key_of};
use cp_keyed::Index;
use cp_list::ReservedList;
use cp_term::Term;
use std::alloc::{AllocError, Global};
use std::collections::BTreeMap;
use std::marker::{Brand, Model};
use std::sync::ledger::{Blank, Ledger};

/// A shared object. Contracts see its kind, its opening facts, its history and the call that is prepared, if there is
/// one. Its state is the one that the history leaves; the history is legal and the state calm.
///
/// Facts are found by place and by the key of their first argument, and parked callers by the key of what they wait
/// for. With n facts a call takes time for a logarithm of n beyond the attempts at unification that it counts; a call
/// that takes out facts takes that time for each of them.
#[derive(Drop)]
pub struct Pred {
    alloc: Global,
    opening: Terms,
    contents: Contents,
    history: ReservedList<Entry>,
    posts: u64,
    cells: u64,
    plan: Option<Plan>,
}

impl Model for Pred {
    ghost use Rattle.cp_call.specs.Store.{StoreView};

    ghost Value = { StoreView };

    ghost use Rattle.cp_factindex.specs.Inside.{store_of, IsStore};

    ghost view = { store_of };

    ghost invariant = { IsStore };
}

/// The opening facts at the places from 1 on.
pub fn placed(alloc: Global, opening: &Terms) -> Result<Index<Term>, AllocError>
    ensures facts { IfOk result (λ facts. facts_in facts.rows ≡ placed_facts opening.now) }
    ensures whole { IfOk result (λ facts. facts.whole ≡ facts.rows) }
{
    let mut facts = Index::new(alloc);
    for (i, fact) in opening.as_slice().iter().enumerate() {
        facts.put_back(key_of(fact)?, i as i64 + 1, fact.copy()?)?;
        facts.show();
    }
    Ok(facts)
}

impl Pred {
    /// An object with these facts at the places from 1 on. It is open, and nobody is parked.
    pub fn new(alloc: Global, kind: ObjectKind, opening: Terms) -> Result<Pred, AllocError>
        ensures kind { IfOk result (λ pred. pred.kind ≡ kind) }
        ensures opening { IfOk result (λ pred. pred.opening ≡ opening) }
        ensures history { IfOk result (λ pred. pred.history ≡ []) }
        ensures prepared { IfOk result (λ pred. pred.prepared ≡ None) }
    {
        let facts = placed(alloc, &opening)?;
        let count = opening.len();
        Ok(Pred {
            alloc,
            opening,
            contents: Contents {
                kind,
                facts,
                lowest: 1,
                highest: count as i64,
                is_open: true,
                waiting: Waiting::new(alloc),
            },
            history: ReservedList::new(alloc),
            posts: count as u64,
            cells: 0,
            plan: None,
        })
    }

    /// Whether the caller is parked. Its history is legal and its state calm.
    pub fn is_parked(&self, caller: u32) -> bool
        ensures parked { result ≡ is_parked (state_of self.now) caller }
        ensures legal { Legal self.now.kind self.now.opening self.now.history }
        ensures calm { Calm (state_of self.now) }
    {
        self.contents.waiting.is_parked(caller)
    }

    /// Prepares a call, with all memory that it needs. A call that was prepared earlier is given up.
    pub fn ready(&mut self, caller: u32, call: &Call) -> Result<(), Refused>
        ensures ok { OnOk result (self.new.prepared ≡ Some (record { caller = caller; call = call.now })) }
        ensures err { OnErr result (self.new.prepared ≡ None) }
        ensures history { self.new.history ≡ self.old.history }
        ensures kind { self.new.kind ≡ self.old.kind }
        ensures opening { self.new.opening ≡ self.old.opening }
        ensures legal { Legal self.new.kind self.new.opening self.new.history }

        // Each refusal but that for want of memory comes exactly where it is due.
        ensures refused { IsPrepared (is_still_parked self.old caller call.now) (limit_of self.old call.now) result }
    {
        self.ready_from::<Brand>(Blank::new(1), caller, call)
    }

    /// Prepares a call, and counts the steps in a new counter.
    fn ready_from<L: Ledger>(
        &mut self,
        blank: Blank,
        caller: u32,
        call: &Call,
    ) -> Result<(), Refused>
        requires name { blank.name ≡ L.name }
        requires parts { blank.parts ≡ L.parts }
        requires some { 0 < blank.parts }
        ensures ok { OnOk result (self.new.prepared ≡ Some (record { caller = caller; call = call.now })) }
        ensures err { OnErr result (self.new.prepared ≡ None) }
        ensures history { self.new.history ≡ self.old.history }
        ensures kind { self.new.kind ≡ self.old.kind }
        ensures opening { self.new.opening ≡ self.old.opening }
        ensures legal { Legal self.new.kind self.new.opening self.new.history }
        ensures refused { IsPrepared (is_still_parked self.old caller call.now) (limit_of self.old call.now) result }
    {
        let mut steps = Steps::<L>::new(blank);
        self.ready_counted(caller, call, &mut steps)
    }

    /// Prepares a call as `ready` does. Each attempt at unification is counted as a step.
    pub fn ready_counted<L: Ledger>(
        &mut self,
        caller: u32,
        call: &Call,
        steps: &mut Steps<L>,
    ) -> Result<(), Refused>
        ensures ok { OnOk result (self.new.prepared ≡ Some (record { caller = caller; call = call.now })) }
        ensures err { OnErr result (self.new.prepared ≡ None) }
        ensures history { self.new.history ≡ self.old.history }
        ensures kind { self.new.kind ≡ self.old.kind }
        ensures opening { self.new.opening ≡ self.old.opening }
        ensures legal { Legal self.new.kind self.new.opening self.new.history }

        // Each refusal but that for want of memory comes exactly where it is due.
        ensures refused { IsPrepared (is_still_parked self.old caller call.now) (limit_of self.old call.now) result }

        // Steps are only added, at most as many as the call may need, and none by a call that is refused but for memory.
        ensures counted { steps.old ≤ steps.new }
        ensures steps { steps.new ≤ steps.old + steps_at (state_of self.old) call.now }
        ensures none { IfErr result (λ e. e ≢ Refused.NoMemory → steps.new ≡ steps.old) }
    {
        self.plan = None;
        drop_ahead(&mut self.contents);
        let entries = self.history.len() as u64;
        test(
            self.contents.waiting.is_parked(caller),
            self.contents.kind,
            self.posts,
            entries,
            self.cells,
            call,
        )?;
        if self.history.reserve(1).is_err() {
            return Err(Refused::NoMemory);
        }
        let plan = prepared(self.alloc, &mut self.contents, caller, call, steps)?;
        self.plan = Some(plan);
        Ok(())
    }

    /// Makes the prepared call. It takes no memory.
    pub fn commit(&mut self) -> Reply
        requires { IsSome self.old.prepared }
        ensures reply { IfSome self.old.prepared (λ p. result ≡ (step (state_of self.old) p.caller p.call).reply) }
        ensures history { IfSome self.old.prepared (λ p. self.new.history ≡ self.old.history ++ record { caller = p.caller; call = p.call; reply = result } ∷ []) }
        ensures prepared { self.new.prepared ≡ None }
        ensures kind { self.new.kind ≡ self.old.kind }
        ensures opening { self.new.opening ≡ self.old.opening }
    {
        match self.plan.take() {
            Some(plan) => {
                let Plan {
                    caller,
                    call,
                    recorded,
                    reply,
                    change,
                    cells,
                } = plan;
                make(&mut self.contents, change);
                self.posts = self.posts.saturating_add(is_add_back_of(&call) as u64);
                self.cells = self.cells.saturating_add(cells);
                self.history.put(Entry {
                    caller,
                    call,
                    reply: recorded,
                });
                reply
            }
            None => unreachable!(),
        }
    }

    /// The object at the end, under this name. A call that is prepared is given up.
    pub fn into_end(self, name: ObjectName) -> Result<PredEnd, AllocError>
        ensures kept { IfOk result (IsKept (record { name = name; kind = self.kind; opening = self.opening })) }
        ensures history { IfOk result (λ end. end.history ≡ self.history) }
    {
        let Pred {
            alloc,
            opening,
            contents,
            history,
            posts: _,
            cells: _,
            plan: _,
        } = self;
        let Contents {
            kind: _,
            facts,
            lowest: _,
            highest: _,
            is_open,
            waiting,
        } = contents;
        Ok(PredEnd {
            name,
            opening,
            history: history.into_list(),
            facts: facts_of(alloc, facts.into_rows())?,
            is_open,
            parked: parked_of(alloc, waiting.into_rows())?,
        })
    }
}

/// The facts as a list, in order of place.
pub fn facts_of(alloc: Global, rows: BTreeMap<i64, Term, Global>) -> Result<FactRows, AllocError>
    ensures { IfOk result (λ facts. facts ≡ facts_in rows.entries) }
{
    let mut facts = FactRows::new(alloc);
    for (place, fact) in rows {
        facts.push(FactRow { place, fact })?;
    }
    Ok(facts)
}

/// The parked callers as a list, in the order in which they were parked.
pub fn parked_of(
    alloc: Global,
    rows: BTreeMap<i64, Waiter, Global>,
) -> Result<ParkedRows, AllocError>
    ensures { IfOk result (λ parked. parked ≡ parked_in rows.entries) }
{
    let mut parked = ParkedRows::new(alloc);
    for (_, waiter) in rows {
        let Waiter { row } = waiter;
        parked.push(row)?;
    }
    Ok(parked)
}
