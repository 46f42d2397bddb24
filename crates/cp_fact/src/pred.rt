ghost use Rattle.std.specs.Prelude.{◌≡◌, ◌&&◌, ◌<◌, ◌++◌, [], ◌∷◌, length, vec_len, IsSome, IfSome, IfOk, IfErr, OnOk, OnErr, Some, None};
ghost use Rattle.std.specs.Vec.{vec_capacity};
ghost use Rattle.cp_call.specs.Refusals.{IsPrepared};
ghost use Rattle.cp_call.specs.Object.{step, is_parked, placed_from};
ghost use Rattle.cp_call.specs.History.{Legal, Calm};
ghost use Rattle.cp_call.specs.Store.{state_of, is_still_parked, limit_of};
ghost use Rattle.cp_call.specs.Sound.{IsKept};
ghost use Rattle.cp_fact.specs.Contents.{state_in};
ghost use Rattle.cp_fact.specs.Inside.{placed_facts};

use crate::contents::{Contents, make};
use crate::limits::{is_add_back_of, test};
use crate::look::is_parked_in;
use crate::plan::{Plan, forget, prepared};
use cp_call::{
    Call, Entry, FactRow, FactRows, ObjectKind, ObjectName, ParkedRow, PredEnd, Refused, Reply,
    Terms,
};
use cp_list::ReservedList;
use std::alloc::{AllocError, Global};
use std::marker::Model;

/// A shared object. Contracts see its kind, its opening facts, its history and the call that is prepared, if there is
/// one. Its state is the one that the history leaves; the history is legal and the state calm.
#[derive(Drop)]
pub struct Pred {
    alloc: Global,
    opening: Terms,
    contents: Contents,
    history: ReservedList<Entry>,
    posts: u64,
    cells: u64,
    plan: Option<Plan>,
}

impl Model for Pred {
    ghost use Rattle.cp_call.specs.Store.{StoreView};

    ghost Value = { StoreView };

    ghost use Rattle.cp_fact.specs.Inside.{store_of, IsStore};

    ghost view = { store_of };

    ghost invariant = { IsStore };
}

/// The opening facts at the places from 1 on.
pub fn placed(alloc: Global, opening: &Terms) -> Result<Vec<FactRow>, AllocError>
    ensures { IfOk result (λ rows. rows.items ≡ placed_facts opening.now) }
{
    let mut rows = Vec::new(alloc);
    rows.reserve(opening.len() as usize)?;
    for (i, fact) in opening.as_slice().iter().enumerate() {
        rows.push(FactRow {
            place: i as i64 + 1,
            fact: fact.copy()?,
        })?;
    }
    Ok(rows)
}

/// Takes room for one entry, one fact and one parked caller.
pub fn make_room(history: &mut ReservedList<Entry>, contents: &mut Contents) -> Result<(), Refused>
    ensures history { history.new.items ≡ history.old.items }
    ensures contents { state_in contents.new ≡ state_in contents.old }
    ensures entry_room { OnOk result (0 < history.new.spare) }
    ensures parked_room { OnOk result (0 < contents.new.parked.spare) }
    ensures facts_room { OnOk result (vec_len contents.new.facts < vec_capacity contents.new.facts) }
    ensures err { IfErr result (λ e. e ≡ Refused.NoMemory) }
{
    if history.reserve(1).is_err() {
        return Err(Refused::NoMemory);
    }
    if contents.parked.reserve(1).is_err() {
        return Err(Refused::NoMemory);
    }
    if contents.facts.reserve(1).is_err() {
        return Err(Refused::NoMemory);
    }
    Ok(())
}

impl Pred {
    /// An object with these facts at the places from 1 on. It is open, and nobody is parked.
    pub fn new(alloc: Global, kind: ObjectKind, opening: Terms) -> Result<Pred, AllocError>
        ensures kind { IfOk result (λ pred. pred.kind ≡ kind) }
        ensures opening { IfOk result (λ pred. pred.opening ≡ opening) }
        ensures history { IfOk result (λ pred. pred.history ≡ []) }
        ensures prepared { IfOk result (λ pred. pred.prepared ≡ None) }
    {
        let facts = placed(alloc, &opening)?;
        let count = opening.len();
        Ok(Pred {
            alloc,
            opening,
            contents: Contents {
                kind,
                facts,
                lowest: 1,
                highest: count as i64,
                is_open: true,
                parked: ReservedList::new(alloc),
            },
            history: ReservedList::new(alloc),
            posts: count as u64,
            cells: 0,
            plan: None,
        })
    }

    /// Whether the caller is parked. Its history is legal and its state calm.
    pub fn is_parked(&self, caller: u32) -> bool
        ensures parked { result ≡ is_parked (state_of self.now) caller }
        ensures legal { Legal self.now.kind self.now.opening self.now.history }
        ensures calm { Calm (state_of self.now) }
    {
        is_parked_in(self.contents.parked.as_slice(), caller)
    }

    /// Prepares a call, with all memory that it needs. A call that was prepared earlier is given up.
    pub fn ready(&mut self, caller: u32, call: &Call) -> Result<(), Refused>
        ensures ok { OnOk result (self.new.prepared ≡ Some (record { caller = caller; call = call.now })) }
        ensures err { OnErr result (self.new.prepared ≡ None) }
        ensures history { self.new.history ≡ self.old.history }
        ensures kind { self.new.kind ≡ self.old.kind }
        ensures opening { self.new.opening ≡ self.old.opening }
        ensures legal { Legal self.new.kind self.new.opening self.new.history }

        // Each refusal but that for want of memory comes exactly where it is due.
        ensures refused { IsPrepared (is_still_parked self.old caller call.now) (limit_of self.old call.now) result }
    {
        forget(&mut self.plan);
        let entries = self.history.len() as u64;
        test(
            self.contents.parked.as_slice(),
            self.contents.kind,
            self.posts,
            entries,
            self.cells,
            caller,
            call,
        )?;
        make_room(&mut self.history, &mut self.contents)?;
        let plan = prepared(self.alloc, &self.contents, caller, call)?;
        self.plan = Some(plan);
        Ok(())
    }

    /// Makes the prepared call. It takes no memory.
    pub fn commit(&mut self) -> Reply
        requires { IsSome self.old.prepared }
        ensures reply { IfSome self.old.prepared (λ p. result ≡ (step (state_of self.old) p.caller p.call).reply) }
        ensures history { IfSome self.old.prepared (λ p. self.new.history ≡ self.old.history ++ record { caller = p.caller; call = p.call; reply = result } ∷ []) }
        ensures prepared { self.new.prepared ≡ None }
        ensures kind { self.new.kind ≡ self.old.kind }
        ensures opening { self.new.opening ≡ self.old.opening }
    {
        match self.plan.take() {
            Some(plan) => {
                let Plan {
                    caller,
                    call,
                    recorded,
                    reply,
                    change,
                    cells,
                } = plan;
                make(&mut self.contents, change);
                self.posts = self.posts.saturating_add(is_add_back_of(&call) as u64);
                self.cells = self.cells.saturating_add(cells);
                self.history.put(Entry {
                    caller,
                    call,
                    reply: recorded,
                });
                reply
            }
            None => unreachable!(),
        }
    }

    /// The object at the end, under this name. A call that is prepared is given up.
    pub fn into_end(self, name: ObjectName) -> Result<PredEnd, AllocError>
        ensures kept { IfOk result (IsKept (record { name = name; kind = self.kind; opening = self.opening })) }
        ensures history { IfOk result (λ end. end.history ≡ self.history) }
    {
        let Pred {
            alloc: _,
            opening,
            contents,
            history,
            posts: _,
            cells: _,
            plan: _,
        } = self;
        Ok(PredEnd {
            name,
            opening,
            history: history.into_list(),
            facts: facts_of(contents.facts)?,
            is_open: contents.is_open,
            parked: contents.parked.into_list(),
        })
    }
}

/// The facts as a list, unless they are more than a list can have.
pub fn facts_of(rows: Vec<FactRow>) -> Result<FactRows, AllocError>
    ensures { IfOk result (λ facts. facts ≡ rows.items) }
{
    if 0xffff_ffff < rows.len() {
        return Err(AllocError);
    }
    Ok(FactRows::from_vec(rows))
}
