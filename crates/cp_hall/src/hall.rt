ghost use Rattle.std.specs.Prelude.{◌≡◌, ◌<◌, ◌++◌, [], ◌∷◌, true, IfSome, IfOk, OnOk, OnErr, length, slice_get, map};
ghost use Rattle.cp_call.specs.Object.{step, is_parked};
ghost use Rattle.cp_call.specs.History.{Legal};
ghost use Rattle.cp_call.specs.Store.{state_of, is_still_parked, limit_of};
ghost use Rattle.cp_call.specs.Sound.{Object, IsKept, AreKept};
ghost use Rattle.cp_call.specs.Asker.{entry_added, IsFullBy, IsStill};
ghost use Rattle.cp_hall.specs.Hall.{objects_of, histories_of, ended_histories, history_at, with_more, state_now, AreLegal, IsAnswer, IsAnswered, IsConsistent, CanEnd, hall_object};

use cp_call::{
    Asked, Asker, Call, ObjectKind, ObjectName, PredEnd, PredEnds, Refused, Reply, Terms,
};
use cp_counted::Steps;
use cp_factindex::Pred;
use std::alloc::{AllocError, Global};
use std::marker::{Brand, Model};
use std::sync::ledger::{Blank, Ledger};

/// One shared object with its name.
#[derive(Drop)]
pub struct HallRow {
    pub name: ObjectName,
    pub pred: Pred,
}

/// All shared objects of a run, by number. Contracts see the list of the objects, each as it began and with its history.
#[derive(Drop)]
pub struct PlainHall {
    alloc: Global,
    rows: Vec<HallRow>,
}

impl Model for PlainHall {
    ghost use Rattle.std.specs.Prelude.{List, map};
    ghost use Rattle.cp_hall.specs.Hall.{HallObject, hall_object, AreLegal};

    ghost Value = { List HallObject };

    ghost view = { λ h. map hall_object h.rows.items };

    ghost invariant = { λ h. AreLegal (map hall_object h.rows.items) };
}

/// Asks one object, whatever its name.
pub fn ask_one(pred: &mut Pred, caller: u32, call: &Call) -> Asked
    ensures kind { pred.new.kind ≡ pred.old.kind }
    ensures opening { pred.new.opening ≡ pred.old.opening }
    ensures history { pred.new.history ≡ pred.old.history ++ entry_added caller call.now result }
    ensures legal { Legal pred.new.kind pred.new.opening pred.new.history }
    ensures answer { IsAnswer (is_still_parked pred.old caller call.now) (limit_of pred.old call.now) (step (state_of pred.old) caller call.now).reply result }
    ensures full { (o : Object) → o.kind ≡ pred.old.kind → o.opening ≡ pred.old.opening → IsFullBy (Some o) pred.new.history caller call.now result }
    ensures still { (o : Object) → o.kind ≡ pred.old.kind → o.opening ≡ pred.old.opening → IsStill (Some o) pred.new.history caller call.now result }
{
    ask_from::<Brand>(pred, Blank::new(1), caller, call)
}

/// Asks one object, and counts the steps in a new counter.
fn ask_from<L: Ledger>(pred: &mut Pred, blank: Blank, caller: u32, call: &Call) -> Asked
    requires name { blank.name ≡ L.name }
    requires parts { blank.parts ≡ L.parts }
    requires some { 0 < blank.parts }
    ensures kind { pred.new.kind ≡ pred.old.kind }
    ensures opening { pred.new.opening ≡ pred.old.opening }
    ensures history { pred.new.history ≡ pred.old.history ++ entry_added caller call.now result }
    ensures legal { Legal pred.new.kind pred.new.opening pred.new.history }
    ensures answer { IsAnswer (is_still_parked pred.old caller call.now) (limit_of pred.old call.now) (step (state_of pred.old) caller call.now).reply result }
    ensures full { (o : Object) → o.kind ≡ pred.old.kind → o.opening ≡ pred.old.opening → IsFullBy (Some o) pred.new.history caller call.now result }
    ensures still { (o : Object) → o.kind ≡ pred.old.kind → o.opening ≡ pred.old.opening → IsStill (Some o) pred.new.history caller call.now result }
{
    let mut steps = Steps::<L>::new(blank);
    match pred.ready_counted(caller, call, &mut steps) {
        Ok(()) => Asked::Replied(pred.commit()),
        Err(Refused::StillParked) => Asked::StillParked,
        Err(Refused::Full { by, count }) => Asked::Replied(Reply::Full { by, count }),
        Err(Refused::NoMemory) => Asked::NoMemory,
    }
}

impl PlainHall {
    /// A hall with no objects.
    pub fn new(alloc: Global) -> PlainHall
        ensures { result ≡ [] }
    {
        PlainHall {
            alloc,
            rows: Vec::new(alloc),
        }
    }

    /// Adds an object under the next number. It has the opening facts, is open, and nobody has asked it yet.
    pub fn add(
        &mut self,
        name: ObjectName,
        kind: ObjectKind,
        opening: Terms,
    ) -> Result<(), AllocError>
        ensures ok { OnOk result (self.new ≡ self.old ++ record { object = record { name = name; kind = kind; opening = opening }; history = [] } ∷ []) }
        ensures err { OnErr result (self.new ≡ self.old) }
    {
        let pred = Pred::new(self.alloc, kind, opening)?;
        self.rows.push(HallRow { name, pred })?;
        Ok(())
    }

    /// Whether the caller is parked on the object.
    pub fn is_parked(&self, object: u32, caller: u32) -> bool
        requires { object < length (objects_of self.now) }
        ensures parked { IfSome (slice_get self.now object) (λ o. result ≡ is_parked (state_now o) caller) }
        ensures right { IfSome (slice_get self.now object) IsConsistent }
    {
        self.rows[object as usize].pred.is_parked(caller)
    }

    /// Asks an object on behalf of a caller.
    pub fn ask_object(&mut self, object: u32, caller: u32, call: &Call) -> Asked
        requires { object < length (objects_of self.old) }
        ensures hall { self.new ≡ with_more (entry_added caller call.now result) self.old object }
        ensures objects { objects_of self.new ≡ objects_of self.old }
        ensures answer { IfSome (slice_get self.old object) (IsAnswered caller call.now result) }
        ensures full { IsFullBy (slice_get (objects_of self.old) object) (history_at self.new object) caller call.now result }
        ensures still { IsStill (slice_get (objects_of self.old) object) (history_at self.new object) caller call.now result }
    {
        let row = &mut self.rows[object as usize];
        ask_one(&mut row.pred, caller, call)
    }

    /// States what holds of every hall, for a caller who needs it: the history of each object is legal. It does nothing.
    pub fn state_invariant(&self)
        ensures { AreLegal self.now }
    {
        let _rows = &self.rows;
    }

    /// The objects at the end, by number.
    pub fn into_ends(self) -> Result<PredEnds, AllocError>
        ensures kept { IfOk result (AreKept (objects_of self)) }
        ensures histories { IfOk result (λ ends. ended_histories ends ≡ histories_of self) }
        ensures can_end { CanEnd self }
    {
        let PlainHall { alloc, rows } = self;
        let mut ends = PredEnds::new(alloc);
        for row in rows {
            ends.push(end_of(row)?)?;
        }
        Ok(ends)
    }

    /// The objects, each with its name, by number.
    pub fn into_rows(self) -> (Global, Vec<HallRow>)
        ensures rows { map hall_object result.1.items ≡ self }
        ensures legal { AreLegal self }
    {
        let PlainHall { alloc, rows } = self;
        (alloc, rows)
    }

    /// The hall of these objects, by number.
    pub fn from_rows(alloc: Global, rows: Vec<HallRow>) -> PlainHall
        requires { AreLegal (map hall_object rows.items) }
        ensures { result ≡ map hall_object rows.items }
    {
        PlainHall { alloc, rows }
    }

    /// Lets the objects go, which could have ended at this moment. It takes no memory.
    pub fn close(self)
        ensures { CanEnd self }
    {
        let PlainHall { alloc: _, rows: _ } = self;
    }
}

impl Asker for PlainHall {
    ghost use Rattle.std.specs.Prelude.{true};
    ghost use Rattle.cp_hall.specs.Hall.{objects_of, history_at};

    ghost objects = { objects_of };

    ghost serves = { λ h n. true };

    ghost seen = { λ h n p. history_at h p };

    ghost looked = { λ h n p. 0 };

    ghost last_look = { 0 };

    ghost turns = { λ h p. 0 };

    ghost last_turn = { 0 };

    ghost stays = { λ h k. objects_of k ≡ objects_of h };

    ghost use Rattle.std.proofs.Common.{◌≡◌, refl, ◌∙◌};

    ghost stays_here = { λ h. refl };

    ghost stays_on = { λ r s t a b. b ∙ a };

    fn ask(&mut self, object: u32, caller: u32, call: &Call) -> Asked {
        self.ask_object(object, caller, call)
    }
}

/// One object at the end.
pub fn end_of(row: HallRow) -> Result<PredEnd, AllocError>
    ensures kept { IfOk result (IsKept (hall_object row).object) }
    ensures history { IfOk result (λ end. end.history ≡ row.pred.history) }
{
    let HallRow { name, pred } = row;
    pred.into_end(name)
}
