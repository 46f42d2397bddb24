ghost use Rattle.std.specs.Prelude.{◌≡◌, true, false, ℕ, List, [], ◌∷◌, ◌++◌, length, IsTrue, IfOk, OnOk, IsErr, MatchResult, is_some};
ghost use Rattle.cp_call.specs.declared.item.Item.{Item};
ghost use Rattle.cp_call.specs.Added.{HasAdded, AsksForOne, WritesForOne, Leads};
ghost use Rattle.cp_call.specs.Life as life;
ghost use Rattle.cp_call.specs.Running.{IsRunning};
ghost use Rattle.cp_shell.specs.Parked.{HasMadeAtMost, is_remote_request, parked_object};
ghost use Rattle.cp_shell.specs.Shell.{HasTakenTurn, HasEnded, IfParked, IsParkedOn};

use crate::ask::ItemRoom;
use crate::driven::Driven;
use crate::stage::Stage;
use crate::whole_turn::make_turn;
use cp_call::{Asker, Caller, EngineEnd, Machine, Stand, Writer};
use std::alloc::{AllocError, Global};
use std::marker::Model;

/// The shell of a worker: it drives a machine through the worker's life, and keeps what the worker did. Contracts see its
/// number, the machine, the events and whether memory has stopped it. Once memory has stopped a shell it answers so from
/// then on, and its events still say what was done.
#[derive(Drop)]
pub struct Shell<M: Machine> {
    alloc: Global,
    number: u32,
    machine: M,
    items: ItemRoom,
    // the object where the last event has left the worker parked
    parked: Option<u32>,
    // None once memory has stopped the shell
    stage: Option<Stage>,
}

impl<M: Machine> Model for Shell<M> {
    ghost use Rattle.std.specs.Prelude.{is_none};
    ghost use Rattle.cp_shell.specs.Shell.{ShellView, IsKeptShell};

    ghost Value = { ShellView M };

    ghost view = { λ s. record { number = s.number; machine = s.machine; items = s.items.items; is_stopped = is_none s.stage } };

    ghost invariant = { λ s. IsKeptShell (M.Rule.asks (M.code s.machine)) (M.Rule.objects (M.code s.machine)) (M.continuation s.machine) (M.failed s.machine) s.items.items s.parked s.stage };
}

impl<M: Machine> Shell<M> {
    /// The shell of a worker that has done nothing yet, under this number. It takes no memory.
    pub fn new(alloc: Global, number: u32, machine: M) -> Shell<M>
        ensures number { result.number ≡ number }
        ensures machine { result.machine ≡ machine }
        ensures items { result.items ≡ [] }
        ensures works { result.is_stopped ≡ false }
    {
        Shell {
            alloc,
            number,
            machine,
            items: ItemRoom::new(alloc),
            parked: None,
            stage: Some(Stage::Idle),
        }
    }

    /// The number of the worker.
    pub fn number(&self) -> u32
        ensures { result ≡ self.now.number }
    {
        self.number
    }

    /// Whether memory has stopped the shell.
    pub fn is_stopped(&self) -> bool
        ensures { result ≡ self.now.is_stopped }
    {
        self.stage.is_none()
    }

    /// The object where the last event has left the worker parked, if it has. The worker may have been woken since.
    pub fn parked_object(&self) -> Option<u32>
        ensures { self.now.is_stopped ≡ false → result ≡ parked_object self.now.items }
    {
        self.parked
    }

    /// The object on which the worker is parked.
    fn parked_on(&self) -> Driven
        requires works { self.now.is_stopped ≡ false }
        requires parked { is_some (parked_object self.now.items) ≡ true }
        ensures { IsParkedOn (parked_object self.now.items) result }
    {
        match self.parked {
            Some(object) => Driven::Parked { object },
            None => unreachable!(),
        }
    }

    /// Makes one event and then the remote calls that are due before the next one, or nothing where the worker is still
    /// parked. It answers whether the worker is parked now, and then the same call is asked again later.
    pub fn drive_one<A: Asker, P: Writer, C: Caller>(
        &mut self,
        asker: &mut A,
        port: &mut P,
        caller: &mut C,
    ) -> Result<bool, AllocError>
        requires objects { M.Rule.objects (M.code self.old.machine) ≡ length (A.objects asker.old) }
        requires asks { IsTrue (A.serves asker.old self.old.number) }
        requires writes { IsTrue (P.serves port.old self.old.number) }
        requires running { self.old.is_stopped ≡ false → IsRunning (M.Rule.asks (M.code self.old.machine)) (A.objects asker.old) (A.seen asker.old self.old.number) (P.wrote port.old self.old.number) self.old.number self.old.items }
        ensures number { self.new.number ≡ self.old.number }
        ensures code { M.code self.new.machine ≡ M.code self.old.machine }
        ensures added { (added : List Item) × (self.new.items ≡ self.old.items ++ added) × HasAdded (A.objects asker.old) (A.seen asker.old self.old.number) (A.seen asker.new self.old.number) (P.wrote port.old self.old.number) (P.wrote port.new self.old.number) self.old.number added × OnOk result (Leads C.went caller.old added caller.new) }
        ensures life { life.IsWorkersLife (M.Rule.asks (M.code self.old.machine)) self.old.items → life.IsWorkersLife (M.Rule.asks (M.code self.old.machine)) self.new.items }
        ensures turn { MatchResult result (λ parked. HasTakenTurn (A.objects asker.old) (A.seen asker.new self.old.number) self.old.number self.old.items self.new.items) (λ e. HasMadeAtMost self.old.items self.new.items) }
        ensures parked { IfOk result (λ parked. parked ≡ is_some (parked_object self.new.items)) }
        ensures settled { OnOk result (is_remote_request (life.pending_request (M.Rule.asks (M.code self.old.machine)) self.new.items) ≡ false) }
        ensures stopped { MatchResult result (λ parked. self.new.is_stopped ≡ false) (λ e. self.new.is_stopped ≡ true) }
        ensures stays_stopped { self.old.is_stopped ≡ true → IsErr result × (self.new ≡ self.old) }
        ensures others { AsksForOne self.old.number (A.objects asker.old) (A.objects asker.new) (A.serves asker.old) (A.serves asker.new) (A.seen asker.old) (A.seen asker.new) (A.looked asker.old) (A.looked asker.new) }
        ensures others_written { WritesForOne self.old.number (P.serves port.old) (P.serves port.new) (P.wrote port.old) (P.wrote port.new) }
        ensures asker { A.stays asker.old asker.new }
        ensures port { P.stays port.old port.new }
    {
        match self.stage.take() {
            None => Err(AllocError),
            Some(stage) => {
                let turn = make_turn(
                    self.alloc,
                    &mut self.machine,
                    stage,
                    self.number,
                    &mut self.items,
                    asker,
                    port,
                    caller,
                )?;
                let parked = turn.parked;
                self.parked = parked;
                self.stage = Some(turn.stage);
                Ok(parked.is_some())
            }
        }
    }

    /// Gives the worker up, as where memory stops it.
    fn stop(&mut self)
        ensures { self.new ≡ record { number = self.old.number; machine = self.old.machine; items = self.old.items; is_stopped = true } }
    {
        let _stage = self.stage.take();
    }

    /// Makes one event after another, each with the remote calls that are due after it, until the worker is parked or memory
    /// stops the shell. A worker that is still parked makes none.
    pub fn drive<A: Asker, P: Writer, C: Caller>(
        &mut self,
        asker: &mut A,
        port: &mut P,
        caller: &mut C,
    ) -> Driven
        requires objects { M.Rule.objects (M.code self.old.machine) ≡ length (A.objects asker.old) }
        requires asks { IsTrue (A.serves asker.old self.old.number) }
        requires writes { IsTrue (P.serves port.old self.old.number) }
        requires running { self.old.is_stopped ≡ false → IsRunning (M.Rule.asks (M.code self.old.machine)) (A.objects asker.old) (A.seen asker.old self.old.number) (P.wrote port.old self.old.number) self.old.number self.old.items }
        ensures number { self.new.number ≡ self.old.number }
        ensures code { M.code self.new.machine ≡ M.code self.old.machine }
        ensures added { (added : List Item) × (self.new.items ≡ self.old.items ++ added) × HasAdded (A.objects asker.old) (A.seen asker.old self.old.number) (A.seen asker.new self.old.number) (P.wrote port.old self.old.number) (P.wrote port.new self.old.number) self.old.number added × IfParked result (Leads C.went caller.old added caller.new) }
        ensures life { life.IsWorkersLife (M.Rule.asks (M.code self.old.machine)) self.old.items → life.IsWorkersLife (M.Rule.asks (M.code self.old.machine)) self.new.items }
        ensures ended { HasEnded (A.objects asker.old) (A.seen asker.new self.old.number) self.old.number self.old.items self.new.items self.new.is_stopped result }
        ensures stays_stopped { self.old.is_stopped ≡ true → self.new ≡ self.old }
        ensures others { AsksForOne self.old.number (A.objects asker.old) (A.objects asker.new) (A.serves asker.old) (A.serves asker.new) (A.seen asker.old) (A.seen asker.new) (A.looked asker.old) (A.looked asker.new) }
        ensures others_written { WritesForOne self.old.number (P.serves port.old) (P.serves port.new) (P.wrote port.old) (P.wrote port.new) }
        ensures asker { A.stays asker.old asker.new }
        ensures port { P.stays port.old port.new }
    {
        for _ in 0..u64::MAX {
            match self.drive_one(asker, port, caller) {
                Ok(false) => {}
                Ok(true) => return self.parked_on(),
                Err(_) => return Driven::Stopped,
            }
        }
        self.stop();
        Driven::Stopped
    }

    /// The worker at the end, as it stands there. It takes no memory.
    pub fn into_end(self, stand: Stand) -> EngineEnd
        ensures { result ≡ record { number = self.number; items = self.items; stand = stand } }
    {
        let Shell {
            alloc: _,
            number,
            machine: _,
            items,
            parked: _,
            stage: _,
        } = self;
        EngineEnd {
            number,
            items: items.into_list(),
            stand,
        }
    }
}
