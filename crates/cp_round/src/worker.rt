ghost use Rattle.std.specs.Prelude.{◌≡◌, length};
ghost use Rattle.cp_round.specs.Worker.{IsTied, HasWorked};

use crate::bells::Bells;
use crate::ringing::Ringing;
use cp_call::{Asker, Caller, Machine, Writer};
use cp_shell::Shell;
use std::alloc::AllocError;
use std::marker::Model;
use std::sync::Wait;

/// A worker of a crew: the shell of an engine, whom it asks, where it writes, and who calls remote goals for it.
#[derive(Drop)]
pub struct Worker<'a, M: Machine, A: Asker + Drop, P: Writer + Drop, C: Caller> {
    shell: Shell<M>,
    asker: Ringing<'a, A>,
    port: P,
    caller: C,
}

impl<'a, M: Machine, A: Asker + Drop, P: Writer + Drop, C: Caller> Model
    for Worker<'a, M, A, P, C> {
    ghost use Rattle.cp_round.specs.Worker.{WorkerView, IsTied};

    ghost Value = { WorkerView M A P C };

    ghost view = { λ w. record { shell = w.shell; asker = w.asker.asker; port = w.port; caller = w.caller } };

    ghost invariant = { λ w. IsTied (M.Rule.asks (M.code w.shell.machine)) (M.Rule.objects (M.code w.shell.machine)) (A.objects w.asker.asker) (A.serves w.asker.asker) (P.serves w.port) (A.seen w.asker.asker) (P.wrote w.port) w.shell.number w.shell.items };
}

impl<'a, M: Machine, A: Asker + Drop, P: Writer + Drop, C: Caller> Worker<'a, M, A, P, C> {
    ghost use Rattle.std.specs.Prelude.{◌≡◌};
    ghost use Rattle.cp_round.specs.Worker.{WorkerView, IsTied, HasWorked};

    /// The worker of a shell, whose events are tied to what it is to ask and write by.
    pub fn new(shell: Shell<M>, asker: A, port: P, caller: C, bells: &'a Bells) -> Self
        requires { IsTied (M.Rule.asks (M.code shell.machine)) (M.Rule.objects (M.code shell.machine)) (A.objects asker) (A.serves asker) (P.serves port) (A.seen asker) (P.wrote port) shell.number shell.items }
        ensures { result ≡ record { shell = shell; asker = asker; port = port; caller = caller } }
    {
        Worker {
            shell,
            asker: Ringing { asker, bells },
            port,
            caller,
        }
    }

    /// Drives the engine by one turn, and answers whether it stands parked.
    fn take_turn(&mut self) -> Result<bool, AllocError>
        ensures { HasWorked M.code A.stays P.stays C.went self.old self.new }
    {
        self.shell
            .drive_one(&mut self.asker, &mut self.port, &mut self.caller)
    }

    /// The bells of its round.
    fn bells(&self) -> &'a Bells {
        self.asker.bells
    }

    fn number(&self) -> u32 {
        self.shell.number()
    }

    /// Drives the engine, one turn after another. Where the engine stands parked the worker waits at its bell, and it ends
    /// with the round, or where memory stops the engine.
    pub fn work<R: Wait>(&mut self, rt: &R)
        ensures { HasWorked M.code A.stays P.stays C.went self.old self.new }
    {
        let bells = self.bells();
        let number = self.number();
        for _ in rt.forever() {
            match self.take_turn() {
                Err(_) => {
                    bells.leave(number);
                    return;
                }
                Ok(parked) => {
                    if parked && !bells.wait(rt, number) {
                        return;
                    }
                }
            }
        }
        unreachable!()
    }

    /// What the worker was made of, as it is now.
    pub fn into_parts(self) -> (Shell<M>, A, P, C)
        ensures shell { result.0 ≡ self.entry.shell }
        ensures asker { result.1 ≡ self.entry.asker }
        ensures port { result.2 ≡ self.entry.port }
        ensures caller { result.3 ≡ self.entry.caller }
        ensures tied { IsTied (M.Rule.asks (M.code self.entry.shell.machine)) (M.Rule.objects (M.code self.entry.shell.machine)) (A.objects self.entry.asker) (A.serves self.entry.asker) (P.serves self.entry.port) (A.seen self.entry.asker) (P.wrote self.entry.port) self.entry.shell.number self.entry.shell.items }
    {
        let Worker {
            shell,
            asker,
            port,
            caller,
        } = self;
        let Ringing { asker, bells: _ } = asker;
        (shell, asker, port, caller)
    }
}
