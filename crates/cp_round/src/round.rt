ghost use Rattle.std.specs.Prelude.{◌≡◌, ◌<◌, ℕ, length, slice_index_or};
ghost use Rattle.cp_round.specs.Worker.{WorkerView, HasWorked};

use crate::worker::Worker;
use cp_call::{Asker, Caller, Machine, Writer};
use std::sync::Wait;
use std::thread;
use std::thread::Threads;

/// Lends each worker to a thread of its own, and ends when all have ended. Where the system has fewer threads than there are
/// workers it may wait for ever.
pub fn run_round<
    R: Threads + Wait + Sync,
    M: Machine + Send,
    A: Asker + Drop + Send,
    P: Writer + Drop + Send,
    C: Caller + Send,
>(rt: &R, workers: &mut [Worker<'_, M, A, P, C>])
where
    M::Rule: Send,
    ensures { (k : ℕ) (d : WorkerView M A P C) → k < length workers.old → HasWorked M.code A.stays P.stays C.went (slice_index_or workers.old k d) (slice_index_or workers.new k d) }
{
    let threads = workers.len();
    if threads == 0 {
        return;
    }
    thread::for_each_mut(rt, workers, threads, &|_, worker| worker.work(rt));
}
