ghost use Rattle.std.specs.Prelude.{◌≡◌, ◌<◌, ◌≤◌, IfOk};

use cp_call::{Asked, Reply};
use std::alloc::{AllocError, Global};
use std::hint;
use std::sync::Wait;
use std::sync::atomic::{AtomicU64, Ordering};

// What a worker's word says: it is at work, it waits, its bell was rung since it looked last, or it has left.
const AT_WORK: u64 = 0;

const WAITING: u64 = 1;

const RUNG: u64 = 2;

const LEFT: u64 = 3;

// How often a waiting worker looks at its word before it sleeps.
const SPINS: u32 = 200;

/// What the workers of a round, numbered from 1, wait at. A worker that waits sleeps until its bell is rung, or until no
/// worker is at work, which ends the round.
#[derive(Drop)]
pub struct Bells {
    words: Vec<AtomicU64>,
    // how many are at work, or were rung for
    at_work: AtomicU64,
}

impl Bells {
    /// The bells of so many workers, who all are at work.
    pub fn new(alloc: Global, workers: u32) -> Result<Bells, AllocError> {
        let mut words = Vec::with_capacity(alloc, workers as usize)?;
        for _ in 0..workers {
            words.push(AtomicU64::new(AT_WORK))?;
        }
        Ok(Bells {
            words,
            at_work: AtomicU64::new(u64::from(workers)),
        })
    }

    fn word(&self, number: u32) -> Option<&AtomicU64> {
        self.words.get((number as usize).wrapping_sub(1))
    }

    /// Rings the bell of a worker. Who rings is at work. A worker that waits is counted as at work before it is told, so that
    /// the count is not 0 between.
    pub fn ring(&self, number: u32) {
        let Some(word) = self.word(number) else {
            return;
        };
        self.at_work.fetch_add(1, Ordering::SeqCst);
        if word.swap(RUNG, Ordering::SeqCst) == WAITING {
            word.wake_all();
        } else {
            self.at_work.fetch_sub(1, Ordering::SeqCst);
        }
    }

    /// Rings the bells of those whom a turn woke.
    pub fn ring_for(&self, asked: &Asked) {
        let Asked::Replied(reply) = asked else {
            return;
        };
        match reply {
            Reply::Added { place: _, woken } => self.ring_all(woken.as_slice()),
            Reply::Replaced { place: _, woken } => self.ring_all(woken.as_slice()),
            Reply::Closed { woken } => self.ring_all(woken.as_slice()),
            _ => {}
        }
    }

    fn ring_all(&self, woken: &[u32]) {
        for number in woken {
            self.ring(*number);
        }
    }

    // One worker less is at work. Where it was the last, the round ends for those who wait.
    fn stop(&self) {
        if self.at_work.fetch_sub(1, Ordering::SeqCst) != 1 {
            return;
        }
        for word in self.words.iter() {
            word.store(LEFT, Ordering::SeqCst);
            word.wake_all();
        }
    }

    /// A worker leaves the round.
    pub fn leave(&self, number: u32) {
        if let Some(word) = self.word(number) {
            word.store(LEFT, Ordering::SeqCst);
        }
        self.stop();
    }

    /// Waits until the bell of a worker is rung, and answers that it was, or that the round has ended. Where it was rung since
    /// the worker looked last, it does not wait.
    pub fn wait<R: Wait>(&self, rt: &R, number: u32) -> bool {
        let Some(word) = self.word(number) else {
            return false;
        };
        let waits = word.compare_exchange(AT_WORK, WAITING, Ordering::SeqCst, Ordering::SeqCst);
        if waits.is_err() {
            word.store(AT_WORK, Ordering::SeqCst);
            return true;
        }
        self.stop();
        sleep(rt, word)
    }
}

// Looks for a short while whether the word still says that the worker waits.
fn spin(word: &AtomicU64) {
    for _ in 0..SPINS {
        if word.load(Ordering::SeqCst) != WAITING {
            return;
        }
        hint::spin_loop();
    }
}

// Sleeps as long as the word says that the worker waits.
fn sleep<R: Wait>(rt: &R, word: &AtomicU64) -> bool {
    spin(word);
    for _ in rt.forever() {
        match word.load(Ordering::SeqCst) {
            WAITING => word.park(rt, WAITING as u32),
            RUNG => {
                word.store(AT_WORK, Ordering::SeqCst);
                return true;
            }
            _ => return false,
        }
    }
    unreachable!()
}
