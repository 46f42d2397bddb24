use crate::gate::{Gate, GatePlace};
use std::thread;
use std::time::{Clock, Duration};

// how long a waiting worker sleeps between two looks
const PAUSE_MILLIS: u64 = 1;

/// A gate at which a waiting worker sleeps for a millisecond between two looks.
#[derive(Drop)]
pub struct SleepGate<'a, R: Clock> {
    rt: &'a R,
}

impl<'a, R: Clock> SleepGate<'a, R> {
    pub fn new(rt: &'a R) -> Self {
        SleepGate { rt }
    }
}

impl<R: Clock> Gate for SleepGate<'_, R> {
    fn at(&self, _engine: u32, _place: GatePlace) {}

    fn pause(&self) {
        thread::sleep(self.rt, Duration::from_millis(PAUSE_MILLIS));
    }
}
