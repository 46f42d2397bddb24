use crate::grown::GrownRow;
use crate::pass::{HallPass, HallPasses};
use cp_turn::Turnstile;
use std::alloc::Global;
use std::marker::Model;

/// Shared objects, each behind a turnstile of its own. Contracts see the turnstiles, by the objects' numbers.
#[derive(Drop)]
pub struct TurnHall {
    pub(crate) alloc: Global,
    pub(crate) turnstiles: Vec<Turnstile<GrownRow>>,
}

impl Model for TurnHall {
    ghost use Rattle.std.specs.Prelude.{List};
    ghost use Rattle.cp_turn.specs.Passes.{TurnstileView};
    ghost use Rattle.cp_hall.specs.declared.hall.HallRow.{HallRow};

    ghost Value = { List (TurnstileView HallRow) };

    ghost view = { λ h. h.turnstiles.items };
}

impl TurnHall {
    ghost use Rattle.std.specs.Prelude.{◌<◌, ◌≡◌, length, Some, slice_get};

    // The turnstile of an object.
    pub(crate) fn turnstile(&self, object: u32) -> &Turnstile<GrownRow>
        requires { object < length self.now }
        ensures { slice_get self.now object ≡ Some result.now }
    {
        &self.turnstiles[object as usize]
    }
}

fn moves<X: Send>() {}

fn is_shared<X: Sync>() {}

// Threads may share a hall, and the passes of its callers may move to them.
fn crosses_threads() {
    is_shared::<TurnHall>();
    moves::<TurnHall>();
    moves::<HallPass>();
    moves::<HallPasses>();
}
