ghost use Rattle.std.specs.Prelude.{◌≡◌};

use cp_goal::Why;
use std::alloc::AllocError;

/// What ends an evaluation early.
#[derive(Debug, Drop)]
pub enum Stop {
    NoValue(Why),
    NoMemory,
}

impl From<AllocError> for Stop {
    ghost use Rattle.cp_arith.specs.declared.stop.Stop.TheVariants.{NoMemory};

    ghost from_gives = { λ _ e. e ≡ NoMemory };

    fn from(_error: AllocError) -> Stop {
        Stop::NoMemory
    }
}
