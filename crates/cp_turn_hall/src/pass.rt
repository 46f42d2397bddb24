use crate::grown::GrownRow;
use cp_list::ListOf;
use cp_turn::Pass;
use std::marker::Model;

/// A caller's pass of one object.
#[derive(Drop)]
pub struct ObjectPass {
    pub pass: Pass<GrownRow>,
    /// How often the caller has looked in vain since it was parked there, or `u64::MAX`.
    pub looked: u64,
}

/// The passes of one caller, one for each object of a hall.
#[derive(Drop)]
pub struct HallPass {
    pub(crate) number: u32,
    pub(crate) places: Vec<ObjectPass>,
}

/// The passes of callers, in a list.
pub type HallPasses = ListOf<HallPass>;

impl Model for HallPass {
    ghost use Rattle.cp_turn_hall.specs.Behind.{HallPassView};

    ghost Value = { HallPassView };

    ghost view = { λ p. record { number = p.number; places = p.places.items } };
}

impl HallPass {
    ghost use Rattle.std.specs.Prelude.{◌≡◌};

    /// Its caller's number, from 1.
    pub fn number(&self) -> u32
        ensures { result ≡ self.now.number }
    {
        self.number
    }
}
