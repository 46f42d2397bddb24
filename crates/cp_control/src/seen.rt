ghost use Rattle.std.specs.Prelude.{◌≡◌, ◌<◌, length, IfOk};
ghost use Rattle.cp_heap.specs.State.{term};
ghost use Rattle.cp_code.specs.Bodies.{body_of};
ghost use Rattle.cp_control.specs.Control.{body_read, HasParts, IsNotWithin};

use crate::control::Control;
use cp_heap::{Heap, Ref, Word};
use cp_term::Name;
use std::alloc::AllocError;

/// A term in the place of a goal without the modules in front of it, and the module that sees it.
#[derive(Debug, Drop)]
pub struct Seen {
    pub seer: Name,
    pub at: Ref,
    pub control: Control,
}

impl Seen {
    /// The term at a place, as the module `seer` sees it, without the bindings. Of several modules the inner one counts.
    pub fn of(heap: &Heap, seer: Name, at: Ref) -> Result<Seen, AllocError>
        requires { at.at < length heap.now.terms }
        ensures body { IfOk result (λ s. body_of seer (term heap.now at.at) ≡ body_read heap.now.terms s.at.at s.control s.seer) }
        ensures place { IfOk result (λ s. s.at.at < length heap.now.terms) }
        ensures parts { IfOk result (λ s. HasParts s.at.at s.control) }
        ensures inner { IfOk result (λ s. IsNotWithin s.control) }
    {
        let mut seer = seer;
        let mut at = at;
        'modules: loop {
            let control = Control::of(heap, at);
            let Control::Within(inner, goal) = control else {
                return Ok(Seen { seer, at, control });
            };
            let Word::Atom(name) = heap.word(inner) else {
                return Ok(Seen {
                    seer,
                    at,
                    control: Control::NoGoal,
                });
            };
            seer = heap.name_at(name).clone()?;
            at = goal;
        }
    }
}
