ghost use Rattle.std.specs.Prelude.{◌≡◌, ◌<◌, length, IfSome};
ghost use Rattle.std.specs.Option.{option_map};
ghost use Rattle.cp_heap.specs.State.{State, instance_at};
ghost use Rattle.cp_heap.specs.declared.reference.Ref.{Ref as RefOf};
ghost use Rattle.cp_code.specs.Properties.{term_at};
ghost use Rattle.cp_props.specs.Patterns.{places_shown, ArePlaces};

use cp_heap::{Heap, Ref};
use cp_list::ListOf;

/// A variable of a pattern, and the term of the heap that stands at its place.
#[derive(Debug, Clone, Copy, Drop)]
pub struct Place {
    pub var: u32,
    pub at: Ref,
}

/// The places of a pattern's variables, in the order of the pattern.
pub type Places = ListOf<Place>;

/// The term at the place of a variable.
pub(crate) fn place_of(heap: &Heap, places: &Places, var: u32) -> Option<Ref>
    requires { ArePlaces heap.now places.now }
    ensures term { option_map (λ (r : RefOf). instance_at heap.now r.at) result ≡ term_at var (places_shown heap.now places.now) }
    ensures live { IfSome result (λ r. r.at < length heap.now.terms) }
{
    for place in places.as_slice() {
        if place.var == var {
            return Some(place.at);
        }
    }
    None
}
