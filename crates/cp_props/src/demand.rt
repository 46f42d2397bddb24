use cp_heap::Ref;
use cp_list::ListOf;
use cp_term::Name;

/// That the term at a place has the property of this name.
#[derive(Debug, Drop)]
pub struct Demand {
    pub name: Name,
    pub at: Ref,
}

/// What has to be met, all of it.
pub type Demands = ListOf<Demand>;
