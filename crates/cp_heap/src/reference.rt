use cp_list::ListOf;

/// A term of the heap that gave it, as its place there.
#[derive(Debug, Clone, Copy, PartialEq, Eq, Drop)]
pub struct Ref {
    pub at: u32,
}

/// Terms of a heap, as a list of their places.
pub type Refs = ListOf<Ref>;
