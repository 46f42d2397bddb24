use cp_heap::Ref;

/// What is done with the reply to a call: a fact is looked for, and unified with a term of the heap, or waited for once, by
/// the copy that was handed out; something is added, removed, closed or opened; or a goal is posted, whose number is
/// unified with a term of the heap.
#[derive(Debug, Clone, Copy, PartialEq, Eq, Drop)]
pub enum Manner {
    Finds(Ref),
    FindsOnce,
    Changes,
    Posts(Ref),
}
