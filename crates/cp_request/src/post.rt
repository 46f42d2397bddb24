use cp_heap::Ref;

/// The arguments of `eng_call(Goal, Engine, Thread, Id)`.
#[derive(Debug, Clone, Copy, PartialEq, Eq, Drop)]
pub struct PostGoal {
    pub goal: Ref,
    /// `create`, or an error.
    pub engine: Ref,
    /// `create`, or an error.
    pub thread: Ref,
    /// A variable, or an error.
    pub id: Ref,
}
