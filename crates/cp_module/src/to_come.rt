/// What has to stand behind the first cell of a goal.
#[derive(Clone, Copy, Drop)]
pub(crate) enum Behind {
    /// Nothing makes a goal of it.
    NoGoal,
    /// So many goals.
    Goals(u16),
    /// The name of a module, and a goal.
    Qualified,
    /// So many terms, whatever they are.
    Terms(u16),
}

/// What is to come of a term that is read as a goal, cell by cell: first the name of a module, if it is to come, then
/// terms that may be anything, then goals.
#[derive(Clone, Copy, Drop)]
pub(crate) struct ToCome {
    pub(crate) named: bool,
    pub(crate) terms: u64,
    pub(crate) goals: u64,
}
