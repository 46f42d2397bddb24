/// What an assertion speaks of (Ciao manual, assertions).
#[derive(Debug, Clone, Copy, PartialEq, Eq, Drop)]
pub enum Kind {
    /// Its calls and their success.
    Pred,
    /// Its calls alone.
    Calls,
    /// Success alone.
    Success,
    /// The computation; it is read and never tested.
    Comp,
}
