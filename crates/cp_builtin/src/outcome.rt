use cp_term::Term;

/// How a builtin goal ends. An error is raised with its ball, whose context is the goal.
#[derive(Debug, Drop)]
pub enum Outcome1 {
    Succeeds,
    Fails,
    Raises(Term),
}
