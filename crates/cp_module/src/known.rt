/// What is known of a predicate: how many clauses it has, counted up to 4,096, and whether it is declared to be shared.
#[derive(Clone, Copy, Drop)]
pub(crate) struct Known {
    pub(crate) clauses: u16,
    pub(crate) shared: bool,
}
