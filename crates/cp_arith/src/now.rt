use cp_heap::Ref;

/// Where an evaluation stands.
#[derive(Debug, Clone, Copy, Drop)]
pub enum Now {
    /// Before the expression at this place.
    At(Ref),
    /// Behind an expression with this value.
    Behind(i64),
}
