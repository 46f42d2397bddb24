/// A binding: the variable, and the place of its term.
#[derive(Debug, Clone, Copy, Drop)]
pub struct Bound {
    pub variable: u32,
    pub at: u32,
}
