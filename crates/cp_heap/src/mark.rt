/// How far a heap had grown when the mark was made: the numbers of its terms, bindings and variables.
#[derive(Debug, Clone, Copy, Drop)]
pub struct Mark {
    pub terms: u32,
    pub bindings: u32,
    pub variables: u32,
}
