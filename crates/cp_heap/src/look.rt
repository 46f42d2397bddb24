use crate::reference::Ref;

/// The first cell of a term. A variable is given with its number.
#[derive(Debug, Clone, Copy, Drop)]
pub enum Look {
    Var(Ref, u64),
    Int(i64),
    Atom,
    Func(u16),
}
