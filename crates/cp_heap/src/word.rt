/// What stands at one place of a heap: a variable with its number, an integer, an atom with the place of its name in the
/// table of names, or a compound with its arity, the place of its name, and the place of its first argument. The arguments
/// stand side by side, below their compound.
#[derive(Debug, Clone, Copy, Drop)]
pub enum Word {
    Variable(u32),
    Integer(i64),
    Atom(u32),
    Compound(u16, u32, u32),
}
