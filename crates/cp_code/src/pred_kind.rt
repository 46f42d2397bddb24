/// What kind of predicate it is.
#[derive(Debug, Clone, Copy, PartialEq, Eq, Drop)]
pub enum PredKind {
    /// Rules and facts, which are tried in textual order.
    Rules,
    /// Declared `concurrent`: a shared predicate, by its number among the shared objects, from 2.
    Concurrent(u32),
    /// Declared `data`: a shared predicate that never parks a caller, by its number among the shared objects, from 2.
    Plain(u32),
    /// A predicate of an active module, by the place of its peer in the program's list, from 0.
    Remote(u32),
}
