use crate::clause::Clauses;
use cp_list::ListOf;
use cp_term::Name;

/// A regular type: its name and its clauses, `t(P)` or `t(P) :- B`.
#[derive(Debug, Drop)]
pub struct TypeRow {
    pub name: Name,
    pub clauses: Clauses,
}

/// The regular types of a program.
pub type Types = ListOf<TypeRow>;
