use crate::import_list::ImportList;
use cp_code::PredNames;
use cp_term::Name;

/// What is kept of a file while its clauses are looked at: its module, what all of it imports, the predicates of active
/// modules that it uses, the numbers of rules and of shared predicates in the files before it and in the clauses so far,
/// which stay at the type's end, and what the clauses so far import.
#[derive(Drop)]
pub(crate) struct Kept {
    pub(crate) own: Name,
    pub(crate) imported: ImportList,
    pub(crate) active: PredNames,
    pub(crate) rules: u64,
    pub(crate) shared: u64,
    pub(crate) earlier: ImportList,
}
