ghost use Rattle.std.specs.Prelude.{IfOk};
ghost use Rattle.cp_assemble.specs.Indexed.{IsIndexOf};

use crate::mark_table::MarkTable;
use crate::marks::markings_in;
use crate::places::Places;
use cp_declaration::Indicators;
use cp_link::shared_in;
use cp_read::ReadClause;
use std::alloc::{AllocError, Global};

/// What a file says of its predicates, so that none of them is looked for among its clauses.
#[derive(Drop)]
pub(crate) struct FileIndex {
    /// The places of the clauses of each predicate.
    pub(crate) places: Places,
    /// The predicates that are declared to be shared, of which there are few.
    pub(crate) shared: Indicators,
    pub(crate) marks: MarkTable,
}

impl FileIndex {
    /// The index of a file with these clauses.
    pub(crate) fn of(alloc: Global, clauses: &[ReadClause]) -> Result<FileIndex, AllocError>
        ensures { IfOk result (λ index. IsIndexOf clauses.now index) }
    {
        let places = Places::of(alloc, clauses)?;
        let shared = shared_in(alloc, clauses)?;
        let markings = markings_in(alloc, clauses)?;
        let marks = MarkTable::of(alloc, markings.as_slice())?;
        Ok(FileIndex {
            places,
            shared,
            marks,
        })
    }
}
