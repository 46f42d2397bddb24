ghost use Rattle.std.specs.Prelude.{◌≡◌, ◌++◌, [], cond, IfOk, OnOk};
ghost use Rattle.std.specs.Option.{option_copied};
ghost use Rattle.cp_declaration.specs.declared.indicator.Indicator.{Indicator as Pred};
ghost use Rattle.cp_link.specs.Linked.{either_marks};
ghost use Rattle.cp_assemble.specs.Index.{is_marking_of, marks_among, marks_of, marks_or};

use crate::marks::{Marking, either_marks, push_marks};
use cp_code::GoalMarks;
use cp_declaration::Indicator;
use cp_term::Name;
use indexmap::IndexMap;
use std::alloc::{AllocError, Global};
use std::marker::Model;

/// The name of a predicate and its number of arguments.
#[derive(PartialEq, Eq, Hash, Drop)]
struct MarkKey {
    name: Name,
    count: u32,
}

/// Which arguments of each predicate a file marks. Contracts see its rows.
#[derive(Drop)]
pub(crate) struct MarkTable {
    rows: IndexMap<MarkKey, GoalMarks>,
}

impl Model for MarkTable {
    ghost use Rattle.std.specs.Prelude.{List, Bool};
    ghost use Rattle.cp_declaration.specs.declared.indicator.Indicator.{Indicator};
    ghost use Rattle.cp_assemble.specs.MarkRows.{rows_in};

    ghost Value = { List (Indicator × List Bool) };

    ghost view = { rows_in };
}

impl MarkTable {
    fn new(alloc: Global) -> Self
        ensures { result ≡ [] }
    {
        MarkTable {
            rows: IndexMap::new(alloc),
        }
    }

    /// The table of these declarations.
    pub(crate) fn of(alloc: Global, markings: &[Marking]) -> Result<MarkTable, AllocError>
        ensures { IfOk result (λ table. (p : Pred) → marks_of table p ≡ marks_among markings.now p) }
    {
        let mut table = MarkTable::new(alloc);
        for marking in markings {
            table.add(alloc, marking)?;
        }
        Ok(table)
    }

    /// Adds what a declaration marks.
    fn add(&mut self, alloc: Global, marking: &Marking) -> Result<(), AllocError>
        ensures { OnOk result ((p : Pred) → marks_of self.new p ≡ cond (is_marking_of p marking.now) (either_marks (marks_of self.old p) marking.now.marks) (marks_of self.old p)) }
    {
        let key = MarkKey {
            name: marking.name.clone()?,
            count: marking.marks.len(),
        };
        let both = with_marks(alloc, self.rows.get(&key), marking.marks.as_slice())?;
        let _old = self.rows.insert(key, both)?;
        Ok(())
    }

    /// Which arguments of a predicate are marked.
    pub(crate) fn find(&self, alloc: Global, pred: &Indicator) -> Result<GoalMarks, AllocError>
        ensures { IfOk result (λ marks. marks ≡ marks_of self.now pred.now) }
    {
        let key = MarkKey {
            name: pred.name.clone()?,
            count: u32::from(pred.arity),
        };
        let marks = with_marks(alloc, self.rows.get(&key), &[])?;
        Ok(marks)
    }
}

/// The marks that are there, if any are, and these together.
fn with_marks(
    alloc: Global,
    there: Option<&GoalMarks>,
    marks: &[bool],
) -> Result<GoalMarks, AllocError>
    ensures { IfOk result (λ both. both ≡ either_marks (marks_or (option_copied there.entry)) marks.now) }
{
    match there {
        Some(there) => {
            let both = either_marks(alloc, there.as_slice(), marks)?;
            Ok(both)
        }
        None => {
            let mut all = GoalMarks::new(alloc);
            push_marks(&mut all, marks)?;
            Ok(all)
        }
    }
}
