ghost use Rattle.std.specs.Prelude.{◌≡◌, ◌++◌, IfOk, OnOk};
ghost use Rattle.cp_link.specs.Modules.{one, said};
ghost use Rattle.cp_link.specs.Linked.{either_marks};
ghost use Rattle.cp_assemble.specs.Index.{marking_by, markings_in};

use cp_code::GoalMarks;
use cp_declaration::Declaration;
use cp_link::said;
use cp_list::ListOf;
use cp_read::ReadClause;
use cp_term::Name;
use std::alloc::{AllocError, Global};

/// A `meta_predicate` declaration: the predicate's name, and which of its arguments it marks.
#[derive(Debug, Drop)]
pub(crate) struct Marking {
    pub(crate) name: Name,
    pub(crate) marks: GoalMarks,
}

pub(crate) type Markings = ListOf<Marking>;

/// The `meta_predicate` declarations of a file.
pub(crate) fn markings_in(alloc: Global, clauses: &[ReadClause]) -> Result<Markings, AllocError>
    ensures { IfOk result (λ all. all ≡ markings_in clauses.now) }
{
    let mut all = Markings::new(alloc);
    for clause in clauses {
        push_marking(alloc, &mut all, clause)?;
    }
    Ok(all)
}

fn push_marking(alloc: Global, all: &mut Markings, clause: &ReadClause) -> Result<(), AllocError>
    ensures { OnOk result (all.new ≡ all.old ++ one (marking_by (said clause.now))) }
{
    match said(alloc, clause)? {
        Some(Declaration::MetaPredicate { name, marks }) => all.push(Marking { name, marks }),
        _ => Ok(()),
    }
}

#[tactic(auto, using(crate::proofs::MarkLaws::either_none))]
/// The marks of the same arguments together, of which one is enough.
pub(crate) fn either_marks(
    alloc: Global,
    marks: &[bool],
    others: &[bool],
) -> Result<GoalMarks, AllocError>
    ensures { IfOk result (λ both. both ≡ either_marks marks.now others.now) }
{
    let mut both = GoalMarks::new(alloc);
    let mut rest = marks;
    let mut behind = others;
    'marks: while let [mark, more @ ..] = rest {
        match behind {
            [other, others @ ..] => {
                both.push(*mark || *other)?;
                behind = others;
            }
            [] => both.push(*mark)?,
        }
        rest = more;
    }
    push_marks(&mut both, behind)?;
    Ok(both)
}

pub(crate) fn push_marks(all: &mut GoalMarks, marks: &[bool]) -> Result<(), AllocError>
    ensures { OnOk result (all.new ≡ all.old ++ marks.now) }
{
    for mark in marks {
        all.push(*mark)?;
    }
    Ok(())
}
