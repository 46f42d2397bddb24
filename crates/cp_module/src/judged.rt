ghost use Rattle.std.specs.Prelude.{◌≡◌, ◌∷◌, ◌++◌, [], IfOk, OnOk};
ghost use Rattle.cp_module.specs.Causes.{refused, clause_causes, cause_on, end_causes, least};
ghost use Rattle.cp_module.specs.Least.{soonest};
ghost use Rattle.cp_module.specs.Judging.{IsCauseOf, KnowsMore, IsEndCause, IsJudged};

use crate::above::Above;
use crate::cause::{Cause, soonest};
use crate::header::{exported_by, first_cause};
use crate::judge::{are_undefined, later_cause};
use crate::noted::note;
use crate::text::Text;
use crate::why::Why;
use cp_read::ReadClause;
use std::alloc::{AllocError, Global};

/// What a file with this base name and this text is refused for by itself, if it is refused.
pub(crate) fn refused(alloc: Global, base: &[u8], text: &Text) -> Result<Option<Cause>, AllocError>
    ensures { IfOk result (λ cause. cause ≡ refused base.now text.now) }
{
    match text.clauses.as_slice() {
        [first, later @ ..] => {
            let cause = cause_of(alloc, base, first, later, text.fault)?;
            Ok(cause)
        }
        [] => Ok(cause_of_none(text.fault)),
    }
}

/// What is refused where there is no clause.
fn cause_of_none(fault: Option<Cause>) -> Option<Cause>
    ensures { result ≡ least (end_causes [] fault) }
{
    match fault {
        Some(fault) => Some(fault),
        None => Some(Cause {
            line: 1,
            why: Why::NoModuleHeader,
        }),
    }
}

/// What counts of what is refused in a file whose first clause is given.
fn cause_of(
    alloc: Global,
    base: &[u8],
    first: &ReadClause,
    later: &[ReadClause],
    fault: Option<Cause>,
) -> Result<Option<Cause>, AllocError>
    ensures { IfOk result (λ cause. cause ≡ least (clause_causes base.now [] (first.now ∷ later.now) ++ end_causes (first.now ∷ later.now) fault)) }
{
    let mut above = Above::new(alloc);
    let why = first_cause(alloc, base, &first.term)?;
    note(alloc, &mut above, first)?;
    let behind = later_causes(alloc, &mut above, later)?;
    let end = end_cause(alloc, &above, first, fault)?;
    Ok(soonest_of(first.line, why, behind, end))
}

/// What counts of what is refused in the clauses behind the first, which are noted.
fn later_causes(
    alloc: Global,
    above: &mut Above,
    clauses: &[ReadClause],
) -> Result<Option<Cause>, AllocError>
    ensures causes { IfOk result (λ cause. IsCauseOf above.old clauses.now cause) }
    ensures knows { OnOk result (KnowsMore above.old clauses.now above.new) }
{
    let mut cause: Option<Cause> = None;
    for clause in clauses {
        let found = judge_next(alloc, above, clause, cause)?;
        cause = found;
    }
    Ok(cause)
}

/// Notes a clause, and what counts behind it where this counts above it.
fn judge_next(
    alloc: Global,
    above: &mut Above,
    clause: &ReadClause,
    cause: Option<Cause>,
) -> Result<Option<Cause>, AllocError>
    ensures { IfOk result (λ found. IsJudged above.old above.new clause.now cause found) }
{
    let why = later_cause(alloc, above, clause)?;
    note(alloc, above, clause)?;
    Ok(soonest_on(cause, clause.line, why))
}

fn soonest_on(cause: Option<Cause>, line: u32, why: Option<Why>) -> Option<Cause>
    ensures { result ≡ soonest cause (least (cause_on line why)) }
{
    soonest(cause, Cause::on(line, why))
}

/// What counts of the first clause, of those behind it and of the end.
fn soonest_of(
    line: u32,
    why: Option<Why>,
    behind: Option<Cause>,
    end: Option<Cause>,
) -> Option<Cause>
    ensures { result ≡ soonest (soonest (least (cause_on line why)) behind) end }
{
    soonest(soonest(Cause::on(line, why), behind), end)
}

/// What is refused at the end of a file: what cannot be read, or an export that the file does not define.
fn end_cause(
    alloc: Global,
    above: &Above,
    first: &ReadClause,
    fault: Option<Cause>,
) -> Result<Option<Cause>, AllocError>
    ensures { IfOk result (λ cause. IsEndCause above.now first.now fault cause) }
{
    if let Some(fault) = fault {
        return Ok(Some(fault));
    }
    let exports = exported_by(alloc, &first.term)?;
    if are_undefined(above, &exports)? {
        Ok(Some(Cause {
            line: first.line,
            why: Why::NotExported,
        }))
    } else {
        Ok(None)
    }
}
