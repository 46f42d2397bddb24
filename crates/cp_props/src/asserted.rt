ghost use Rattle.std.specs.Prelude.{◌≡◌, map, IfOk};
ghost use Rattle.std.specs.List.{filter_map};
ghost use Rattle.std.specs.Option.{option_map};
ghost use Rattle.cp_code.specs.Programs.{is_check, check_of_kind, check_on};
ghost use Rattle.cp_props.specs.Arguments.{HaveArguments, NameArguments};
ghost use Rattle.cp_props.specs.Checks.{tested_shown, check_shown};

use crate::check::{Check, Checks, prop_copy};
use crate::tested::Tested;
use cp_code::{Assertion, Program, Status};
use cp_term::PredName;
use std::alloc::{AllocError, Global};

/// The assertions on a predicate that are tested, in textual order.
pub fn checks_of(alloc: Global, program: &Program, pred: &PredName) -> Result<Checks, AllocError>
    ensures checks { IfOk result (λ checks. map check_shown checks ≡ filter_map (check_on pred.now) program.now.checks) }
    ensures named { IfOk result (λ checks. NameArguments program.now.checks → HaveArguments pred.now.arity (map check_shown checks)) }
{
    checks_among(alloc, program.checks.as_slice(), pred)
}

fn checks_among(
    alloc: Global,
    assertions: &[Assertion],
    pred: &PredName,
) -> Result<Checks, AllocError>
    ensures { IfOk result (λ checks. map check_shown checks ≡ filter_map (check_on pred.now) assertions.now) }
{
    let mut checks = Checks::new(alloc);
    for assertion in assertions {
        if let Some(check) = check_on(alloc, assertion, pred)? {
            checks.push(check)?;
        }
    }
    Ok(checks)
}

/// The test of an assertion, if it is one of this predicate and is tested.
fn check_on(
    alloc: Global,
    assertion: &Assertion,
    pred: &PredName,
) -> Result<Option<Check>, AllocError>
    ensures { IfOk result (λ check. option_map check_shown check ≡ check_on pred.now assertion.now) }
{
    if is_check(assertion.status) && assertion.pred == *pred {
        match Tested::of(assertion.kind) {
            Some(kind) => check_of(alloc, assertion, kind),
            None => Ok(None),
        }
    } else {
        Ok(None)
    }
}

fn is_check(status: Status) -> bool
    ensures { result ≡ is_check status }
{
    match status {
        Status::Check => true,
        Status::Trust => false,
        Status::Believed => false,
        Status::Checked => false,
        Status::Refuted => false,
    }
}

fn check_of(alloc: Global, assertion: &Assertion, kind: Tested) -> Result<Option<Check>, AllocError>
    ensures { IfOk result (λ check. option_map check_shown check ≡ check_of_kind assertion.now (Some (tested_shown kind))) }
{
    Ok(Some(Check {
        number: assertion.number,
        kind,
        before: prop_copy(alloc, &assertion.before)?,
        after: prop_copy(alloc, &assertion.after)?,
    }))
}
