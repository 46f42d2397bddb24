ghost use Rattle.std.specs.Prelude.{◌≡◌, not, ◌&&◌, cond, length, map, IfOk};
ghost use Rattle.cp_heap.specs.State.{AreRefs};
ghost use Rattle.cp_lists.specs.Places.{instances};
ghost use Rattle.cp_code.specs.Checks as tests;
ghost use Rattle.cp_code.specs.Properties.{holds};
ghost use Rattle.cp_code.specs.Programs.{prop_of, type_of};
ghost use Rattle.cp_props.specs.Arguments.{HasArguments, HaveArguments};
ghost use Rattle.cp_props.specs.Checks.{tested_shown, check_shown};

use crate::check::{Check, Checks};
use crate::formula::holds;
use crate::tested::Tested;
use cp_code::Types;
use cp_heap::{Heap, Refs};
use std::alloc::{AllocError, Global};

/// The least number of a demand that a call breaks, if it breaks one. The `pred` assertions together demand that one of
/// their preconditions holds, and each `calls` one demands its own.
#[tactic(auto, unfolding(cp_code::specs::Checks::broken_call))]
pub fn broken_call(
    alloc: Global,
    types: &Types,
    heap: &Heap,
    checks: &Checks,
    args: &Refs,
) -> Result<Option<u32>, AllocError>
    requires args { AreRefs heap.now args.now }
    requires named { HaveArguments (length args.now) (map check_shown checks.now) }
    ensures { IfOk result (λ number. number ≡ tests.broken_call (map type_of types.now) (map check_shown checks.now) (map check_shown checks.now) (instances heap.now args.now)) }
{
    let some = some_pred(alloc, types, heap, checks, args)?;
    for check in checks.as_slice() {
        if breaks(alloc, types, heap, check, some, args)? {
            return Ok(Some(check.number));
        }
    }
    Ok(None)
}

/// Whether the precondition of some `pred` assertion holds.
fn some_pred(
    alloc: Global,
    types: &Types,
    heap: &Heap,
    checks: &Checks,
    args: &Refs,
) -> Result<bool, AllocError>
    requires args { AreRefs heap.now args.now }
    requires named { HaveArguments (length args.now) (map check_shown checks.now) }
    ensures { IfOk result (λ answer. answer ≡ tests.some_pred (map type_of types.now) (map check_shown checks.now) (instances heap.now args.now)) }
{
    for check in checks.as_slice() {
        if is_met_pred(alloc, types, heap, check, args)? {
            return Ok(true);
        }
    }
    Ok(false)
}

/// Whether it is a `pred` assertion whose precondition holds.
fn is_met_pred(
    alloc: Global,
    types: &Types,
    heap: &Heap,
    check: &Check,
    args: &Refs,
) -> Result<bool, AllocError>
    requires args { AreRefs heap.now args.now }
    requires named { HasArguments (length args.now) (prop_of check.now.before) }
    ensures { IfOk result (λ answer. answer ≡ tests.is_pred (tested_shown check.now.kind) && holds (map type_of types.now) (prop_of check.now.before) (instances heap.now args.now)) }
{
    match check.kind {
        Tested::Pred => holds(alloc, types, heap, &check.before, args),
        Tested::Calls => Ok(false),
        Tested::Success => Ok(false),
    }
}

/// Whether a call breaks this one's demand. `some` says whether the precondition of some `pred` assertion holds.
fn breaks(
    alloc: Global,
    types: &Types,
    heap: &Heap,
    check: &Check,
    some: bool,
    args: &Refs,
) -> Result<bool, AllocError>
    requires args { AreRefs heap.now args.now }
    requires named { HasArguments (length args.now) (prop_of check.now.before) }
    ensures { IfOk result (λ answer. answer ≡ cond (tests.is_pred (tested_shown check.now.kind)) (not some) (tests.is_calls (tested_shown check.now.kind) && not (holds (map type_of types.now) (prop_of check.now.before) (instances heap.now args.now)))) }
{
    match check.kind {
        Tested::Pred => Ok(!some),
        Tested::Calls => {
            let met = holds(alloc, types, heap, &check.before, args)?;
            Ok(!met)
        }
        Tested::Success => Ok(false),
    }
}

/// The `pred` and `success` assertions whose precondition holds at a call.
pub fn held(
    alloc: Global,
    types: &Types,
    heap: &Heap,
    checks: &Checks,
    args: &Refs,
) -> Result<Checks, AllocError>
    requires args { AreRefs heap.now args.now }
    requires named { HaveArguments (length args.now) (map check_shown checks.now) }
    ensures held { IfOk result (λ held. map check_shown held ≡ tests.held (map type_of types.now) (map check_shown checks.now) (instances heap.now args.now)) }
    ensures named { IfOk result (λ held. HaveArguments (length args.now) (map check_shown held)) }
{
    all_held(alloc, types, heap, checks, args)
}

#[tactic(auto, unfolding(cp_code::specs::Checks::held))]
fn all_held(
    alloc: Global,
    types: &Types,
    heap: &Heap,
    checks: &Checks,
    args: &Refs,
) -> Result<Checks, AllocError>
    requires args { AreRefs heap.now args.now }
    requires named { HaveArguments (length args.now) (map check_shown checks.now) }
    ensures { IfOk result (λ held. map check_shown held ≡ tests.held (map type_of types.now) (map check_shown checks.now) (instances heap.now args.now)) }
{
    let mut held = Checks::new(alloc);
    for check in checks.as_slice() {
        if is_held(alloc, types, heap, check, args)? {
            held.push(check.copy(alloc)?)?;
        }
    }
    Ok(held)
}

/// Whether it speaks of success and its precondition holds.
fn is_held(
    alloc: Global,
    types: &Types,
    heap: &Heap,
    check: &Check,
    args: &Refs,
) -> Result<bool, AllocError>
    requires args { AreRefs heap.now args.now }
    requires named { HasArguments (length args.now) (prop_of check.now.before) }
    ensures { IfOk result (λ answer. answer ≡ not (tests.is_calls (tested_shown check.now.kind)) && holds (map type_of types.now) (prop_of check.now.before) (instances heap.now args.now)) }
{
    match check.kind {
        Tested::Pred => holds(alloc, types, heap, &check.before, args),
        Tested::Calls => Ok(false),
        Tested::Success => holds(alloc, types, heap, &check.before, args),
    }
}

/// The least number of a demand that an exit breaks, if it breaks one, where these were held at the call.
#[tactic(auto, unfolding(cp_code::specs::Checks::broken_exit))]
pub fn broken_exit(
    alloc: Global,
    types: &Types,
    heap: &Heap,
    checks: &Checks,
    args: &Refs,
) -> Result<Option<u32>, AllocError>
    requires args { AreRefs heap.now args.now }
    requires named { HaveArguments (length args.now) (map check_shown checks.now) }
    ensures { IfOk result (λ number. number ≡ tests.broken_exit (map type_of types.now) (map check_shown checks.now) (instances heap.now args.now)) }
{
    for check in checks.as_slice() {
        if !holds(alloc, types, heap, &check.after, args)? {
            return Ok(Some(check.number));
        }
    }
    Ok(None)
}
