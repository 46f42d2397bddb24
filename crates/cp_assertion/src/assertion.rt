ghost use Rattle.std.specs.Prelude.{◌≡◌, ◌≤◌, ◌&&◌, length, IfOk, IfErr};
ghost use Rattle.cp_term.specs.PredNameEq.{pred_name_eq};
ghost use Rattle.cp_code.specs.Programs.{is_check};
ghost use Rattle.cp_assertion.specs.Assertions.{assertion_in, shown, checks_of, Reads, IsRefusal, IsPlacedAmong, SpeaksOfArguments};

use crate::assertion_error::AssertionError;
use crate::draft::Draft;
use crate::standing::standing_in;
use cp_code::{Assertion, Assertions, Program, Status};
use cp_term::{Name, Term};
use std::alloc::Global;

/// The body D of a declaration `:- D` as an assertion of a module (Ciao manual, "The Ciao assertion language"), by the
/// predicates, the types and the earlier assertions of its program. `line` is the line of the declaration's first token.
/// Where it is none, the first of NotAssertion, BadHead, BadProperty and OnShared that applies is answered. It searches the
/// lists of the program; a loader that keeps them by name calls `Draft::of` and `Draft::settled`.
pub fn assertion_of(
    alloc: Global,
    term: &Term,
    line: u32,
    module: &Name,
    program: &Program,
) -> Result<Assertion, AssertionError>
    ensures ok { IfOk result (λ a. assertion_in program.now «module».now term.now ≡ Reads (shown a)) }
    ensures placed { IfOk result (λ a. IsPlacedAmong «module».now line program.now.checks a) }
    ensures err { IfErr result (λ e. IsRefusal (assertion_in program.now «module».now term.now) e) }
    ensures arguments { IfOk result (λ a. SpeaksOfArguments a) }
{
    let draft = Draft::of(alloc, term)?;
    let standing = standing_in(&program.preds, module, &draft.name, draft.arity);
    let known = draft.are_known(&program.types);
    let earlier = checks_of(&program.checks, module, &draft.name, draft.arity);
    draft.settled(module.clone()?, line, standing, known, earlier)
}

/// How many of the assertions are tested and are of the predicate with this name.
fn checks_of(assertions: &Assertions, module: &Name, name: &Name, arity: u16) -> u32
    ensures { result ≡ checks_of (record { «module» = «module».now; name = name.now; arity = arity }) assertions.now }
{
    let _len = assertions.len();
    count_of(assertions.as_slice(), module, name, arity) as u32
}

fn count_of(assertions: &[Assertion], module: &Name, name: &Name, arity: u16) -> usize
    ensures count { result ≡ checks_of (record { «module» = «module».now; name = name.now; arity = arity }) assertions.now }
    ensures within { result ≤ length assertions.now }
{
    assertions
        .iter()
        .filter(|assertion| is_check_of(assertion, module, name, arity))
        .count()
}

fn is_check_of(assertion: &Assertion, module: &Name, name: &Name, arity: u16) -> bool
    ensures { result ≡ is_check assertion.now.status && pred_name_eq assertion.now.pred (record { «module» = «module».now; name = name.now; arity = arity }) }
{
    assertion.status == Status::Check
        && assertion.pred.module == *module
        && assertion.pred.name == *name
        && assertion.pred.arity == arity
}
