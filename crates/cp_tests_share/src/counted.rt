ghost use Rattle.std.specs.Prelude.{◌≡◌, ◌<◌};

use crate::building::{q, q_any};
use cp_counted::{Steps, unifiable_counted};
use cp_term::Term;
use std::alloc::{AllocError, Global};
use std::marker::Brand;
use std::sync::ledger::{Blank, Ledger};
use std::test::Fail;

/// Whether the terms unify, and in how many steps that was found.
fn attempted<L: Ledger>(
    blank: Blank,
    alloc: Global,
    a: &Term,
    b: &Term,
) -> Result<(bool, u64), AllocError>
    requires name { blank.name ≡ L.name }
    requires parts { blank.parts ≡ L.parts }
    requires some { 0 < blank.parts }
{
    let mut steps = Steps::<L>::new(blank);
    let unify = unifiable_counted(alloc, a, b, &mut steps)?;
    Ok((unify, steps.count()))
}

fn attempt(alloc: Global, a: &Term, b: &Term) -> Result<(bool, u64), AllocError> {
    attempted::<Brand>(Blank::new(1), alloc, a, b)
}

#[test]
fn an_attempt_is_one_step(rt: HostRuntime) -> Result<(), Fail> {
    let one = q(rt.alloc(), 1)?;
    assert_eq!(rt; attempt(rt.alloc(), &one, &q_any(rt.alloc())?)?, (true, 1));
    Ok(())
}
