ghost use Rattle.std.specs.Prelude.{◌≡◌, map, IfOk};
ghost use Rattle.cp_code.specs.Programs.{prop_of};
ghost use Rattle.cp_code.specs.Properties as properties;
ghost use Rattle.cp_props.specs.Checks.{check_shown};

use crate::tested::Tested;
use cp_code::Prop;
use cp_list::ListOf;
use std::alloc::{AllocError, Global};

/// An assertion that is tested.
#[derive(Debug, Drop)]
pub struct Check {
    /// Its number, from 1, among the `check` assertions of its predicate in textual order.
    pub number: u32,
    pub kind: Tested,
    /// What a call has to meet.
    pub before: Prop,
    /// What a success has to meet.
    pub after: Prop,
}

/// The tested assertions of a predicate, in the order of their numbers.
pub type Checks = ListOf<Check>;

impl Check {
    /// The same check.
    pub fn copy(&self, alloc: Global) -> Result<Check, AllocError>
        ensures { IfOk result (λ copy. check_shown copy ≡ check_shown self.now) }
    {
        Ok(Check {
            number: self.number,
            kind: self.kind,
            before: prop_copy(alloc, &self.before)?,
            after: prop_copy(alloc, &self.after)?,
        })
    }
}

/// The same checks.
pub fn copy_checks(alloc: Global, checks: &Checks) -> Result<Checks, AllocError>
    ensures { IfOk result (λ copy. map check_shown copy ≡ map check_shown checks.now) }
{
    let mut copy = Checks::new(alloc);
    for check in checks.as_slice() {
        copy.push(check.copy(alloc)?)?;
    }
    Ok(copy)
}

/// The same property.
pub(crate) fn prop_copy(alloc: Global, prop: &Prop) -> Result<Prop, AllocError>
    ensures { IfOk result (λ copy. prop_of copy ≡ prop_of prop.now) }
{
    match prop {
        Prop::Of { name, arg } => Ok(Prop::Of {
            name: name.clone()?,
            arg: *arg,
        }),
        Prop::ListOf { element, arg } => Ok(Prop::ListOf {
            element: element.clone()?,
            arg: *arg,
        }),
        Prop::Both(first, second) => {
            let first = prop_copy(alloc, first)?;
            let second = prop_copy(alloc, second)?;
            both(alloc, first, second)
        }
        Prop::Either(first, second) => {
            let first = prop_copy(alloc, first)?;
            let second = prop_copy(alloc, second)?;
            either(alloc, first, second)
        }
        Prop::Always => Ok(Prop::Always),
    }
}

fn both(alloc: Global, first: Prop, second: Prop) -> Result<Prop, AllocError>
    ensures { IfOk result (λ prop. prop_of prop ≡ properties.Both (prop_of first) (prop_of second)) }
{
    let first = Box::new(alloc, first)?;
    let second = Box::new(alloc, second)?;
    Ok(Prop::Both(first, second))
}

fn either(alloc: Global, first: Prop, second: Prop) -> Result<Prop, AllocError>
    ensures { IfOk result (λ prop. prop_of prop ≡ properties.Either (prop_of first) (prop_of second)) }
{
    let first = Box::new(alloc, first)?;
    let second = Box::new(alloc, second)?;
    Ok(Prop::Either(first, second))
}
