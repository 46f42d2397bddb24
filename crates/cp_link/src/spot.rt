ghost use Rattle.std.specs.Prelude.{◌≡◌, ◌++◌, None, IfOk};
ghost use Rattle.cp_link.specs.Written.{nothing, or_itself, behind_module, seen_alike, within, holds, of_pair, of_one};

use crate::clauses::headed;
use crate::names::copy_of;
use cp_declaration::Indicator;
use cp_list::ListOf;
use cp_term::{Cell, Name};
use std::alloc::{AllocError, Global};

/// A goal behind a module, by its predicate; a variable and an integer are of none.
#[derive(Debug, Drop)]
pub(crate) struct Written {
    pub(crate) module_name: Name,
    pub(crate) pred: Option<Indicator>,
}

/// Goals behind modules, in textual order.
pub(crate) type WrittenGoals = ListOf<Written>;

/// What a term is in the place of a goal: its first cell, what is written in it where the file's own module sees it, and
/// what is written in it where another module does; none stands for the goal itself.
#[derive(Debug, Drop)]
pub(crate) struct Spot {
    pub(crate) first: Cell,
    pub(crate) inside: WrittenGoals,
    pub(crate) behind: Option<WrittenGoals>,
}

impl Spot {
    /// A term that is no control.
    pub(crate) fn nothing(alloc: Global, first: Cell) -> Spot
        ensures { result ≡ nothing first }
    {
        Spot {
            first,
            inside: WrittenGoals::new(alloc),
            behind: None,
        }
    }

    /// The term with one argument.
    pub(crate) fn of_one(alloc: Global, first: Cell, functor: &Name, argument: Spot) -> Spot
        ensures { result ≡ of_one first functor.now argument }
    {
        if functor.bytes() == b"\\+".as_slice() {
            Spot::holds(first, argument.inside)
        } else {
            Spot::nothing(alloc, first)
        }
    }

    /// The term with two arguments.
    pub(crate) fn of_pair(
        alloc: Global,
        own: &Name,
        first: Cell,
        functor: &Name,
        left: Spot,
        right: Spot,
    ) -> Result<Spot, AllocError>
        ensures { IfOk result (λ spot. spot ≡ of_pair own.now first functor.now left right) }
    {
        let functor = functor.bytes();
        if functor == b":".as_slice() {
            Spot::within(alloc, own, first, &left.first, right)
        } else if functor == b",".as_slice()
            || functor == b";".as_slice()
            || functor == b"->".as_slice()
        {
            let inside = joined(left.inside, right.inside)?;
            Ok(Spot::holds(first, inside))
        } else {
            Ok(Spot::nothing(alloc, first))
        }
    }

    fn holds(first: Cell, found: WrittenGoals) -> Spot
        ensures { result ≡ holds first found }
    {
        Spot {
            first,
            inside: found,
            behind: None,
        }
    }

    fn seen_alike(alloc: Global, first: Cell, found: WrittenGoals) -> Result<Spot, AllocError>
        ensures { IfOk result (λ spot. spot ≡ seen_alike first found) }
    {
        let behind = copies(alloc, found.as_slice())?;
        Ok(Spot {
            first,
            inside: found,
            behind: Some(behind),
        })
    }

    /// `M:G`; where M is no atom it is no goal.
    fn within(
        alloc: Global,
        own: &Name,
        first: Cell,
        qualifier: &Cell,
        goal: Spot,
    ) -> Result<Spot, AllocError>
        ensures { IfOk result (λ spot. spot ≡ within own.now first qualifier.now goal) }
    {
        match qualifier {
            Cell::Atom(name) => {
                let found = goal.behind_module(alloc, own, name)?;
                Spot::seen_alike(alloc, first, found)
            }
            Cell::Var(_) | Cell::Int(_) | Cell::Func(_, _) => {
                Spot::seen_alike(alloc, first, WrittenGoals::new(alloc))
            }
        }
    }

    /// What it holds behind this module.
    fn behind_module(
        self,
        alloc: Global,
        own: &Name,
        module_name: &Name,
    ) -> Result<WrittenGoals, AllocError>
        ensures { IfOk result (λ found. found ≡ behind_module own.now module_name.now self) }
    {
        let Spot {
            first,
            inside,
            behind,
        } = self;
        if own.bytes() == module_name.bytes() {
            return Ok(inside);
        }
        match behind {
            Some(found) => Ok(found),
            None => itself(alloc, module_name, &first),
        }
    }
}

/// The goal that begins with this cell, behind the module.
fn itself(alloc: Global, module_name: &Name, first: &Cell) -> Result<WrittenGoals, AllocError>
    ensures { IfOk result (λ found. found ≡ or_itself module_name.now first.now None) }
{
    let pred = headed(first)?;
    let mut found = WrittenGoals::new(alloc);
    found.push(Written {
        module_name: module_name.clone()?,
        pred,
    })?;
    Ok(found)
}

fn joined(mut left: WrittenGoals, right: WrittenGoals) -> Result<WrittenGoals, AllocError>
    ensures { IfOk result (λ all. all ≡ left ++ right) }
{
    for written in right.into_vec() {
        left.push(written)?;
    }
    Ok(left)
}

fn copies(alloc: Global, found: &[Written]) -> Result<WrittenGoals, AllocError>
    ensures { IfOk result (λ all. all ≡ found.now) }
{
    let mut all = WrittenGoals::new(alloc);
    for written in found {
        all.push(written.copy()?)?;
    }
    Ok(all)
}

impl Written {
    fn copy(&self) -> Result<Written, AllocError>
        ensures { IfOk result (λ copy. copy ≡ self.now) }
    {
        let pred = match &self.pred {
            Some(pred) => Some(copy_of(pred)?),
            None => None,
        };
        Ok(Written {
            module_name: self.module_name.clone()?,
            pred,
        })
    }
}
