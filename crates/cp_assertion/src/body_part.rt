ghost use Rattle.std.specs.Prelude.{◌≡◌, ◌++◌, ◌∷◌, [], true, false, IfOk};
ghost use Rattle.cp_assertion.specs.RegularTypes.{demands_in, demand_part, both, in_module, one_goal, list_part, binary_part};

use crate::demand::{Demand, Demands};
use cp_term::Name;
use std::alloc::{AllocError, Global};

/// What a term is as a part of the body of a regular type's clause.
#[derive(Debug, Drop)]
pub(crate) enum BodyPart {
    Variable(u32),
    Word(Name),
    Demands(Demands),
    Other,
}

impl BodyPart {
    /// The properties that it joins, if it is a goal of a body.
    pub(crate) fn demands(self) -> Option<Demands>
        ensures { result ≡ demands_in self }
    {
        match self {
            BodyPart::Demands(demands) => Some(demands),
            BodyPart::Variable(_) => None,
            BodyPart::Word(_) => None,
            BodyPart::Other => None,
        }
    }

    /// `u(Y)`, where u is the name.
    pub(crate) fn demand(self, alloc: Global, name: &Name) -> Result<BodyPart, AllocError>
        ensures { IfOk result (λ p. p ≡ demand_part name.now self) }
    {
        match self {
            BodyPart::Variable(var) => {
                let name = name.clone()?;
                let of_list = false;
                Ok(BodyPart::Demands(only(alloc, Demand { var, name, of_list })?))
            }
            BodyPart::Demands(_) => Ok(BodyPart::Other),
            BodyPart::Word(_) => Ok(BodyPart::Other),
            BodyPart::Other => Ok(BodyPart::Other),
        }
    }

    /// What the compound of this name and these two parts is.
    pub(crate) fn binary(
        alloc: Global,
        name: &Name,
        first: BodyPart,
        second: BodyPart,
    ) -> Result<BodyPart, AllocError>
        ensures { IfOk result (λ p. p ≡ binary_part name.now first second) }
    {
        let name = name.bytes();
        if name == b",".as_slice() {
            both(first, second)
        } else if name == b":".as_slice() {
            Ok(in_module(first, second))
        } else if name == b"list".as_slice() {
            list(alloc, first, second)
        } else {
            Ok(BodyPart::Other)
        }
    }
}

fn only(alloc: Global, demand: Demand) -> Result<Demands, AllocError>
    ensures { IfOk result (λ ds. ds ≡ demand ∷ []) }
{
    let mut demands = Demands::new(alloc);
    demands.push(demand)?;
    Ok(demands)
}

fn both(left: BodyPart, right: BodyPart) -> Result<BodyPart, AllocError>
    ensures { IfOk result (λ p. p ≡ both left right) }
{
    match left {
        BodyPart::Demands(demands) => both_demands(demands, right),
        BodyPart::Variable(_) => Ok(BodyPart::Other),
        BodyPart::Word(_) => Ok(BodyPart::Other),
        BodyPart::Other => Ok(BodyPart::Other),
    }
}

fn both_demands(demands: Demands, right: BodyPart) -> Result<BodyPart, AllocError>
    ensures { IfOk result (λ p. p ≡ both (BodyPart.Demands demands) right) }
{
    match right {
        BodyPart::Demands(others) => Ok(BodyPart::Demands(appended(others, demands)?)),
        BodyPart::Variable(_) => Ok(BodyPart::Other),
        BodyPart::Word(_) => Ok(BodyPart::Other),
        BodyPart::Other => Ok(BodyPart::Other),
    }
}

fn appended(demands: Demands, more: Demands) -> Result<Demands, AllocError>
    ensures { IfOk result (λ ds. ds ≡ demands ++ more) }
{
    let mut demands = demands;
    for demand in more.into_vec() {
        demands.push(demand)?;
    }
    Ok(demands)
}

/// `M:G`, where G is one goal.
fn in_module(left: BodyPart, right: BodyPart) -> BodyPart
    ensures { result ≡ in_module left right }
{
    match left {
        BodyPart::Word(_) => one_goal(right),
        BodyPart::Variable(_) => BodyPart::Other,
        BodyPart::Demands(_) => BodyPart::Other,
        BodyPart::Other => BodyPart::Other,
    }
}

fn one_goal(goal: BodyPart) -> BodyPart
    ensures { result ≡ one_goal goal }
{
    match goal {
        BodyPart::Demands(demands) => {
            if demands.len() == 1 {
                BodyPart::Demands(demands)
            } else {
                BodyPart::Other
            }
        }
        BodyPart::Variable(_) => BodyPart::Other,
        BodyPart::Word(_) => BodyPart::Other,
        BodyPart::Other => BodyPart::Other,
    }
}

/// `list(Y, u)`.
fn list(alloc: Global, first: BodyPart, second: BodyPart) -> Result<BodyPart, AllocError>
    ensures { IfOk result (λ p. p ≡ list_part first second) }
{
    match first {
        BodyPart::Variable(var) => list_of(alloc, var, second),
        BodyPart::Demands(_) => Ok(BodyPart::Other),
        BodyPart::Word(_) => Ok(BodyPart::Other),
        BodyPart::Other => Ok(BodyPart::Other),
    }
}

fn list_of(alloc: Global, var: u32, element: BodyPart) -> Result<BodyPart, AllocError>
    ensures { IfOk result (λ p. p ≡ list_part (BodyPart.Variable var) element) }
{
    match element {
        BodyPart::Word(name) => {
            let of_list = true;
            Ok(BodyPart::Demands(only(alloc, Demand { var, name, of_list })?))
        }
        BodyPart::Variable(_) => Ok(BodyPart::Other),
        BodyPart::Demands(_) => Ok(BodyPart::Other),
        BodyPart::Other => Ok(BodyPart::Other),
    }
}
