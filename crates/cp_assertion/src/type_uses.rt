ghost use Rattle.std.specs.Prelude.{◌≡◌, ◌<◌, ◌^◌, [], Some, None, length, IfOk, MatchOption};
ghost use Rattle.cp_goal.specs.Builtins.{is_variable};
ghost use Rattle.cp_code.specs.Clauses.{is_rule};
ghost use Rattle.cp_assertion.specs.Names.{is_type_of};
ghost use Rattle.cp_assertion.specs.RegularTypes.{uses, uses_of_pattern, uses_of_variable, uses_of_alias, uses_of_linear, uses_of_demands, uses_link, uses_names, pattern_in, linear_from, are_met, are_properties, is_link, is_earlier_of};

use crate::body::demands_of;
use crate::cells::split_term;
use crate::demand::{Demand, Demands, are_of_variables, names_of};
use crate::names::{is_of_language, is_property};
use cp_code::{Clause, Names, TypeRow, Types};
use cp_term::{Cell, Name};
use std::alloc::{AllocError, Global};

/// The names that a clause of a regular type rests on.
#[derive(Debug, Drop)]
pub struct TypeUses {
    /// These have to be names of properties.
    pub names: Names,
    /// This has to be the name of a property of the language, or of a regular type that has its clauses already.
    pub link: Option<Name>,
}

impl TypeUses {
    /// The names that a clause rests on as one of the regular type of this name (Ciao manual, "Declaring regular types");
    /// None where its form is not that of such a clause.
    #[tactic(auto, unfolding(crate::specs::RegularTypes::uses))]
    pub fn of(alloc: Global, name: &Name, clause: &Clause) -> Result<Option<TypeUses>, AllocError>
        ensures { IfOk result (λ u. u ≡ uses name.now clause.now.whole) }
    {
        let cells = clause.whole.cells();
        if !clause.is_rule() {
            return Ok(TypeUses::of_fact(alloc, name, cells));
        }
        match cells {
            [_, rest @ ..] => {
                let (head, body) = split_term(rest);
                TypeUses::of_rule(alloc, name, head, body)
            }
            [] => Ok(None),
        }
    }

    /// Of a clause with this head and no body.
    fn of_fact(alloc: Global, name: &Name, head: &[Cell]) -> Option<TypeUses>
        requires { length head.now < 2 ^ 32 }
        ensures { result ≡ uses_of_pattern (pattern_in name.now head.now) None }
    {
        let pattern = pattern_in(name, head)?;
        if is_variable(pattern) {
            return None;
        }
        match linear(pattern) {
            Some(_) => Some(TypeUses {
                names: Names::new(alloc),
                link: None,
            }),
            None => None,
        }
    }

    /// Of a clause with this head and body.
    fn of_rule(
        alloc: Global,
        name: &Name,
        head: &[Cell],
        body: &[Cell],
    ) -> Result<Option<TypeUses>, AllocError>
        requires { length head.now < 2 ^ 32 }
        ensures { IfOk result (λ u. u ≡ uses_of_pattern (pattern_in name.now head.now) (Some body.now)) }
    {
        let Some(pattern) = pattern_in(name, head) else {
            return Ok(None);
        };
        if is_variable(pattern) {
            return TypeUses::of_variable(alloc, body);
        }
        match linear(pattern) {
            Some(count) => TypeUses::of_linear(alloc, count, body),
            None => Ok(None),
        }
    }

    /// Of a clause whose pattern is a variable.
    fn of_variable(alloc: Global, body: &[Cell]) -> Result<Option<TypeUses>, AllocError>
        ensures { IfOk result (λ u. u ≡ uses_of_variable (Some body.now)) }
    {
        match demands_of(alloc, body)? {
            Some(demands) => TypeUses::of_alias(alloc, demands),
            None => Ok(None),
        }
    }

    /// Of a clause whose pattern is a variable, with these demands.
    fn of_alias(alloc: Global, demands: Demands) -> Result<Option<TypeUses>, AllocError>
        ensures { IfOk result (λ u. u ≡ uses_of_alias (Some demands)) }
    {
        let mut demands = demands;
        let Some(demand) = demands.pop() else {
            return Ok(None);
        };
        if !demands.is_empty() {
            return Ok(None);
        }
        if demand.var != 0 {
            return Ok(None);
        }
        let uses = TypeUses::of_demand(alloc, demand)?;
        Ok(Some(uses))
    }

    /// Of the one property of a pattern that is a variable.
    fn of_demand(alloc: Global, demand: Demand) -> Result<TypeUses, AllocError>
        ensures { IfOk result (λ u. u ≡ uses_link demand) }
    {
        let mut names = Names::new(alloc);
        if !demand.of_list {
            return Ok(TypeUses {
                names,
                link: Some(demand.name),
            });
        }
        names.push(demand.name)?;
        Ok(TypeUses { names, link: None })
    }

    /// Of a clause whose pattern is linear, with so many variables, and no variable.
    fn of_linear(alloc: Global, count: u32, body: &[Cell]) -> Result<Option<TypeUses>, AllocError>
        ensures { IfOk result (λ u. u ≡ uses_of_linear (Some count) (Some body.now)) }
    {
        match demands_of(alloc, body)? {
            Some(demands) => TypeUses::of_demands(alloc, count, demands),
            None => Ok(None),
        }
    }

    /// Of a clause with these demands of its so many variables.
    fn of_demands(
        alloc: Global,
        count: u32,
        demands: Demands,
    ) -> Result<Option<TypeUses>, AllocError>
        ensures { IfOk result (λ u. u ≡ uses_of_demands count (Some demands)) }
    {
        if !are_of_variables(demands.as_slice(), count) {
            return Ok(None);
        }
        Ok(Some(TypeUses {
            names: names_of(alloc, demands)?,
            link: None,
        }))
    }

    /// Whether the names are what they have to be. It searches the list of types once for each name.
    pub fn are_met(&self, types: &Types) -> bool
        ensures { result ≡ are_met (is_type_of types.now) (is_earlier_of types.now) (Some self.now) }
    {
        are_properties(types, self.names.as_slice()) && is_link(types, &self.link)
    }
}

/// The pattern P of a head `t(P)`, where t is the name.
fn pattern_in<'a>(name: &Name, head: &'a [Cell]) -> Option<&'a [Cell]>
    ensures value { MatchOption result (pattern_in name.now head.now ≡ None) (λ p. pattern_in name.now head.now ≡ Some p.now) }
    ensures within { MatchOption result (Unit {0}) (λ p. length p.now < length head.now) }
{
    match head {
        [Cell::Func(own, 1), pattern @ ..] => {
            if own.bytes() == name.bytes() {
                Some(pattern)
            } else {
                None
            }
        }
        _ => None,
    }
}

fn is_variable(pattern: &[Cell]) -> bool
    ensures { result ≡ is_variable pattern.now }
{
    match pattern {
        [Cell::Var(_), ..] => true,
        _ => false,
    }
}

/// How many variables a linear pattern has; None where a variable occurs in it twice.
fn linear(pattern: &[Cell]) -> Option<u32>
    requires { length pattern.now < 2 ^ 32 }
    ensures { result ≡ linear_from 0 pattern.now }
{
    let mut next: u32 = 0;
    for cell in pattern {
        if let Cell::Var(variable) = cell {
            if *variable != next {
                return None;
            }
            next += 1;
        }
    }
    Some(next)
}

fn are_properties(types: &Types, names: &[Name]) -> bool
    ensures { result ≡ are_properties (is_type_of types.now) names.now }
{
    names.iter().all(|name| is_property(types, name))
}

fn is_link(types: &Types, link: &Option<Name>) -> bool
    ensures { result ≡ is_link (is_earlier_of types.now) link.now }
{
    match link {
        Some(name) => is_of_language(name) || is_earlier(types.as_slice(), name.bytes()),
        None => true,
    }
}

fn is_earlier(types: &[TypeRow], name: &[u8]) -> bool
    ensures { result ≡ is_earlier_of types.now name.now }
{
    types
        .iter()
        .any(|row| row.name.bytes() == name && !row.clauses.is_empty())
}
