ghost use Rattle.std.specs.Prelude.{◌≡◌, ◌<◌, IfOk};
ghost use Rattle.std.specs.Option.{option_map};
ghost use Rattle.cp_code.specs.Programs.{prop_of};
ghost use Rattle.cp_code.specs.Properties as properties;
ghost use Rattle.cp_assertion.specs.Formulas.{Variable, Positions, part_shown, formula_of, joined, with_next, times, of_argument, property_part, list_part, binary_part};

use cp_code::Prop;
use cp_term::Name;
use std::alloc::{AllocError, Global};

/// What a term is as a part of a formula.
#[derive(Debug, Drop)]
pub(crate) enum Part {
    Variable(u32),
    Word(Name),
    /// `t1 * .. * tk`, which are properties of the first k arguments.
    Positions(u16, Prop),
    Formula(Prop),
    Other,
}

impl Part {
    /// The formula that it is, on so many arguments.
    pub(crate) fn formula(self, arity: u16) -> Option<Prop>
        ensures { option_map prop_of result ≡ formula_of arity (part_shown self) }
    {
        match self {
            Part::Variable(_) => None,
            Part::Word(name) => word_formula(name, arity),
            Part::Positions(count, prop) => { if count == arity { Some(prop) } else { None } }
            Part::Formula(prop) => Some(prop),
            Part::Other => None,
        }
    }

    /// `t(X)`, where t is the name.
    pub(crate) fn property(self, name: &Name, arity: u16) -> Result<Part, AllocError>
        ensures { IfOk result (λ p. part_shown p ≡ property_part arity name.now (part_shown self)) }
    {
        match self {
            Part::Variable(variable) => {
                if variable < u32::from(arity) {
                    Ok(Part::Formula(Prop::Of {
                        name: name.clone()?,
                        arg: variable as u16,
                    }))
                } else {
                    Ok(Part::Other)
                }
            }
            Part::Word(_) => Ok(Part::Other),
            Part::Positions(_, _) => Ok(Part::Other),
            Part::Formula(_) => Ok(Part::Other),
            Part::Other => Ok(Part::Other),
        }
    }

    /// What the compound of this name and these two parts is.
    pub(crate) fn binary(
        alloc: Global,
        name: &Name,
        first: Part,
        second: Part,
        arity: u16,
    ) -> Result<Part, AllocError>
        ensures { IfOk result (λ p. part_shown p ≡ binary_part arity name.now (part_shown first) (part_shown second)) }
    {
        let name = name.bytes();
        if name == b",".as_slice() {
            both(alloc, first.formula(arity), second.formula(arity))
        } else if name == b";".as_slice() {
            either(alloc, first.formula(arity), second.formula(arity))
        } else if name == b"*".as_slice() {
            times(alloc, first, second, arity)
        } else if name == b"list".as_slice() {
            Ok(list(first, second, arity))
        } else {
            Ok(Part::Other)
        }
    }
}

fn word_formula(name: Name, arity: u16) -> Option<Prop>
    ensures { option_map prop_of result ≡ formula_of arity (part_shown (Part.Word name)) }
{
    if name.bytes() == b"true".as_slice() {
        Some(Prop::Always)
    } else if arity == 1 {
        Some(Prop::Of { name, arg: 0 })
    } else {
        None
    }
}

fn both(alloc: Global, first: Option<Prop>, second: Option<Prop>) -> Result<Part, AllocError>
    ensures { IfOk result (λ p. part_shown p ≡ joined properties.Both (option_map prop_of first) (option_map prop_of second)) }
{
    match (first, second) {
        (Some(first), Some(second)) => Ok(Part::Formula(both_props(alloc, first, second)?)),
        _ => Ok(Part::Other),
    }
}

fn both_props(alloc: Global, first: Prop, second: Prop) -> Result<Prop, AllocError>
    ensures { IfOk result (λ p. prop_of p ≡ properties.Both (prop_of first) (prop_of second)) }
{
    let first = Box::new(alloc, first)?;
    let second = Box::new(alloc, second)?;
    Ok(Prop::Both(first, second))
}

fn either(alloc: Global, first: Option<Prop>, second: Option<Prop>) -> Result<Part, AllocError>
    ensures { IfOk result (λ p. part_shown p ≡ joined properties.Either (option_map prop_of first) (option_map prop_of second)) }
{
    match (first, second) {
        (Some(first), Some(second)) => Ok(Part::Formula(either_props(alloc, first, second)?)),
        _ => Ok(Part::Other),
    }
}

fn either_props(alloc: Global, first: Prop, second: Prop) -> Result<Prop, AllocError>
    ensures { IfOk result (λ p. prop_of p ≡ properties.Either (prop_of first) (prop_of second)) }
{
    let first = Box::new(alloc, first)?;
    let second = Box::new(alloc, second)?;
    Ok(Prop::Either(first, second))
}

/// `A * t`.
fn times(alloc: Global, left: Part, right: Part, arity: u16) -> Result<Part, AllocError>
    ensures { IfOk result (λ p. part_shown p ≡ times arity (part_shown left) (part_shown right)) }
{
    match left {
        Part::Word(first) => {
            let prop = Prop::Of {
                name: first,
                arg: 0,
            };
            times_word(alloc, 1, prop, right, arity)
        }
        Part::Positions(count, prop) => times_word(alloc, count, prop, right, arity),
        Part::Variable(_) => Ok(Part::Other),
        Part::Formula(_) => Ok(Part::Other),
        Part::Other => Ok(Part::Other),
    }
}

fn times_word(
    alloc: Global,
    count: u16,
    prop: Prop,
    right: Part,
    arity: u16,
) -> Result<Part, AllocError>
    ensures { IfOk result (λ p. part_shown p ≡ times arity (Positions count (prop_of prop)) (part_shown right)) }
{
    match right {
        Part::Word(name) => with_next(alloc, count, prop, name, arity),
        Part::Variable(_) => Ok(Part::Other),
        Part::Positions(_, _) => Ok(Part::Other),
        Part::Formula(_) => Ok(Part::Other),
        Part::Other => Ok(Part::Other),
    }
}

/// A property of one more argument, if there is one.
fn with_next(
    alloc: Global,
    count: u16,
    prop: Prop,
    name: Name,
    arity: u16,
) -> Result<Part, AllocError>
    ensures { IfOk result (λ p. part_shown p ≡ with_next arity count (prop_of prop) name) }
{
    if count < arity {
        let next = Prop::Of { name, arg: count };
        Ok(Part::Positions(count + 1, both_props(alloc, prop, next)?))
    } else {
        Ok(Part::Other)
    }
}

/// `list(X, t)`.
fn list(first: Part, second: Part, arity: u16) -> Part
    ensures { part_shown result ≡ list_part arity (part_shown first) (part_shown second) }
{
    match first {
        Part::Variable(variable) => list_of(variable, second, arity),
        Part::Word(_) => Part::Other,
        Part::Positions(_, _) => Part::Other,
        Part::Formula(_) => Part::Other,
        Part::Other => Part::Other,
    }
}

fn list_of(variable: u32, element: Part, arity: u16) -> Part
    ensures { part_shown result ≡ list_part arity (Variable variable) (part_shown element) }
{
    match element {
        Part::Word(element) => {
            if variable < u32::from(arity) {
                Part::Formula(Prop::ListOf {
                    element,
                    arg: variable as u16,
                })
            } else {
                Part::Other
            }
        }
        Part::Variable(_) => Part::Other,
        Part::Positions(_, _) => Part::Other,
        Part::Formula(_) => Part::Other,
        Part::Other => Part::Other,
    }
}
