ghost use Rattle.std.specs.Prelude.{◌≡◌, ◌<◌, [], ◌∷◌, length, IfOk, codes};
ghost use Rattle.cp_term.specs.declared.cell.Cell.TheVariants.{Int};
ghost use Rattle.cp_goal.specs.Errors.{domain_error};
ghost use Rattle.cp_heap.specs.State.{instance_at};
ghost use Rattle.cp_lists.specs.Growing.{GainsTerms};
ghost use Rattle.cp_code.specs.Requests as requests;
ghost use Rattle.cp_request.specs.Refused.{kind, HasCulprit};

use crate::kinds::{
    domain_error_of, existence_error, instantiation_error_of, pred_indicator, resource_error_of,
    type_error_of,
};
use cp_heap::{Heap, Ref};
use cp_term::PredName;
use std::alloc::{AllocError, Global};

/// The kind of an error for which nothing is asked (ISO/IEC 13211-1, 7.12.2), with the places of the terms that it names.
#[derive(Debug, Drop)]
pub enum ErrorKind {
    /// `instantiation_error`
    Unbound,
    /// `type_error(callable, _)`
    NotCallable(Ref),
    /// `existence_error(data, _)`: the module that looks for it, the name and the arity.
    NoData(PredName),
    /// `domain_error(concurrent, _)`
    NotConcurrent(PredName),
    /// `domain_error(create, _)`
    NotCreate(Ref),
    /// `type_error(variable, _)`
    NotVariable(Ref),
    /// `type_error(integer, _)`
    NotInteger(Ref),
    /// `domain_error(goal_id, _)`
    NoGoalId(i64),
    /// `resource_error(term_size)`: what is handed out has more than 4,096 cells.
    TooLarge,
}

impl ErrorKind {
    /// Makes the kind as a term of the heap, which only grows. The terms that it names stay the terms that they are.
    pub fn put(&self, alloc: Global, heap: &mut Heap) -> Result<Ref, AllocError>
        requires { HasCulprit heap.old self.now }
        ensures live { IfOk result (λ r. r.at < length heap.new.terms) }
        ensures kind { IfOk result (λ r. instance_at heap.new r.at ≡ kind heap.old self.now) }
        ensures gains { GainsTerms heap.old heap.new }
    {
        match self {
            ErrorKind::Unbound => instantiation_error_of(alloc, heap),
            ErrorKind::NotCallable(at) => type_error_of(alloc, heap, b"callable", *at),
            ErrorKind::NoData(pred) => no_data(alloc, heap, pred),
            ErrorKind::NotConcurrent(pred) => not_concurrent(alloc, heap, pred),
            ErrorKind::NotCreate(at) => domain_error_of(alloc, heap, b"create", *at),
            ErrorKind::NotVariable(at) => type_error_of(alloc, heap, b"variable", *at),
            ErrorKind::NotInteger(at) => type_error_of(alloc, heap, b"integer", *at),
            ErrorKind::NoGoalId(id) => no_goal_id(alloc, heap, *id),
            ErrorKind::TooLarge => resource_error_of(alloc, heap, b"term_size"),
        }
    }
}

/// No shared predicate is seen under this name and arity.
fn no_data(alloc: Global, heap: &mut Heap, pred: &PredName) -> Result<Ref, AllocError>
    ensures live { IfOk result (λ r. r.at < length heap.new.terms) }
    ensures kind { IfOk result (λ r. instance_at heap.new r.at ≡ requests.existence_error (codes "data") (requests.full_name pred.now)) }
    ensures gains { GainsTerms heap.old heap.new }
{
    let culprit = pred_indicator(alloc, heap, pred)?;
    existence_error(alloc, heap, b"data", culprit)
}

/// The predicate is declared `data`, and can be neither closed nor reopened.
fn not_concurrent(alloc: Global, heap: &mut Heap, pred: &PredName) -> Result<Ref, AllocError>
    ensures live { IfOk result (λ r. r.at < length heap.new.terms) }
    ensures kind { IfOk result (λ r. instance_at heap.new r.at ≡ domain_error (codes "concurrent") (requests.full_name pred.now)) }
    ensures gains { GainsTerms heap.old heap.new }
{
    let culprit = pred_indicator(alloc, heap, pred)?;
    domain_error_of(alloc, heap, b"concurrent", culprit)
}

/// No goal has this number.
fn no_goal_id(alloc: Global, heap: &mut Heap, id: i64) -> Result<Ref, AllocError>
    ensures live { IfOk result (λ r. r.at < length heap.new.terms) }
    ensures kind { IfOk result (λ r. instance_at heap.new r.at ≡ domain_error (codes "goal_id") (Int id ∷ [])) }
    ensures gains { GainsTerms heap.old heap.new }
{
    let culprit = heap.integer(id)?;
    domain_error_of(alloc, heap, b"goal_id", culprit)
}
