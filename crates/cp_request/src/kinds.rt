ghost use Rattle.std.specs.Prelude.{◌≡◌, ◌<◌, length, IfOk};
ghost use Rattle.cp_term.specs.declared.pred_name.PredName.{PredName};
ghost use Rattle.cp_goal.specs.Errors as errors;
ghost use Rattle.cp_goal.specs.Errors.{word};
ghost use Rattle.cp_heap.specs.State.{term, instance_at};
ghost use Rattle.cp_lists.specs.Growing.{GainsTerms};
ghost use Rattle.cp_code.specs.Requests as requests;

use cp_builtin::{atom, context_of, with_one, with_two};
use cp_call::FullBy;
use cp_heap::{Heap, Ref};
use cp_term::PredName;
use std::alloc::{AllocError, Global};

/// Makes `instantiation_error`, a kind of error (ISO/IEC 13211-1, 7.12.2).
pub fn instantiation_error_of(alloc: Global, heap: &mut Heap) -> Result<Ref, AllocError>
    ensures live { IfOk result (λ r. r.at < length heap.new.terms) }
    ensures kind { IfOk result (λ r. instance_at heap.new r.at ≡ errors.instantiation_error) }
    ensures gains { GainsTerms heap.old heap.new }
{
    atom(alloc, heap, b"instantiation_error")
}

/// Makes `type_error(Type, Culprit)`: the culprit is no term of this type. It stays the term that it is.
pub fn type_error_of(
    alloc: Global,
    heap: &mut Heap,
    wanted: &[u8],
    culprit: Ref,
) -> Result<Ref, AllocError>
    requires { culprit.at < length heap.old.terms }
    ensures live { IfOk result (λ r. r.at < length heap.new.terms) }
    ensures kind { IfOk result (λ r. instance_at heap.new r.at ≡ errors.type_error wanted.now (instance_at heap.old culprit.at)) }
    ensures gains { GainsTerms heap.old heap.new }
{
    of_culprit(alloc, heap, b"type_error", wanted, culprit)
}

/// Makes `domain_error(Domain, Culprit)`: the culprit is of the right type and not of this domain. It stays the term that
/// it is.
pub fn domain_error_of(
    alloc: Global,
    heap: &mut Heap,
    domain: &[u8],
    culprit: Ref,
) -> Result<Ref, AllocError>
    requires { culprit.at < length heap.old.terms }
    ensures live { IfOk result (λ r. r.at < length heap.new.terms) }
    ensures kind { IfOk result (λ r. instance_at heap.new r.at ≡ errors.domain_error domain.now (instance_at heap.old culprit.at)) }
    ensures gains { GainsTerms heap.old heap.new }
{
    of_culprit(alloc, heap, b"domain_error", domain, culprit)
}

/// Makes `existence_error(What, Culprit)`: there is no such thing as the culprit names. It stays the term that it is.
pub fn existence_error(
    alloc: Global,
    heap: &mut Heap,
    what: &[u8],
    culprit: Ref,
) -> Result<Ref, AllocError>
    requires { culprit.at < length heap.old.terms }
    ensures live { IfOk result (λ r. r.at < length heap.new.terms) }
    ensures kind { IfOk result (λ r. instance_at heap.new r.at ≡ requests.existence_error what.now (instance_at heap.old culprit.at)) }
    ensures gains { GainsTerms heap.old heap.new }
{
    of_culprit(alloc, heap, b"existence_error", what, culprit)
}

/// Makes `resource_error(Resource)`: there is not enough of it.
pub fn resource_error_of(alloc: Global, heap: &mut Heap, resource: &[u8]) -> Result<Ref, AllocError>
    ensures live { IfOk result (λ r. r.at < length heap.new.terms) }
    ensures kind { IfOk result (λ r. instance_at heap.new r.at ≡ errors.resource_error resource.now) }
    ensures gains { GainsTerms heap.old heap.new }
{
    of_word(alloc, heap, b"resource_error", resource)
}

/// Makes `system_error(What)`, of what lies outside the program (its argument is this project's own).
pub fn system_error(alloc: Global, heap: &mut Heap, what: &[u8]) -> Result<Ref, AllocError>
    ensures live { IfOk result (λ r. r.at < length heap.new.terms) }
    ensures kind { IfOk result (λ r. instance_at heap.new r.at ≡ requests.system_error what.now) }
    ensures gains { GainsTerms heap.old heap.new }
{
    of_word(alloc, heap, b"system_error", what)
}

/// Makes the kind of error of a call that would pass a limit: `resource_error(predicate)` or `resource_error(goals)`.
pub fn full_error(alloc: Global, heap: &mut Heap, by: FullBy) -> Result<Ref, AllocError>
    ensures live { IfOk result (λ r. r.at < length heap.new.terms) }
    ensures kind { IfOk result (λ r. instance_at heap.new r.at ≡ requests.full_kind by) }
    ensures gains { GainsTerms heap.old heap.new }
{
    match by {
        FullBy::Entries => resource_error_of(alloc, heap, b"predicate"),
        FullBy::Cells => resource_error_of(alloc, heap, b"predicate"),
        FullBy::Posts => resource_error_of(alloc, heap, b"goals"),
    }
}

/// Makes the term `M:N/A` of a predicate.
pub fn pred_indicator(alloc: Global, heap: &mut Heap, pred: &PredName) -> Result<Ref, AllocError>
    ensures live { IfOk result (λ r. r.at < length heap.new.terms) }
    ensures term { IfOk result (λ r. term heap.new r.at ≡ requests.full_name pred.now) }
    ensures instance { IfOk result (λ r. instance_at heap.new r.at ≡ requests.full_name pred.now) }
    ensures gains { GainsTerms heap.old heap.new }
{
    context_of(alloc, heap, pred)
}

/// Makes a term `name(word, Culprit)`.
fn of_culprit(
    alloc: Global,
    heap: &mut Heap,
    name: &[u8],
    what: &[u8],
    culprit: Ref,
) -> Result<Ref, AllocError>
    requires { culprit.at < length heap.old.terms }
    ensures live { IfOk result (λ r. r.at < length heap.new.terms) }
    ensures kind { IfOk result (λ r. instance_at heap.new r.at ≡ errors.with_two name.now (word what.now) (instance_at heap.old culprit.at)) }
    ensures gains { GainsTerms heap.old heap.new }
{
    let what = atom(alloc, heap, what)?;
    with_two(alloc, heap, name, what, culprit)
}

/// Makes a term `name(word)`.
fn of_word(alloc: Global, heap: &mut Heap, name: &[u8], what: &[u8]) -> Result<Ref, AllocError>
    ensures live { IfOk result (λ r. r.at < length heap.new.terms) }
    ensures kind { IfOk result (λ r. instance_at heap.new r.at ≡ errors.with_one name.now (word what.now)) }
    ensures gains { GainsTerms heap.old heap.new }
{
    let what = atom(alloc, heap, what)?;
    with_one(alloc, heap, name, what)
}
