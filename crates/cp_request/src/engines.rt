ghost use Rattle.std.specs.Prelude.{◌≡◌, List, ◌∷◌, [], false, true, Ok, Err, codes, IfOk, MatchResult};
ghost use Rattle.cp_term.specs.declared.cell.Cell.{Cell};
ghost use Rattle.cp_goal.specs.Errors.{word, with_two};
ghost use Rattle.cp_heap.specs.State.{Extends, instance_at, substitution};
ghost use Rattle.cp_code.specs.Requests as requests;
ghost use Rattle.cp_request.specs.Refused.{kind, HasCulprit, Asks};
ghost use Rattle.cp_request.specs.Posted.{posted_terms, HasPost, IsChecked, IsGoalChecked};
ghost use Rattle.cp_request.specs.Shapes.{IsPlace};

use crate::asking::Asking;
use crate::bodies::is_body;
use crate::error_kind::ErrorKind;
use crate::fact_goal::FactGoal;
use crate::looks::{has_name, is_unbound, qualified};
use crate::manner::Manner;
use crate::post::PostGoal;
use crate::refusal::Refusal;
use crate::seen_goal::SeenGoal;
use cp_builtin::with_two;
use cp_heap::{Heap, Look, Ref};
use cp_term::{Cell, Cells, Name, PredName, Term};
use std::alloc::{AllocError, Global};

/// What `eng_call` asks (Ciao manual, "Low-level concurrency"), where the module `outer` sees it: its goal is posted with
/// its own module, or else with that one. The heap only grows.
pub fn post_goal(
    alloc: Global,
    heap: &mut Heap,
    outer: &Name,
    post: PostGoal,
    context: &PredName,
) -> Result<Asking, Refusal>
    requires { HasPost heap.old post }
    ensures asks { Asks heap.new (requests.post_goal outer.now (posted_terms heap.old post) (requests.full_name context.now)) result }
    ensures extends { Extends heap.old heap.new }
    ensures bindings { substitution heap.new ≡ substitution heap.old }
    ensures trail { heap.new.trail ≡ heap.old.trail }
    ensures variables { heap.new.variables ≡ heap.old.variables }
{
    check_post(alloc, heap, post)?;
    let posted = posted(alloc, heap, outer, post.goal)?;
    asking_to_post(heap, posted, post.id, context)
}

/// The question that posts the goal at a place.
fn asking_to_post(heap: &Heap, posted: Ref, id: Ref, context: &PredName) -> Result<Asking, Refusal>
    requires posted { IsPlace heap.now posted }
    requires id { IsPlace heap.now id }
    ensures { Asks heap.now (requests.post_asking (instance_at heap.now id.at) (requests.full_name context.now) (requests.handed_out (instance_at heap.now posted.at))) result }
{
    let copy = heap.export(posted)?;
    Ok(Asking {
        object: 0,
        goal: FactGoal::AddBack,
        copy,
        manner: Manner::Posts(id),
        context: context.clone()?,
    })
}

/// The errors of `eng_call`, from its first argument to its last.
fn check_post(alloc: Global, heap: &Heap, post: PostGoal) -> Result<(), Refusal>
    requires { HasPost heap.now post }
    ensures { IsChecked heap.now post result }
{
    check_goal(alloc, heap, post.goal)?;
    check_create(heap, post.engine)?;
    check_create(heap, post.thread)?;
    if is_unbound(heap, post.id) {
        Ok(())
    } else {
        Err(Refusal::Raised(ErrorKind::NotVariable(post.id)))
    }
}

/// The goal that is posted is a body.
fn check_goal(alloc: Global, heap: &Heap, at: Ref) -> Result<(), Refusal>
    requires { IsPlace heap.now at }
    ensures { IsGoalChecked heap.now at result }
{
    let seen = SeenGoal::of(heap, at);
    if is_unbound(heap, seen.goal) {
        return Err(Refusal::Raised(ErrorKind::Unbound));
    }
    if is_body(alloc, heap, seen.goal)? {
        Ok(())
    } else {
        Err(Refusal::Raised(ErrorKind::NotCallable(seen.goal)))
    }
}

/// The term is `create`.
fn check_create(heap: &Heap, at: Ref) -> Result<(), ErrorKind>
    requires { IsPlace heap.now at }
    ensures { MatchResult result (λ _. requests.is_create (instance_at heap.now at.at) ≡ true) (λ e. (requests.is_create (instance_at heap.now at.at) ≡ false) × (requests.create_kind (instance_at heap.now at.at) ≡ kind heap.now e) × HasCulprit heap.now e) }
{
    if is_unbound(heap, at) {
        return Err(ErrorKind::Unbound);
    }
    if is_create(heap, at) {
        Ok(())
    } else {
        Err(ErrorKind::NotCreate(at))
    }
}

fn is_create(heap: &Heap, at: Ref) -> bool
    requires { IsPlace heap.now at }
    ensures { result ≡ requests.is_create (instance_at heap.now at.at) }
{
    match heap.look(at) {
        Look::Atom => has_name(heap, at, b"create"),
        Look::Var(_, _) => false,
        Look::Int(_) => false,
        Look::Func(_) => false,
    }
}

/// The goal with its own module in front of it, as it stands, or else with this one: the term `M:G`. The heap only grows,
/// and the goal stays the term that it is.
pub fn posted(alloc: Global, heap: &mut Heap, outer: &Name, goal: Ref) -> Result<Ref, AllocError>
    requires { IsPlace heap.old goal }
    ensures place { IfOk result (λ r. IsPlace heap.new r) }
    ensures posted { IfOk result (λ r. instance_at heap.new r.at ≡ requests.posted outer.now (instance_at heap.old goal.at)) }
    ensures extends { Extends heap.old heap.new }
    ensures bindings { substitution heap.new ≡ substitution heap.old }
    ensures trail { heap.new.trail ≡ heap.old.trail }
    ensures variables { heap.new.variables ≡ heap.old.variables }
{
    let _mark = heap.mark();
    if qualified(heap, goal).is_some() {
        return Ok(goal);
    }
    within(alloc, heap, outer, goal)
}

/// The goal with this module in front of it.
fn within(alloc: Global, heap: &mut Heap, own: &Name, goal: Ref) -> Result<Ref, AllocError>
    requires { IsPlace heap.old goal }
    ensures place { IfOk result (λ r. IsPlace heap.new r) }
    ensures within { IfOk result (λ r. instance_at heap.new r.at ≡ with_two (codes ":") (word own.now) (instance_at heap.old goal.at)) }
    ensures extends { Extends heap.old heap.new }
    ensures bindings { substitution heap.new ≡ substitution heap.old }
    ensures trail { heap.new.trail ≡ heap.old.trail }
    ensures variables { heap.new.variables ≡ heap.old.variables }
{
    let front = heap.atom(own)?;
    with_two(alloc, heap, b":", front, goal)
}

/// What `eng_wait` asks: whether the goal with this number has ended.
pub fn wait_goal(alloc: Global, heap: &Heap, id: Ref, context: &PredName) -> Result<Asking, Refusal>
    requires { IsPlace heap.now id }
    ensures { Asks heap.now (requests.wait_goal (instance_at heap.now id.at ∷ []) (requests.full_name context.now)) result }
{
    let id = goal_id(heap, id)?;
    let copy = ended_pattern(alloc, id)?;
    Ok(Asking {
        object: 1,
        goal: FactGoal::Current,
        copy,
        manner: Manner::FindsOnce,
        context: context.clone()?,
    })
}

/// The number of a goal, from 1.
fn goal_id(heap: &Heap, at: Ref) -> Result<i64, ErrorKind>
    requires { IsPlace heap.now at }
    ensures { (ctx : List Cell) → MatchResult result (λ id. requests.wait_goal (instance_at heap.now at.at ∷ []) ctx ≡ Ok (requests.wait_asking id ctx)) (λ e. (requests.wait_goal (instance_at heap.now at.at ∷ []) ctx ≡ Err (kind heap.now e)) × HasCulprit heap.now e) }
{
    match heap.look(at) {
        Look::Int(id) => {
            if id > 0 {
                Ok(id)
            } else {
                Err(ErrorKind::NoGoalId(id))
            }
        }
        Look::Var(_, _) => Err(ErrorKind::Unbound),
        Look::Atom => Err(ErrorKind::NotInteger(at)),
        Look::Func(_) => Err(ErrorKind::NotInteger(at)),
    }
}

/// The pattern `ended(Id, _)`.
fn ended_pattern(alloc: Global, id: i64) -> Result<Term, AllocError>
    ensures { IfOk result (λ pattern. pattern ≡ requests.ended_pattern id) }
{
    let mut cells = Cells::new(alloc);
    cells.push(Cell::Func(Name::known(alloc, b"ended")?, 2))?;
    cells.push(Cell::Int(id))?;
    cells.push(Cell::Var(0))?;
    Ok(Term::known(cells))
}
