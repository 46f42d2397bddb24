ghost use Rattle.std.specs.Prelude.{◌≡◌, ℕ, ℤ, ◌+◌, ◌<◌, [], ◌∷◌, cond, codes, None, Some, Option, List, length, get_or, reverse, IfOk, OnOk};
ghost use Rattle.cp_term.specs.declared.cell.Cell.{Cell};
ghost use Rattle.cp_term.specs.declared.cell.Cell.TheVariants.{Int};
ghost use Rattle.cp_term.specs.Numbering.{fresh, next_variable};
ghost use Rattle.cp_term.specs.Unification.{unify as unify_by, unifiable_apart};
ghost use Rattle.cp_code.specs.Code.{Code};
ghost use Rattle.cp_code.specs.Requests as requests;
ghost use Rattle.cp_code.specs.Requests.{full_name, full_kind};
ghost use Rattle.cp_code.specs.Tree.{AskFrom};
ghost use Rattle.cp_code.specs.Machine as machine;
ghost use Rattle.cp_run.specs.Shown.{back, bound, here_of, instance_in, manner_shown, asking_shown, goals_shown, shown, moved};
ghost use Rattle.cp_run.specs.Stands.{HasManner, IsMoment, FramesStand, Holds, Stands};
ghost use Rattle.cp_run.specs.Entering.{IsExtended};
ghost use Rattle.cp_run.specs.Gaining.{IsGained, raise_row};
ghost use Rattle.cp_told.specs.Rows.{follows_shown, HasFollows, with_alternative, one_row};

use crate::drops::{drop_asking, drop_term};
use cp_call::{FullBy, Reply};
use cp_heap::Ref;
use cp_request::{Asking, Follows, Manner, full_error, system_error};
use cp_run::{Item, Moment, Point, Run};
use cp_term::{PredName, Term, unifiable};
use std::alloc::AllocError;

/// The reply of a shared object to a question.
pub(crate) fn tell_reply(
    run: &mut Run,
    asking: Asking,
    from: Option<i64>,
    rest: u32,
    level: u64,
    reply: Reply,
) -> Result<(), AllocError>
    requires holds { Holds run.old }
    requires rest { rest < length run.old.goals }
    requires asking { HasManner run.old.heap.terms asking.manner }
    ensures moved { OnOk result ((code : Code) → shown code run.new ≡ moved code run.old rest level (machine.reply_told (requests.follows (manner_shown run.old.heap.terms asking.copy asking.manner) reply) (asking_shown run.old.heap.terms asking) from)) }
    ensures stands { OnOk result (Stands run.new) }
{
    let follows = follows_of(asking.manner, reply);
    tell_follows(run, asking, from, rest, level, follows)
}

/// What follows a reply, by what is done with it.
fn follows_of(manner: Manner, reply: Reply) -> Follows
    ensures follows { (terms : List (List Cell)) (copy : List Cell) → follows_shown terms copy result ≡ requests.follows (manner_shown terms copy manner) reply }
    ensures there { (terms : List (List Cell)) → HasManner terms manner → HasFollows terms result }
{
    Follows::of(manner, reply)
}

/// Goes on as it follows from a reply.
fn tell_follows(
    run: &mut Run,
    asking: Asking,
    from: Option<i64>,
    rest: u32,
    level: u64,
    follows: Follows,
) -> Result<(), AllocError>
    requires holds { Holds run.old }
    requires rest { rest < length run.old.goals }
    requires asking { HasManner run.old.heap.terms asking.manner }
    requires follows { HasFollows run.old.heap.terms follows }
    ensures moved { OnOk result ((code : Code) → shown code run.new ≡ moved code run.old rest level (machine.reply_told (follows_shown run.old.heap.terms asking.copy follows) (asking_shown run.old.heap.terms asking) from)) }
    ensures stands { OnOk result (Stands run.new) }
{
    match follows {
        Follows::Again => {
            run.go(Point::Asks {
                asking,
                from,
                rest,
                level,
            });
            Ok(())
        }
        Follows::Facts {
            place,
            pattern,
            fact,
        } => {
            tell_facts(run, asking, place, pattern, fact, rest, level)?;
            Ok(())
        }
        Follows::Fact { fact } => tell_fact(run, asking, fact, rest, level),
        Follows::Number { number, place } => {
            drop_asking(asking);
            tell_number(run, number, place, rest, level)
        }
        Follows::Rest => {
            drop_asking(asking);
            run.go(Point::Runs { goals: rest, level });
            Ok(())
        }
        Follows::Nothing => {
            drop_asking(asking);
            run.go(Point::Fails);
            Ok(())
        }
        Follows::Raises(by) => {
            raise_full(run, asking, by, rest)?;
            Ok(())
        }
    }
}

/// A fact was found: the goals behind the question where its pattern unifies with the fact, whose variables are new, and
/// later the question again, behind the place of the fact.
fn tell_facts(
    run: &mut Run,
    asking: Asking,
    place: i64,
    pattern: Ref,
    fact: Term,
    rest: u32,
    level: u64,
) -> Result<(), AllocError>
    requires holds { Holds run.old }
    requires rest { rest < length run.old.goals }
    requires asking { HasManner run.old.heap.terms asking.manner }
    requires pattern { pattern.at < length run.old.heap.terms }
    ensures moved { OnOk result ((code : Code) (from : Option ℤ) → shown code run.new ≡ moved code run.old rest level (machine.reply_told (requests.Facts place (get_or run.old.heap.terms pattern.at []) fact) (asking_shown run.old.heap.terms asking) from)) }
    ensures stands { OnOk result (Stands run.new) }
{
    let again = run.put(Item::AskFrom { asking, place }, rest)?;
    find(run, again, pattern, &fact, rest, level)?;
    Ok(())
}

/// The goals behind a question where its pattern unifies with a fact whose variables are new; and later the goals of the list
/// `again`, as things are now.
fn find(
    run: &mut Run,
    again: u32,
    pattern: Ref,
    fact: &Term,
    rest: u32,
    level: u64,
) -> Result<(), AllocError>
    requires holds { Holds run.old }
    requires again { again < length run.old.goals }
    requires rest { rest < length run.old.goals }
    requires pattern { pattern.at < length run.old.heap.terms }
    ensures moved { OnOk result ((code : Code) (asking : requests.Asking) (place : ℤ) (from : Option ℤ) → goals_shown (here_of run.old) again ≡ AskFrom asking place ∷ goals_shown (here_of run.old) rest → shown code run.new ≡ moved code run.old rest level (machine.reply_told (requests.Facts place (get_or run.old.heap.terms pattern.at []) fact.now) asking from)) }
    ensures stands { OnOk result (Stands run.new) }
{
    let moment = run.moment();
    let at = import(run, fact)?;
    let unified = unify_standing(run, pattern, at)?;
    if unified {
        go_with_alternative(run, moment, again, rest, level)?;
        return Ok(());
    }
    run.go(Point::Fails);
    Ok(())
}

/// Makes a term of the heap, with new variables.
fn import(run: &mut Run, fact: &Term) -> Result<Ref, AllocError>
    requires { Holds run.old }
    ensures place { IfOk result (λ r. r.at < length run.new.heap.terms) }
    ensures term { IfOk result (λ r. get_or run.new.heap.terms r.at [] ≡ fresh run.old.heap.variables fact.now) }
    ensures variables { OnOk result (run.new.heap.variables ≡ run.old.heap.variables + next_variable fact.now) }
    ensures bindings { OnOk result (bound (here_of run.new) ≡ bound (here_of run.old)) }
    ensures extended { OnOk result (IsExtended run.old run.new) }
{
    let at = run.heap.import(fact)?;
    Ok(at)
}

/// Makes two terms one, where they unify as they stand, with the bindings.
fn unify_standing(run: &mut Run, a: Ref, b: Ref) -> Result<bool, AllocError>
    requires holds { Holds run.old }
    requires a { a.at < length run.old.heap.terms }
    requires b { b.at < length run.old.heap.terms }
    ensures unified { IfOk result (λ unified. unify_by (bound (here_of run.old)) (get_or run.old.heap.terms a.at []) (get_or run.old.heap.terms b.at []) ≡ cond unified (Some (bound (here_of run.new))) None) }
    ensures extended { OnOk result (IsExtended run.old run.new) }
    ensures kept { OnOk result (run.new.heap ≡ record run.old.heap { trail = run.new.heap.trail }) }
{
    let _mark = run.heap.mark();
    let unified = run.unify(a, b)?;
    Ok(unified)
}

/// Runs a list of goals over other goals, which are to be run as things were at a moment.
fn go_with_alternative(
    run: &mut Run,
    moment: Moment,
    again: u32,
    rest: u32,
    level: u64,
) -> Result<(), AllocError>
    requires holds { Holds run.old }
    requires moment { IsMoment moment (here_of run.old) }
    requires again { again < moment.lists }
    requires rest { rest < length run.old.goals }
    requires frames { FramesStand (back moment (here_of run.old)) (reverse run.old.frames.items) }
    ensures moved { OnOk result ((code : Code) → shown code run.new ≡ with_alternative code run.old moment again rest level) }
    ensures stands { OnOk result (Stands run.new) }
{
    run.push_alternative_at(moment, again, level)?;
    run.go(Point::Runs { goals: rest, level });
    Ok(())
}

/// A fact was waited for once: the goals behind the question where the copy that was handed out unifies with it.
fn tell_fact(
    run: &mut Run,
    asking: Asking,
    fact: Term,
    rest: u32,
    level: u64,
) -> Result<(), AllocError>
    requires holds { Holds run.old }
    requires rest { rest < length run.old.goals }
    ensures moved { OnOk result ((code : Code) → shown code run.new ≡ moved code run.old rest level (machine.passes_if (unifiable_apart asking.copy fact))) }
    ensures stands { OnOk result (Stands run.new) }
{
    let unify = unifiable(run.alloc, &asking.copy, &fact)?;
    go_if(run, unify, rest, level);
    drop_asking(asking);
    drop_term(fact);
    Ok(())
}

/// Runs a list of goals if a test was passed.
fn go_if(run: &mut Run, passed: bool, rest: u32, level: u64)
    requires holds { Holds run.old }
    requires rest { rest < length run.old.goals }
    ensures moved { (code : Code) → shown code run.new ≡ moved code run.old rest level (machine.passes_if passed) }
    ensures stands { Stands run.new }
{
    if passed {
        run.go(Point::Runs { goals: rest, level });
    } else {
        run.go(Point::Fails);
    }
}

/// A goal was posted: the goals behind the question where its number unifies with a term.
fn tell_number(
    run: &mut Run,
    number: Ref,
    place: i64,
    rest: u32,
    level: u64,
) -> Result<(), AllocError>
    requires holds { Holds run.old }
    requires rest { rest < length run.old.goals }
    requires number { number.at < length run.old.heap.terms }
    ensures moved { OnOk result ((code : Code) → shown code run.new ≡ moved code run.old rest level (one_row (get_or run.old.heap.terms number.at []) (Int place ∷ []))) }
    ensures stands { OnOk result (Stands run.new) }
{
    let at = integer(run, place)?;
    go_where_one(run, number, at, rest, level)?;
    Ok(())
}

/// Makes an integer.
fn integer(run: &mut Run, integer: i64) -> Result<Ref, AllocError>
    requires { Holds run.old }
    ensures place { IfOk result (λ r. r.at < length run.new.heap.terms) }
    ensures term { IfOk result (λ r. get_or run.new.heap.terms r.at [] ≡ Int integer ∷ []) }
    ensures gained { OnOk result (IsGained run.old run.new) }
{
    let at = run.heap.integer(integer)?;
    Ok(at)
}

/// Runs a list of goals where two terms unify as they stand, with the bindings.
fn go_where_one(run: &mut Run, a: Ref, b: Ref, rest: u32, level: u64) -> Result<(), AllocError>
    requires holds { Holds run.old }
    requires rest { rest < length run.old.goals }
    requires a { a.at < length run.old.heap.terms }
    requires b { b.at < length run.old.heap.terms }
    ensures moved { OnOk result ((code : Code) → shown code run.new ≡ moved code run.old rest level (one_row (get_or run.old.heap.terms a.at []) (get_or run.old.heap.terms b.at []))) }
    ensures stands { OnOk result (Stands run.new) }
{
    let unified = unify_standing(run, a, b)?;
    go_if(run, unified, rest, level);
    Ok(())
}

/// An error is raised, in the context of a question, for the limit that its call would pass.
fn raise_full(run: &mut Run, asking: Asking, by: FullBy, rest: u32) -> Result<(), AllocError>
    requires holds { Holds run.old }
    requires rest { rest < length run.old.goals }
    ensures moved { OnOk result ((code : Code) (level : ℕ) → shown code run.new ≡ moved code run.old rest level (raise_row (full_kind by) (full_name asking.context))) }
    ensures stands { OnOk result (Stands run.new) }
{
    let kind = put_full_error(run, by)?;
    run.raise(kind, &asking.context, rest)?;
    drop_asking(asking);
    Ok(())
}

/// The kind of an error for a limit, as a term of the heap.
fn put_full_error(run: &mut Run, by: FullBy) -> Result<Ref, AllocError>
    requires { Holds run.old }
    ensures place { IfOk result (λ r. r.at < length run.new.heap.terms) }
    ensures instance { IfOk result (λ r. instance_in (here_of run.new) r.at ≡ full_kind by) }
    ensures gained { OnOk result (IsGained run.old run.new) }
{
    let kind = full_error(run.alloc, &mut run.heap, by)?;
    Ok(kind)
}

/// The port failed: `system_error(output)` is raised in the context of a predicate.
pub(crate) fn raise_output(run: &mut Run, context: &PredName, rest: u32) -> Result<(), AllocError>
    requires holds { Holds run.old }
    requires rest { rest < length run.old.goals }
    ensures moved { OnOk result ((code : Code) (level : ℕ) → shown code run.new ≡ moved code run.old rest level (raise_row (requests.system_error (codes "output")) (full_name context.now))) }
    ensures stands { OnOk result (Stands run.new) }
{
    let kind = put_output_error(run)?;
    run.raise(kind, context, rest)?;
    Ok(())
}

/// `system_error(output)` as a term of the heap.
fn put_output_error(run: &mut Run) -> Result<Ref, AllocError>
    requires { Holds run.old }
    ensures place { IfOk result (λ r. r.at < length run.new.heap.terms) }
    ensures instance { IfOk result (λ r. instance_in (here_of run.new) r.at ≡ requests.system_error (codes "output")) }
    ensures gained { OnOk result (IsGained run.old run.new) }
{
    let kind = system_error(run.alloc, &mut run.heap, b"output")?;
    Ok(kind)
}
