ghost use Rattle.std.specs.Prelude.{◌≡◌, None, IfOk, IfErr, OnOk, OnErr};
ghost use Rattle.cp_assertion.specs.Names.{is_type_of};
ghost use Rattle.cp_assertion.specs.RegularTypes.{is_regular, is_earlier_of, first_irregular, given, IsFault};

use crate::type_error::TypeError;
use crate::type_uses::TypeUses;
use cp_code::{Clause, Clauses, TypeRow, Types};
use cp_term::Name;
use std::alloc::{AllocError, Global};

/// Gives the regular type of this name its clauses, if the rules of regular types admit them all (Ciao manual, "Declaring
/// regular types"); otherwise the number of the first that they do not admit, from 0, is answered. The types are to have a
/// row for each regular type of the program; those that have clauses already are the ones that stand earlier, on which a
/// clause `t(X) :- u(X)` may rest. A refusal changes nothing.
pub fn add_regtype(
    alloc: Global,
    types: &mut Types,
    name: &Name,
    clauses: &Clauses,
) -> Result<(), TypeError>
    ensures ok { OnOk result (first_irregular types.old name.now clauses.now ≡ None) }
    ensures types { OnOk result (types.new ≡ given types.old name.now clauses.now) }
    ensures err { IfErr result (λ e. IsFault (first_irregular types.old name.now clauses.now) e) }
    ensures unchanged { OnErr result (types.new ≡ types.old) }
{
    if let Some(clause) = first_irregular(alloc, types, name, clauses)? {
        return Err(TypeError::NotRegular { clause });
    }
    let copies = copy_clauses(alloc, clauses)?;
    give(types, name, copies);
    Ok(())
}

/// The number, from 0, of the first clause that the rules do not admit.
fn first_irregular(
    alloc: Global,
    types: &Types,
    name: &Name,
    clauses: &Clauses,
) -> Result<Option<u32>, AllocError>
    ensures { IfOk result (λ first. first ≡ first_irregular types.now name.now clauses.now) }
{
    let _len = clauses.len();
    let mut at: u32 = 0;
    for clause in clauses.as_slice() {
        if !is_regular(alloc, types, name, clause)? {
            return Ok(Some(at));
        }
        at += 1;
    }
    Ok(None)
}

fn copy_clauses(alloc: Global, clauses: &Clauses) -> Result<Clauses, AllocError>
    ensures { IfOk result (λ copy. copy ≡ clauses.now) }
{
    let mut copy = Clauses::new(alloc);
    for clause in clauses.as_slice() {
        copy.push(copy_clause(clause)?)?;
    }
    Ok(copy)
}

fn copy_clause(clause: &Clause) -> Result<Clause, AllocError>
    ensures { IfOk result (λ copy. copy ≡ clause.now) }
{
    Ok(Clause {
        whole: clause.whole.copy()?,
        module: clause.module.clone()?,
        line: clause.line,
    })
}

/// Gives the first row of this name these clauses.
fn give(types: &mut Types, name: &Name, clauses: Clauses)
    ensures { types.new ≡ given types.old name.now clauses }
{
    let none = Types::new(types.alloc());
    let mut rows = std::mem::replace(types, none).into_vec();
    give_row(rows.as_mut_slice(), name.bytes(), clauses);
    *types = Types::from_vec(rows);
}

fn give_row(rows: &mut [TypeRow], name: &[u8], clauses: Clauses)
    ensures { rows.new ≡ given rows.old name.now clauses }
{
    for at in 0..rows.len() {
        if rows[at].name.bytes() == name {
            let row = &mut rows[at];
            row.clauses = clauses;
            return;
        }
    }
}

/// Whether the rules of regular types admit a clause as one of the type of this name.
pub fn is_regular(
    alloc: Global,
    types: &Types,
    name: &Name,
    clause: &Clause,
) -> Result<bool, AllocError>
    ensures { IfOk result (λ r. r ≡ is_regular (is_type_of types.now) (is_earlier_of types.now) name.now clause.now.whole) }
{
    match TypeUses::of(alloc, name, clause)? {
        Some(uses) => Ok(uses.are_met(types)),
        None => Ok(false),
    }
}
