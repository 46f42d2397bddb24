ghost use Rattle.std.specs.Prelude.{◌≡◌, ℕ, ◌<◌, ◌≤◌, length, codes, IfOk, OnOk};
ghost use Rattle.std.specs.Str.{IsUtf8};
ghost use Rattle.cp_goal.specs.Errors.{instantiation_error, type_error};
ghost use Rattle.cp_goal.specs.Builtins as builtins;
ghost use Rattle.cp_code.specs.Code.{Code};
ghost use Rattle.cp_code.specs.Requests.{full_name};
ghost use Rattle.cp_run.specs.Gaining.{raise_row};
ghost use Rattle.cp_run.specs.Shown.{here_of, instance_in, shown, moved};
ghost use Rattle.cp_run.specs.Stands.{Holds, Stands};

use cp_heap::Ref;
use cp_request::{instantiation_error_of, type_error_of};
use cp_run::Run;
use cp_term::{Name, PredName};
use std::alloc::{AllocError, Global};

/// The predicate that an error names: one of the language, as the module `seer` sees it.
pub(crate) fn context_of(
    alloc: Global,
    seer: &Name,
    name: &[u8],
    arity: u16,
) -> Result<PredName, AllocError>
    requires utf8 { IsUtf8 name.now }
    requires len { length name.now ≤ 1024 }
    ensures { IfOk result (λ p. full_name p ≡ builtins.context seer.now name.now arity) }
{
    let name = Name::known(alloc, name)?;
    let module = seer.clone()?;
    Ok(PredName {
        module,
        name,
        arity,
    })
}

/// A variable stands where a term is wanted.
pub(crate) fn raise_unbound(run: &mut Run, context: &PredName, rest: u32) -> Result<(), AllocError>
    requires holds { Holds run.old }
    requires rest { rest < length run.old.goals }
    ensures moved { OnOk result ((code : Code) (level : ℕ) → shown code run.new ≡ moved code run.old rest level (raise_row instantiation_error (full_name context.now))) }
    ensures stands { OnOk result (Stands run.new) }
{
    let kind = instantiation_error_of(run.alloc, &mut run.heap)?;
    run.raise(kind, context, rest)?;
    Ok(())
}

/// A term that is no goal stands where one is wanted.
pub(crate) fn raise_not_callable(
    run: &mut Run,
    goal: Ref,
    context: &PredName,
    rest: u32,
) -> Result<(), AllocError>
    requires holds { Holds run.old }
    requires goal { goal.at < length run.old.heap.terms }
    requires rest { rest < length run.old.goals }
    ensures moved { OnOk result ((code : Code) (level : ℕ) → shown code run.new ≡ moved code run.old rest level (raise_row (type_error (codes "callable") (instance_in (here_of run.old) goal.at)) (full_name context.now))) }
    ensures stands { OnOk result (Stands run.new) }
{
    let kind = type_error_of(run.alloc, &mut run.heap, b"callable", goal)?;
    run.raise(kind, context, rest)?;
    Ok(())
}
