ghost use Rattle.std.specs.Prelude.{◌≡◌, ◌≤◌, ◌++◌, [], None, map, IfOk};
ghost use Rattle.std.specs.List.{flat_map};
ghost use Rattle.cp_link.specs.Modules.{shared_in};
ghost use Rattle.cp_link.specs.Refusals.{refused, rules_of_parts};
ghost use Rattle.cp_link.specs.Linked.{active_modules, peer_of, preds_in, remote_pred, remote_preds};
ghost use Rattle.cp_link.specs.Lawful.{IsRunnable, AllHaveBodies};
ghost use Rattle.cp_assemble.specs.Answers.{Assembles};
ghost use Rattle.cp_assemble.specs.Given.{with_preds};

use crate::active::{all_active, modules_of};
use crate::imports::imports;
use crate::modules::{all_shared, first_exports, first_name, names, written};
use crate::objects::Objects;
use crate::preds::push_preds_in;
use crate::remote::{peers_of, push_remote};
use crate::types::types;
use cp_code::{Assertions, Names, OpTables, Peers, PredNames, Preds, Program};
use cp_module::ModulePart;
use cp_term::PredName;
use std::alloc::{AllocError, Global};

/// The predicates of a program, and the active modules that it uses.
#[derive(Drop)]
struct Defined {
    preds: Preds,
    peers: Peers,
}

/// The program that these files and the prelude make. The files stand in loading order, those that one of them imports are
/// among them, and nothing is refused in them; the prelude has no shared predicates.
pub fn assemble(
    alloc: Global,
    parts: &[ModulePart],
    prelude: &ModulePart,
) -> Result<Program, AllocError>
    requires accepted { refused parts.now ≡ None }
    requires prelude { shared_in prelude.now.clauses ≡ [] }
    ensures { IfOk result (λ p. Assembles parts.now prelude.now p × IsRunnable p) }
{
    let program = linked(alloc, parts, prelude)?;
    Ok(program)
}

/// The program, whose bodies are goals.
fn linked(alloc: Global, parts: &[ModulePart], prelude: &ModulePart) -> Result<Program, AllocError>
    requires accepted { refused parts.now ≡ None }
    ensures program { IfOk result (λ p. Assembles parts.now prelude.now p) }
    ensures bodies { IfOk result (λ p. AllHaveBodies p.preds) }
{
    let names = all_shared(alloc, parts)?;
    let shared = Objects::new(names);
    let defined = all_defined(alloc, parts, prelude, &shared)?;
    let program = program_of(alloc, parts, defined, shared.into_preds())?;
    Ok(program)
}

/// The program of the files with these predicates, of which these are shared.
fn program_of(
    alloc: Global,
    parts: &[ModulePart],
    defined: Defined,
    shared: PredNames,
) -> Result<Program, AllocError>
    requires { rules_of_parts parts.now ≤ 65536 }
    ensures { IfOk result (λ p. p ≡ with_preds parts.now defined.preds shared defined.peers) }
{
    let Defined { preds, peers } = defined;
    Ok(Program {
        first: first_name(alloc, parts)?,
        preds,
        shared,
        exports: first_exports(alloc, parts)?,
        peers,
        types: types(alloc, parts)?,
        checks: Assertions::new(alloc),
        modules: names(alloc, parts)?,
        ops: OpTables::new(alloc),
        imports: imports(alloc, parts)?,
        written: written(parts),
    })
}

/// The predicates of the files, of the active modules that they use and of the prelude, and those modules.
fn all_defined(
    alloc: Global,
    parts: &[ModulePart],
    prelude: &ModulePart,
    shared: &Objects,
) -> Result<Defined, AllocError>
    ensures preds { IfOk result (λ d. d.preds ≡ flat_map (preds_in shared.now) parts.now ++ remote_preds parts.now ++ preds_in [] prelude.now) }
    ensures peers { IfOk result (λ d. d.peers ≡ map peer_of (active_modules parts.now)) }
    ensures bodies { IfOk result (λ d. AllHaveBodies d.preds) }
{
    let active = all_active(alloc, parts)?;
    let modules = modules_of(alloc, active.as_slice())?;
    let preds = preds(alloc, parts, prelude, shared, &modules, active.as_slice())?;
    let peers = peers_of(alloc, &modules)?;
    Ok(Defined { preds, peers })
}

/// The predicates alone, by the names of those modules and of their predicates.
fn preds(
    alloc: Global,
    parts: &[ModulePart],
    prelude: &ModulePart,
    shared: &Objects,
    modules: &Names,
    active: &[PredName],
) -> Result<Preds, AllocError>
    ensures preds { IfOk result (λ all. all ≡ flat_map (preds_in shared.now) parts.now ++ map (remote_pred modules.now) active.now ++ preds_in [] prelude.now) }
    ensures bodies { IfOk result (λ all. AllHaveBodies all) }
{
    let mut all = preds_of(alloc, parts, shared)?;
    push_remote(alloc, &mut all, modules, active)?;
    let none = Objects::none(alloc);
    push_preds_in(alloc, &mut all, &none, prelude)?;
    Ok(all)
}

fn preds_of(alloc: Global, parts: &[ModulePart], shared: &Objects) -> Result<Preds, AllocError>
    ensures preds { IfOk result (λ all. all ≡ flat_map (preds_in shared.now) parts.now) }
    ensures bodies { IfOk result (λ all. AllHaveBodies all) }
{
    let mut all = Preds::new(alloc);
    for part in parts {
        push_preds_in(alloc, &mut all, shared, part)?;
    }
    Ok(all)
}
