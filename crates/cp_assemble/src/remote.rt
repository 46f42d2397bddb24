ghost use Rattle.std.specs.Prelude.{◌≡◌, ◌++◌, ◌<◌, map, position, unwrap_or, length, IfOk, IfSome, OnOk};
ghost use Rattle.std.specs.Str.{bytes_eq};
ghost use Rattle.cp_link.specs.Linked.{remote_pred, peer_of};

use cp_code::{Clauses, GoalMarks, Names, Peer, Peers, PredInfo, PredKind, Preds};
use cp_io::Bytes;
use cp_term::{Name, PredName};
use std::alloc::{AllocError, Global};

/// The place of a name among others, from 0.
fn place_of(names: &[Name], name: &Name) -> Option<usize>
    ensures place { result ≡ position (bytes_eq name.now) names.now }
    ensures within { IfSome result (λ at. at < length names.now) }
{
    names.iter().position(|other| name.bytes() == other.bytes())
}

/// Adds the predicates of active modules.
pub(crate) fn push_remote(
    alloc: Global,
    all: &mut Preds,
    modules: &Names,
    preds: &[PredName],
) -> Result<(), AllocError>
    ensures { OnOk result (all.new ≡ all.old ++ map (remote_pred modules.now) preds.now) }
{
    for pred in preds {
        let info = remote_pred(alloc, modules, pred)?;
        all.push(info)?;
    }
    Ok(())
}

fn remote_pred(alloc: Global, modules: &Names, pred: &PredName) -> Result<PredInfo, AllocError>
    ensures { IfOk result (λ info. info ≡ remote_pred modules.now pred.now) }
{
    Ok(PredInfo {
        name: pred.clone()?,
        clauses: Clauses::new(alloc),
        kind: remote_kind(modules, &pred.module),
        goals: GoalMarks::new(alloc),
    })
}

fn remote_kind(modules: &Names, module_name: &Name) -> PredKind
    ensures { result ≡ PredKind.Remote (unwrap_or (position (bytes_eq module_name.now) modules.now) 0) }
{
    let _len = modules.len();
    match place_of(modules.as_slice(), module_name) {
        Some(at) => PredKind::Remote(at as u32),
        None => PredKind::Remote(0),
    }
}

/// The active modules with these names, whose addresses are not known.
pub(crate) fn peers_of(alloc: Global, modules: &Names) -> Result<Peers, AllocError>
    ensures { IfOk result (λ peers. peers ≡ map peer_of modules.now) }
{
    let mut all = Peers::new(alloc);
    for name in modules.as_slice() {
        all.push(Peer {
            module: name.clone()?,
            address: Bytes::new(alloc),
        })?;
    }
    Ok(all)
}
