ghost use Rattle.std.specs.Prelude.{◌≡◌, map, IfOk};
ghost use Rattle.cp_load.specs.Loading.{ops_of_part};

use cp_assemble::ModuleParts;
use cp_code::OpTables;
use std::alloc::{AllocError, Global};

/// The operators of each file at its end.
pub(crate) fn operators_of(alloc: Global, parts: ModuleParts) -> Result<OpTables, AllocError>
    ensures { IfOk result (λ ops. ops ≡ map ops_of_part parts) }
{
    let mut ops = OpTables::new(alloc);
    for part in parts.into_vec() {
        ops.push(part.into_ops())?;
    }
    Ok(ops)
}
