ghost use Rattle.std.specs.Prelude.{◌≡◌, ◌+◌, ◌<◌, ◌^◌, ◌++◌, OnOk};
ghost use Rattle.cp_unify.specs.Pairs.{pairs_from};

use cp_heap::Ref;
use std::alloc::AllocError;

/// Two terms that are to be made one.
#[derive(Debug, Clone, Copy, Drop)]
pub(crate) struct Pair {
    pub(crate) left: Ref,
    pub(crate) right: Ref,
}

/// Puts pairs of terms that stand side by side on a stack, the first on top.
pub(crate) fn push_pairs(
    pairs: &mut Vec<Pair>,
    left: u32,
    right: u32,
    count: u16,
) -> Result<(), AllocError>
    requires left { left + count < 2 ^ 32 }
    requires right { right + count < 2 ^ 32 }
    ensures { OnOk result (pairs.new.items ≡ pairs.old.items ++ pairs_from left right count) }
{
    let mut rest = count;
    'pairs: while rest > 0 {
        rest -= 1;
        pairs.push(Pair {
            left: Ref {
                at: left + rest as u32,
            },
            right: Ref {
                at: right + rest as u32,
            },
        })?;
    }
    Ok(())
}
