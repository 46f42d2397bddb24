ghost use Rattle.std.specs.Prelude.{◌≤◌, ◌*◌, ◌<◌, ◌^◌, length, IfOk};

use cp_ops::OpTable;
use std::alloc::{AllocError, Global};

/// Names of a page of source: operators of each kind, and names that are none.
const NAMES: [&[u8]; 8] = [b":-", b",", b"is", b"foo", b"-", b"mod", b"length", b"\\+"];

/// Looks the names up in the standard table so many times, each as a prefix and as an infix operator, and counts the
/// operators that were found: 8 each time.
pub(crate) fn operators(alloc: Global, count: u32) -> Result<u64, AllocError>
    ensures { IfOk result (λ found. found ≤ 16 * count) }
{
    let table = OpTable::standard(alloc)?;
    let mut found = 0;
    for _ in 0..count {
        found += found_in(&table, &NAMES);
    }
    Ok(found)
}

fn found_in(table: &OpTable, names: &[&[u8]]) -> u64
    requires { length names.now < 2 ^ 32 }
    ensures { result ≤ 2 * length names.now }
{
    let mut found = 0;
    for name in names {
        if table.prefix_of(name).is_some() {
            found += 1;
        }
        if table.infix_of(name).is_some() {
            found += 1;
        }
    }
    found
}
