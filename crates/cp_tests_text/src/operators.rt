use cp_ops::{Fix, OpError, OpTable};
use cp_term::Name;
use std::alloc::Global;
use std::test::Fail;

fn declare(
    alloc: Global,
    table: &mut OpTable,
    priority: i64,
    kind: &[u8],
    name: &[u8],
) -> Result<Option<OpError>, Fail> {
    let kind = Name::of(alloc, kind)?;
    let name = Name::of(alloc, name)?;
    Ok(table.declare(priority, &kind, &name).err())
}

/// Declarations of one name, each with its prefix and infix operator afterwards.
const ACCEPTED: [(i64, &[u8], Option<(u16, Fix)>, Option<(u16, Fix)>); 6] = [
    (1200, b"xfx", None, Some((1200, Fix::Xfx))),
    (1, b"yfx", None, Some((1, Fix::Yfx))),
    (300, b"fy", Some((300, Fix::Fy)), Some((1, Fix::Yfx))),
    (0, b"xfy", Some((300, Fix::Fy)), None),
    (0, b"fx", None, None),
    (0, b"fx", None, None),
];

#[test]
fn the_last_declaration_counts(rt: HostRuntime) -> Result<(), Fail> {
    let mut table = OpTable::standard(rt.alloc())?;
    let name = Name::of(rt.alloc(), b"foo")?;
    for (priority, kind, prefix, infix) in ACCEPTED.iter() {
        let refused = declare(rt.alloc(), &mut table, *priority, kind, b"foo")?;
        assert_eq!(rt; refused, None);
        assert_eq!(rt; table.prefix(&name), *prefix);
        assert_eq!(rt; table.infix(&name), *infix);
    }
    Ok(())
}
