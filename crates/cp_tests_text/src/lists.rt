use cp_list::{ListOf, ReservedList};
use std::test::Fail;

#[test]
fn a_list_grows_and_shrinks(rt: HostRuntime) -> Result<(), Fail> {
    let mut list: ListOf<u16> = ListOf::new(rt.alloc());
    list.push(7)?;
    assert_eq!(rt; list.get(0), Some(&7));
    assert_eq!(rt; list.pop(), Some(7));
    assert_eq!(rt; list.len(), 0);
    Ok(())
}

#[test]
fn room_is_taken_ahead(rt: HostRuntime) -> Result<(), Fail> {
    let mut list: ReservedList<u16> = ReservedList::new(rt.alloc());
    list.reserve(1)?;
    list.put(7);
    list.push(8)?;
    assert_eq!(rt; list.into_list().as_slice(), [7, 8].as_slice());
    Ok(())
}
