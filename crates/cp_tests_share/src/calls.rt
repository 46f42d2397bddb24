use crate::building::q;
use cp_call::{Call, Callers, ObjectName, Reply, copy_of, wire_size};
use cp_io::bytes_of;
use cp_term::{Name, PredName};
use std::alloc::Global;
use std::test::Fail;

fn next(alloc: Global, after: Option<i64>) -> Result<Call, Fail> {
    Ok(Call::Next {
        pattern: q(alloc, 1)?,
        after,
    })
}

#[test]
fn a_copied_call_is_equal_and_another_cursor_is_not(rt: HostRuntime) -> Result<(), Fail> {
    let call = next(rt.alloc(), Some(7))?;
    assert!(rt; call.clone()?.equal(&call));
    assert!(rt; !call.equal(&next(rt.alloc(), None)?));
    Ok(())
}

fn closed(alloc: Global) -> Result<Reply, Fail> {
    let mut woken = Callers::new(alloc);
    woken.push(2)?;
    Ok(Reply::Closed { woken })
}

fn object(alloc: Global) -> Result<ObjectName, Fail> {
    Ok(ObjectName::Pred(PredName {
        module: Name::of(alloc, b"m")?,
        name: Name::of(alloc, b"q")?,
        arity: 1,
    }))
}

#[test]
fn copied_replies_and_names_are_equal(rt: HostRuntime) -> Result<(), Fail> {
    let reply = closed(rt.alloc())?;
    assert!(rt; reply.clone()?.equal(&reply));
    let name = object(rt.alloc())?;
    assert!(rt; name.clone()?.equal(&name));
    Ok(())
}

#[test]
fn a_compound_takes_sixteen_bytes_on_the_wire(rt: HostRuntime) -> Result<(), Fail> {
    let bytes = bytes_of(rt.alloc(), b"a")?;
    assert_eq!(rt; copy_of(&bytes)?.as_slice(), b"a".as_slice());
    assert_eq!(rt; wire_size(&q(rt.alloc(), 1)?), 16);
    Ok(())
}
