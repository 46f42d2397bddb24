use cp_call::{PutReply, Writer};
use cp_io::{Fail, Fails, MemSink, bytes_of};
use cp_out::Port;
use std::test::Fail as Failure;

#[test]
fn what_is_put_is_held_and_kept(rt: HostRuntime) -> Result<(), Failure> {
    let sink = MemSink::new(rt.alloc(), 4, Fails::new(rt.alloc()))?;
    let mut port = Port::new(rt.alloc(), sink);
    assert!(rt; matches!(port.put(1, &bytes_of(rt.alloc(), b"a")?)?, PutReply::Wrote));
    assert!(rt;
        matches!(
            port.write(2, &bytes_of(rt.alloc(), b"b")?)?,
            PutReply::Wrote
        )
    );
    let (sink, entries) = port.into_parts();
    assert_eq!(rt; sink.held(), b"ab".as_slice());
    assert_eq!(rt; entries.get(1).map(|entry| entry.engine), Some(2));
    Ok(())
}

#[test]
fn a_sink_that_failed_is_not_called_again(rt: HostRuntime) -> Result<(), Failure> {
    let mut fails = Fails::new(rt.alloc());
    fails.push(Fail { call: 2, taken: 0 })?;
    let mut port = Port::new(rt.alloc(), MemSink::new(rt.alloc(), 4, fails)?);
    let piece = bytes_of(rt.alloc(), b"1")?;
    assert!(rt; matches!(port.put(1, &piece)?, PutReply::Wrote));
    assert!(rt; matches!(port.put(1, &piece)?, PutReply::Failed));
    assert!(rt; matches!(port.put(1, &piece)?, PutReply::Failed));
    assert!(rt; port.has_failed());
    let (sink, entries) = port.into_parts();
    assert_eq!(rt; sink.held(), b"1".as_slice());
    assert_eq!(rt; entries.len(), 3);
    Ok(())
}
