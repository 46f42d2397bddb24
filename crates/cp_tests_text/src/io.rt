ghost use Rattle.std.specs.Prelude.{◌≡◌, IfOk};

use cp_io::{
    Accepted, ByteLists, Dialer, Fail, Fails, Fetched, FileRow, FileRows, Files, Gate, Link,
    Listener, MemDialer, MemFiles, MemLink, MemLinks, MemListener, MemSink, Received, Sink,
    SinkFault, SleepGate, StdFiles, StdOut, TcpDialer, TcpDoor, bytes_of,
};
use std::alloc::{AllocError, Global};
use std::test::Fail as Failure;

fn link(alloc: Global, arriving: &[u8]) -> Result<MemLink, AllocError>
    ensures { IfOk result (λ link. link.faults ≡ 0) }
{
    MemLink::new(alloc, bytes_of(alloc, arriving)?, 8, Fails::new(alloc))
}

#[test]
fn a_sink_fails_where_it_is_told_to(rt: HostRuntime) -> Result<(), Failure> {
    let mut fails = Fails::new(rt.alloc());
    fails.push(Fail { call: 2, taken: 1 })?;
    let mut sink = MemSink::new(rt.alloc(), 4, fails)?;
    assert_eq!(rt; sink.put(b"ab"), Ok(()));
    assert_eq!(rt; sink.put(b"cd"), Err(SinkFault));
    assert_eq!(rt; sink.held(), b"abc".as_slice());
    Ok(())
}

#[test]
fn a_parted_dialer_has_the_same_to_come(rt: HostRuntime) -> Result<(), Failure> {
    let mut coming = ByteLists::new(rt.alloc());
    coming.push(bytes_of(rt.alloc(), b"\x07")?)?;
    let mut whole = MemDialer::new(rt.alloc(), coming, 8, Fails::new(rt.alloc()))?;
    let mut dialer = whole.part(1)?;
    assert_eq!(rt; dialer.dial(b"a:1"), Ok(()));
    let mut into = [0; 4];
    assert_eq!(rt; dialer.recv(&mut into), Received::Took(1));
    Ok(())
}

#[test]
fn a_listener_gives_its_wires(rt: HostRuntime) -> Result<(), Failure> {
    let wire = link(rt.alloc(), b"a")?;
    let mut wires = MemLinks::new(rt.alloc());
    wires.push(wire)?;
    let mut listener = MemListener::new(wires, Fails::new(rt.alloc()));
    assert!(rt; matches!(listener.accept(), Accepted::Wire(_)));
    assert!(rt; matches!(listener.accept(), Accepted::Done));
    Ok(())
}

fn has_bytes(fetched: &Fetched, wanted: &[u8]) -> bool {
    match fetched {
        Fetched::Bytes(bytes) => bytes.as_slice() == wanted,
        _ => false,
    }
}

fn row(alloc: Global) -> Result<FileRow, AllocError> {
    let name = bytes_of(alloc, b"m.pl")?;
    let bytes = bytes_of(alloc, b"main.")?;
    Ok(FileRow { name, bytes })
}

#[test]
fn files_in_memory_are_fetched(rt: HostRuntime) -> Result<(), Failure> {
    let row = row(rt.alloc())?;
    let mut rows = FileRows::new(rt.alloc());
    rows.push(row)?;
    let mut files = MemFiles::new(rt.alloc(), rows, Fails::new(rt.alloc()));
    assert!(rt; has_bytes(&files.fetch(b"m.pl", 3)?, b"main"));
    Ok(())
}

#[test]
fn files_are_fetched(rt: HostRuntime) -> Result<(), Failure> {
    let mut files = StdFiles::new(rt.alloc(), &rt);
    assert!(rt; has_bytes(&files.fetch(b"/dev/zero", 2)?, b"\0\0\0"));
    assert!(rt; matches!(files.fetch(b"none.pl", 2)?, Fetched::Missing));
    assert!(rt; matches!(files.fetch(b"/", 2)?, Fetched::Fault));
    Ok(())
}

#[test]
fn standard_output_takes_a_piece(rt: HostRuntime) {
    let mut out = StdOut::new(&rt);
    assert_eq!(rt; out.put(b"piece\n"), Ok(()));
    SleepGate::new(&rt).pause();
}

#[test]
fn a_dialer_meets_a_door(rt: HostRuntime) -> Result<(), Failure> {
    let mut door = TcpDoor::bind(&rt, b"127.0.0.1:0");
    let port = door.port().ok_or("the door is bound")?;
    let address = format!(in rt.alloc(); "127.0.0.1:{port}")?;
    let mut dialer = TcpDialer::new(&rt);
    assert_eq!(rt; dialer.dial(address.as_bytes()), Ok(()));
    let Accepted::Wire(mut wire) = door.accept() else {
        return Err("a wire comes".into());
    };
    assert_eq!(rt; dialer.send(b"call"), Ok(()));
    let mut into = [0; 8];
    assert_eq!(rt; wire.recv(&mut into), Received::Took(4));
    dialer.hang_up();
    assert_eq!(rt; wire.recv(&mut into), Received::End);
    Ok(())
}
