ghost use Rattle.std.specs.Prelude.{◌≡◌, [], ◌∷◌, IfSome, length};

use cp_call::{PutReply, Writer};
use cp_io::{Fails, MemSink, bytes_of};
use cp_out::Port;
use cp_turn::Passes;
use cp_turn_port::{PortPass, PortPasses, turn_port};
use std::alloc::Global;
use std::sync::Wait;
use std::test::Fail;

fn only(passes: PortPasses<MemSink>) -> Option<PortPass<MemSink>>
    requires { length passes ≡ 1 }
    ensures { IfSome result (λ p. passes ≡ p ∷ []) }
{
    passes.into_vec().pop()
}

// One caller writes a piece.
fn write_one<R: Wait>(rt: &R, alloc: Global) -> Option<Port<MemSink>> {
    let sink = MemSink::new(alloc, 4, Fails::new(alloc)).ok()?;
    let Ok((turn, passes)) = turn_port(alloc, Port::new(alloc, sink), 1) else {
        return None;
    };
    let piece = bytes_of(alloc, b"a").ok()?;
    let mut seat = turn.seat(rt, only(passes)?);
    let written = seat.write(1, &piece);
    let list = vec![in alloc; seat.into_pass()].ok()?;
    let Ok(PutReply::Wrote) = written else {
        return None;
    };
    Some(turn.close(Passes::from_vec(list)))
}

#[test]
fn a_write_in_a_turn_is_held_and_kept(rt: HostRuntime) -> Result<(), Fail> {
    let Some(port) = write_one(&rt, rt.alloc()) else {
        panic!(rt; "no memory")
    };
    let (sink, entries) = port.into_parts();
    assert_eq!(rt; sink.held(), b"a".as_slice());
    assert_eq!(rt; entries.len(), 1);
    Ok(())
}
