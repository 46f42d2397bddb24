ghost use Rattle.std.specs.Prelude.{IfOk};
ghost use Rattle.cp_load.specs.Answers.{IsSafe};

use cp_code::{Program, ProgramCode};
use cp_io::{Fails, FileRow, FileRows, MemFiles, MemSink, bytes_of};
use cp_load::{Need, load};
use cp_schedule::{PickEnd, Picked};
use cp_simulate::simulate_on;
use std::alloc::{AllocError, Global};
use std::test::Fail;

/// A file in memory.
fn files(alloc: Global) -> Result<MemFiles, AllocError> {
    let mut rows = FileRows::new(alloc);
    rows.push(FileRow {
        name: bytes_of(alloc, b"m.pl")?,
        bytes: bytes_of(alloc, b":- module(m, [main/0]).\nmain :- write(1).\n")?,
    })?;
    Ok(MemFiles::new(alloc, rows, Fails::new(alloc)))
}

fn program(alloc: Global) -> Result<Program, Fail>
    ensures { IfOk result IsSafe }
{
    let mut files = files(alloc)?;
    match load(alloc, &mut files, b"m.pl", Need { main: true }) {
        Ok(program) => Ok(program),
        Err(_) => Err("it is not loaded".into()),
    }
}

/// How a run of the program by a list of picks ends, and what it writes.
fn run(alloc: Global, picks: &[u32]) -> Result<PickEnd<MemSink>, Fail> {
    let program = program(alloc)?;
    let code = ProgramCode {
        program,
        steps: 1000,
    };
    let sink = MemSink::new(alloc, 4, Fails::new(alloc))?;
    Ok(simulate_on(alloc, &code, picks, 1, sink))
}

#[test]
fn a_run_ends_where_its_engine_is_parked(rt: HostRuntime) -> Result<(), Fail> {
    let picks = [1; 20];
    let Picked::BadPick { place } = run(rt.alloc(), &picks)?.end else {
        return Err("no parked engine is picked".into());
    };
    if place > picks.len() {
        return Err("the place is behind the picks".into());
    }
    let run = run(rt.alloc(), &picks[..place])?;
    assert!(rt; matches!(run.end, Picked::Ended { .. }));
    assert_eq!(rt; run.sink.held(), b"1".as_slice());
    Ok(())
}

#[test]
fn a_run_stops_at_a_pick_of_nobody(rt: HostRuntime) -> Result<(), Fail> {
    assert!(rt; matches!(run(rt.alloc(), &[1])?.end, Picked::Awake));
    assert!(rt; matches!(run(rt.alloc(), &[1, 2])?.end, Picked::BadPick { place: 1 }));
    Ok(())
}
