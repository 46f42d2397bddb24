ghost use Rattle.std.specs.Prelude.{◌≡◌, ◌<◌};
ghost use Rattle.cp_turn.specs.Passes.{IsOutside};

use cp_turn::{Ledgered, Pass, Passes, Turnstile, make};
use std::alloc::Global;
use std::sync::Wait;
use std::thread;
use std::thread::Threads;

// The numbers of the callers, one for each entry.
#[derive(Drop)]
struct Row {
    items: Vec<u32>,
}

impl Ledgered for Row {
    type Entry = u32;

    type Basis = ();

    ghost by = { λ e. e };

    ghost entries = { λ r. r.items.items };

    ghost base = { λ _. tt };
}

// One turn, with one entry of the caller's. Without memory for it the row stays as it is.
fn add_one<R: Wait>(rt: &R, turnstile: &Turnstile<Row>, pass: &mut Pass<Row>) -> bool
    requires { IsOutside turnstile.now pass.old }
    ensures { IsOutside turnstile.now pass.new × (pass.new.number ≡ pass.old.number) }
{
    let mut row = turnstile.enter(rt, pass);
    let added = row.items.push(pass.number()).is_ok();
    turnstile.leave(pass, row);
    added
}

// So many turns, with an entry in each.
fn add<R: Wait>(rt: &R, turnstile: &Turnstile<Row>, pass: &mut Pass<Row>, turns: u32) -> bool
    requires { IsOutside turnstile.now pass.old }
    ensures { IsOutside turnstile.now pass.new × (pass.new.number ≡ pass.old.number) }
{
    for _ in 0..turns {
        if !add_one(rt, turnstile, pass) {
            return false;
        }
    }
    true
}

// Each of so many callers takes so many turns in a thread of its own, and every turn adds one entry.
fn by_many<R: Threads + Wait + Sync>(rt: &R, alloc: Global, callers: u32, turns: u32) -> Option<Row>
    requires { 0 < callers }
{
    let row = Row {
        items: Vec::new(alloc),
    };
    let Ok((turnstile, passes)) = make(alloc, row, callers) else {
        return None;
    };
    let mut list = passes.into_vec();
    let shared = &turnstile;
    thread::for_each_mut(
        rt,
        list.as_mut_slice(),
        callers as usize,
        &|_, pass| {
            let _ = add(rt, shared, pass, turns);
        },
    );
    Some(turnstile.close(Passes::from_vec(list)))
}

#[test]
fn callers_take_turns_in_threads(rt: HostRuntime) {
    for (callers, turns, entries) in [(2, 1000, 2000), (32, 200, 6400), (1, 0, 0)] {
        let Some(row) = by_many(&rt, rt.alloc(), callers, turns) else {
            panic!(rt; "no memory")
        };
        assert_eq!(rt; row.items.len(), entries, "{callers}");
        let of_last = row.items.iter().filter(|n| **n == callers).count();
        assert_eq!(rt; of_last, turns as usize, "{callers}");
    }
}
