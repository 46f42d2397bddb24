//! The program that `gen N` writes.
#![tactic(auto)]

ghost use Rattle.std.specs.Prelude.{◌≡◌, ◌++◌, IfOk};
ghost use Rattle.cp_generate.specs.Program.{program_of};

use cp_io::{Bytes, bytes_of};
use itoa::Buffer;
use std::alloc::{AllocError, Global};

/// The text up to the number of items.
const BEFORE: &[u8] = b":- module(load, [main/0], [concurrency]).
:- concurrent item/1.
:- concurrent got/2.
main :-
    eng_call(produce(1), create, create, P),
    eng_call(work(0, 0), create, create, A),
    eng_call(work(0, 0), create, create, B),
    eng_call(work(0, 0), create, create, C),
    eng_call(work(0, 0), create, create, D),
    eng_wait(P), eng_wait(A), eng_wait(B), eng_wait(C), eng_wait(D),
    close_predicate(got(_, _)),
    total(0, 0).
produce(I) :- I > ";

/// The text between its two places.
const BETWEEN: &[u8] = b", !, close_predicate(item(_)).
produce(I) :- assertz_fact(item(I)), J is I + 1, produce(J).
work(K, S) :- retract_fact(item(X)), !, K1 is K + 1, S1 is S + X, work(K1, S1).
work(K, S) :- assertz_fact(got(K, S)).
total(K, S) :- retract_fact(got(A, B)), !, K1 is K + A, S1 is S + B, total(K1, S1).
total(K, S) :- write(";

/// The text after it.
const AFTER: &[u8] = b"), write(' produced, '), write(K), write(' taken, sum '), write(S), nl.
";

/// The three parts with the digits between them.
fn joined(
    alloc: Global,
    before: &[u8],
    between: &[u8],
    after: &[u8],
    digits: &[u8],
) -> Result<Bytes, AllocError>
    ensures { IfOk result (λ text. text ≡ before.now ++ digits.now ++ between.now ++ digits.now ++ after.now) }
{
    let mut text = Vec::from_slice(alloc, before)?;
    text.extend_from_slice(digits)?;
    text.extend_from_slice(between)?;
    text.extend_from_slice(digits)?;
    text.extend_from_slice(after)?;
    bytes_of(alloc, text.as_slice())
}

/// The text of the program with so many items: one engine produces them, four engines take them, and the last line that the
/// program writes tells how many were produced, how many were taken and their sum. It is meant for 1 to 100,000 items.
pub fn generate(alloc: Global, items: u32) -> Result<Bytes, AllocError>
    ensures { IfOk result (λ text. text ≡ program_of items) }
{
    let mut buffer = Buffer::new();
    let digits = buffer.format(items).as_bytes();
    joined(alloc, BEFORE, BETWEEN, AFTER, digits)
}
