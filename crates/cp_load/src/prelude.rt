ghost use Rattle.cp_load.specs.Loading.{IsPrelude};

use cp_module::{Loaded, module_of};
use std::alloc::Global;

/// The text of the prelude, which is one like that of a file.
const TEXT: &[u8] =
    b":- module(prelude, [append/3, member/2, length/2, between/3, once/1]).\nappend([], L, L).\nappend([H|T], L, [H|R]) :- append(T, L, R).\nmember(X, [X|_]).\nmember(X, [_|T]) :- member(X, T).\nlength(L, N) :- len(L, 0, N).\nlen([], N, N).\nlen([_|T], A, N) :- B is A + 1, len(T, B, N).\nbetween(L, H, L) :- L =< H.\nbetween(L, H, X) :- L < H, M is L + 1, between(M, H, X).\n:- meta_predicate once(goal).\nonce(G) :- call(G), !.\n";

/// The prelude, which is not refused.
pub(crate) fn prelude(alloc: Global) -> Loaded
    ensures { IsPrelude result }
{
    module_of(alloc, b"prelude.pl", TEXT)
}
