ghost use Rattle.std.specs.Prelude.{◌≡◌, ◌+◌, ◌<◌, ◌≤◌, ◌^◌, length};
ghost use Rattle.cp_term.specs.Order.{compare_under, term_cmp};
ghost use Rattle.cp_heap.specs.State.{term, substitution};
ghost use Rattle.cp_unify.specs.Rows.{row};

use crate::order::first_order;
use crate::words::{argument_count, first_argument};
use cp_heap::{Heap, Ref};
use std::cmp::Ordering;

/// The standard order of two terms. It takes no memory.
pub fn compare(heap: &Heap, a: Ref, b: Ref) -> Ordering
    requires a { a.at < length heap.now.terms }
    requires b { b.at < length heap.now.terms }
    ensures { result ≡ compare_under (substitution heap.now) (term heap.now a.at) (term heap.now b.at) }
{
    compare_rows(heap, a.at, b.at, 1)
}

/// The order of two rows of terms that stand side by side. It calls itself for the arguments of each term but the last.
fn compare_rows(heap: &Heap, left: u32, right: u32, count: u16) -> Ordering
    requires left { left + count ≤ length heap.now.terms }
    requires left_fits { left + count ≤ 2 ^ 32 }
    requires right { right + count ≤ length heap.now.terms }
    requires right_fits { right + count ≤ 2 ^ 32 }
    ensures { result ≡ term_cmp (row heap.now left count) (row heap.now right count) }
{
    let mut left = left;
    let mut right = right;
    let mut count = count;
    'row: while count > 0 {
        let left_word = heap.word(heap.end(Ref { at: left }));
        let right_word = heap.word(heap.end(Ref { at: right }));
        let first = first_order(heap, left_word, right_word);
        if first.is_ne() {
            return first;
        }
        let arguments = argument_count(left_word);
        if count == 1 {
            left = first_argument(left_word);
            right = first_argument(right_word);
            count = arguments;
        } else {
            let inner = compare_rows(
                heap,
                first_argument(left_word),
                first_argument(right_word),
                arguments,
            );
            if inner.is_ne() {
                return inner;
            }
            left += 1;
            right += 1;
            count -= 1;
        }
    }
    Ordering::Equal
}
