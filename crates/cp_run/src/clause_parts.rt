ghost use Rattle.std.specs.Prelude.{◌≡◌, ◌+◌, ◌<◌, ◌≤◌, length, IfSome};
ghost use Rattle.std.specs.Option.{option_map};
ghost use Rattle.cp_heap.specs.declared.reference.Ref.{Ref as RefOf};
ghost use Rattle.cp_heap.specs.State.{term};
ghost use Rattle.cp_code.specs.Clauses.{head_of, body_term};
ghost use Rattle.cp_run.specs.Entering.{IsNeckOf};

use cp_heap::{Heap, Ref, Word};

/// The head and the body of a clause that stands on the heap. A fact has no body.
#[derive(Debug, Clone, Copy, Drop)]
pub struct ClauseParts {
    pub head: Ref,
    pub body: Option<Ref>,
}

impl ClauseParts {
    /// The parts of the clause at a place, where it stands without the bindings.
    pub fn of(heap: &Heap, at: Ref) -> ClauseParts
        requires { at.at < length heap.now.terms }
        ensures head { term heap.now result.head.at ≡ head_of (term heap.now at.at) }
        ensures body { option_map (λ (r : RefOf). term heap.now r.at) result.body ≡ body_term (term heap.now at.at) }
        ensures head_there { result.head.at < length heap.now.terms }
        ensures body_there { IfSome result.body (λ r. r.at < length heap.now.terms) }
    {
        let _mark = heap.mark();
        match heap.word(at) {
            Word::Compound(arity, name, first) => {
                if is_neck(heap.name_at(name).bytes(), arity) {
                    return ClauseParts {
                        head: Ref { at: first },
                        body: Some(Ref { at: first + 1 }),
                    };
                }
                ClauseParts {
                    head: at,
                    body: None,
                }
            }
            Word::Variable(_) => ClauseParts {
                head: at,
                body: None,
            },
            Word::Integer(_) => ClauseParts {
                head: at,
                body: None,
            },
            Word::Atom(_) => ClauseParts {
                head: at,
                body: None,
            },
        }
    }
}

/// Whether this is `:-` with two arguments.
fn is_neck(name: &[u8], arity: u16) -> bool
    ensures { IsNeckOf name.now arity result }
{
    if arity == 2 {
        return name == b":-".as_slice();
    }
    false
}
