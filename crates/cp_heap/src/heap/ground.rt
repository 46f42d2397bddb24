ghost use Rattle.std.specs.Prelude.{◌≡◌, ◌<◌, length, IfOk};
ghost use Rattle.cp_heap.specs.State.{instance_at, is_ground};
ghost use Rattle.cp_heap.specs.Walk.{is_free_word};

use super::Heap;
use super::walk::stack_of;
use crate::reference::Ref;
use crate::word::Word;
use std::alloc::AllocError;

impl Heap {
    /// Whether no variable is left in a term, with all bindings.
    pub fn is_ground(&self, at: Ref) -> Result<bool, AllocError>
        requires { at.at < length self.now.terms }
        ensures { IfOk result (λ answer. answer ≡ is_ground (instance_at self.now at.at)) }
    {
        let mut stack = stack_of(self.alloc, at.at)?;
        'walk: loop {
            match stack.pop() {
                None => return Ok(true),
                Some(next) => {
                    let end = self.end(Ref { at: next });
                    let word = self.word(end);
                    if is_free_word(word) {
                        return Ok(false);
                    }
                    self.push_arguments(&mut stack, word)?;
                }
            }
        }
    }
}

/// Whether a word is a variable.
fn is_free_word(word: Word) -> bool
    ensures { result ≡ is_free_word word }
{
    match word {
        Word::Variable(_) => true,
        Word::Integer(_) => false,
        Word::Atom(_) => false,
        Word::Compound(_, _, _) => false,
    }
}
