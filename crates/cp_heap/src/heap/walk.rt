ghost use Rattle.std.specs.Prelude.{◌≡◌, ◌+◌, ◌<◌, ◌^◌, [], ◌∷◌, ◌++◌, length, IfOk, OnOk};
ghost use Rattle.cp_term.specs.Numbering.{occurs};
ghost use Rattle.cp_heap.specs.State.{instance_at};
ghost use Rattle.cp_heap.specs.Layout.{IsPlaced};
ghost use Rattle.cp_heap.specs.Walk.{places_from, argument_places, is_word_of};

use super::Heap;
use crate::reference::Ref;
use crate::word::Word;
use std::alloc::{AllocError, Global};

impl Heap {
    /// Whether a variable occurs in a term, with all bindings.
    pub fn occurs(&self, variable: u32, at: Ref) -> Result<bool, AllocError>
        requires { at.at < length self.now.terms }
        ensures { IfOk result (λ found. found ≡ occurs variable (instance_at self.now at.at)) }
    {
        let mut stack = stack_of(self.alloc, at.at)?;
        'walk: loop {
            match stack.pop() {
                None => return Ok(false),
                Some(next) => {
                    let end = self.end(Ref { at: next });
                    let word = self.word(end);
                    if is_word_of(word, variable) {
                        return Ok(true);
                    }
                    self.push_arguments(&mut stack, word)?;
                }
            }
        }
    }

    /// Puts the places of the arguments on a stack, the first on top.
    pub(super) fn push_arguments(&self, stack: &mut Vec<u32>, word: Word) -> Result<(), AllocError>
        requires { IsPlaced (length self.now.names) self.now.variables (length self.now.terms) word }
        ensures { OnOk result (stack.new.items ≡ stack.old.items ++ argument_places word) }
    {
        let _places = self.len();
        match word {
            Word::Compound(arity, _, first) => push_places(stack, first, arity),
            Word::Variable(_) => Ok(()),
            Word::Integer(_) => Ok(()),
            Word::Atom(_) => Ok(()),
        }
    }
}

/// Whether a word is this variable.
fn is_word_of(word: Word, variable: u32) -> bool
    ensures { result ≡ is_word_of variable word }
{
    match word {
        Word::Variable(own) => own == variable,
        Word::Integer(_) => false,
        Word::Atom(_) => false,
        Word::Compound(_, _, _) => false,
    }
}

/// A stack with this place alone.
pub(super) fn stack_of(alloc: Global, at: u32) -> Result<Vec<u32>, AllocError>
    ensures { IfOk result (λ stack. stack.items ≡ at ∷ []) }
{
    let mut stack = Vec::new(alloc);
    stack.push(at)?;
    Ok(stack)
}

fn push_places(stack: &mut Vec<u32>, first: u32, count: u16) -> Result<(), AllocError>
    requires { first + count < 2 ^ 32 }
    ensures { OnOk result (stack.new.items ≡ stack.old.items ++ places_from first count) }
{
    let mut left = count;
    'places: while left > 0 {
        left -= 1;
        stack.push(first + left as u32)?;
    }
    Ok(())
}
