ghost use Rattle.std.specs.Prelude.{◌≡◌, ◌<◌, [], ◌∷◌, ◌++◌, length, map, IfOk, codes};
ghost use Rattle.std.specs.Str.{chars};
ghost use Rattle.std.specs.Fmt.{signed_decimal};
ghost use Rattle.cp_term.specs.declared.cell.Cell.TheVariants.{Func as FuncCell};
ghost use Rattle.cp_heap.specs.State.{term, AreRefs, terms_at};
ghost use Rattle.cp_goal.specs.Lists.{list_term, code_term};
ghost use Rattle.cp_goal.specs.Builtins.{codes_term};
ghost use Rattle.cp_lists.specs.Growing.{GainsTerms};

use cp_heap::{Heap, Ref, Refs};
use cp_term::Name;
use itoa::Buffer;
use std::alloc::{AllocError, Global};

/// Makes the list of terms, of the functor '.'/2 and the atom [] (ISO/IEC 13211-1, 6.3.5). They stay the terms that they
/// are: nothing of them is copied.
pub fn list_of(alloc: Global, heap: &mut Heap, elements: &Refs) -> Result<Ref, AllocError>
    requires { AreRefs heap.old elements.now }
    ensures live { IfOk result (λ r. r.at < length heap.new.terms) }
    ensures term { IfOk result (λ r. term heap.new r.at ≡ list_term (terms_at heap.old elements.now)) }
    ensures gains { GainsTerms heap.old heap.new }
{
    let _mark = heap.mark();
    let dot = Name::known(alloc, b".")?;
    let end = Name::known(alloc, b"[]")?;
    let end = heap.atom(&end)?;
    elements_before(alloc, heap, &dot, elements.as_slice(), end)
}

/// Puts elements before the empty list, the last one first.
fn elements_before(
    alloc: Global,
    heap: &mut Heap,
    dot: &Name,
    elements: &[Ref],
    end: Ref,
) -> Result<Ref, AllocError>
    requires dot { dot.now ≡ codes "." }
    requires elements { AreRefs heap.old elements.now }
    requires live { end.at < length heap.old.terms }
    requires end { term heap.old end.at ≡ list_term [] }
    ensures live { IfOk result (λ r. r.at < length heap.new.terms) }
    ensures term { IfOk result (λ r. term heap.new r.at ≡ list_term (terms_at heap.old elements.now)) }
    ensures gains { GainsTerms heap.old heap.new }
{
    let _mark = heap.mark();
    let mut list = end;
    let mut at = elements.len();
    'elements: while at > 0 {
        at -= 1;
        list = pair(alloc, heap, dot, elements[at], list)?;
    }
    Ok(list)
}

/// Makes a compound of two arguments.
fn pair(
    alloc: Global,
    heap: &mut Heap,
    name: &Name,
    first: Ref,
    second: Ref,
) -> Result<Ref, AllocError>
    requires first { first.at < length heap.old.terms }
    requires second { second.at < length heap.old.terms }
    ensures live { IfOk result (λ r. r.at < length heap.new.terms) }
    ensures term { IfOk result (λ r. term heap.new r.at ≡ FuncCell name.now 2 ∷ term heap.old first.at ++ term heap.old second.at) }
    ensures gains { GainsTerms heap.old heap.new }
{
    let arguments = two(alloc, first, second)?;
    heap.compound(name, &arguments)
}

fn two(alloc: Global, first: Ref, second: Ref) -> Result<Refs, AllocError>
    ensures { IfOk result (λ refs. refs ≡ first ∷ second ∷ []) }
{
    let mut refs = Refs::new(alloc);
    refs.push(first)?;
    refs.push(second)?;
    Ok(refs)
}

/// Makes the list of the numbers of the characters of a text.
pub fn codes_list(alloc: Global, heap: &mut Heap, text: &str) -> Result<Ref, AllocError>
    ensures live { IfOk result (λ r. r.at < length heap.new.terms) }
    ensures term { IfOk result (λ r. term heap.new r.at ≡ codes_term (chars text.now)) }
    ensures gains { GainsTerms heap.old heap.new }
{
    let characters = characters_of(alloc, text)?;
    let codes = codes_of(alloc, heap, characters.as_slice())?;
    list_of(alloc, heap, &codes)
}

/// Makes the list of the codes of an integer's text in decimal.
pub fn digits_list(alloc: Global, heap: &mut Heap, integer: i64) -> Result<Ref, AllocError>
    ensures live { IfOk result (λ r. r.at < length heap.new.terms) }
    ensures term { IfOk result (λ r. term heap.new r.at ≡ codes_term (signed_decimal integer)) }
    ensures gains { GainsTerms heap.old heap.new }
{
    let mut buffer = Buffer::new();
    codes_list(alloc, heap, buffer.format(integer))
}

fn characters_of(alloc: Global, text: &str) -> Result<Vec<char>, AllocError>
    ensures { IfOk result (λ cs. cs.items ≡ chars text.now) }
{
    text.chars().collect(alloc)
}

/// Makes the integers that are the numbers of these characters.
fn codes_of(alloc: Global, heap: &mut Heap, characters: &[char]) -> Result<Refs, AllocError>
    ensures live { IfOk result (λ refs. AreRefs heap.new refs) }
    ensures terms { IfOk result (λ refs. terms_at heap.new refs ≡ map code_term characters.now) }
    ensures gains { GainsTerms heap.old heap.new }
{
    let _mark = heap.mark();
    let mut codes = Refs::new(alloc);
    'characters: for character in characters {
        codes.push(code(heap, *character)?)?;
    }
    Ok(codes)
}

/// Makes the integer that is the number of a character.
fn code(heap: &mut Heap, character: char) -> Result<Ref, AllocError>
    ensures live { IfOk result (λ r. r.at < length heap.new.terms) }
    ensures term { IfOk result (λ r. term heap.new r.at ≡ code_term character) }
    ensures gains { GainsTerms heap.old heap.new }
{
    let _mark = heap.mark();
    heap.integer(i64::from(u32::from(character)))
}
