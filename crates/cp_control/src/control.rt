ghost use Rattle.std.specs.Prelude.{◌≡◌, ℕ, ◌+◌, ◌<◌, ◌≤◌, ◌^◌, [], ◌∷◌, List, length, get_or, true};
ghost use Rattle.cp_term.specs.declared.cell.Cell.{Cell};
ghost use Rattle.cp_heap.specs.State.{term, AreTerms};
ghost use Rattle.cp_code.specs.Bodies.{body_of, atom_body, unary_body, binary_body, either_body, ternary_body, compound_body, arrow_of};
ghost use Rattle.cp_control.specs.Control.{arrow_in, reading, readings, body_read, arrow_read, HasParts, HasArrowParts};

use cp_heap::{Heap, Ref, Word};

/// What a term in the place of a goal is, by its functor (ISO/IEC 13211-1, 7.6.2 and 7.8), with the places of its parts.
#[derive(Debug, Clone, Copy, Drop)]
pub enum Control {
    Cut,
    True,
    Fail,
    /// `(A, B)`
    Both(Ref, Ref),
    /// `(A ; B)`
    Either(Ref, Ref),
    /// `(C -> T ; E)`
    Choose(Ref, Ref, Ref),
    /// `(C -> T)`
    IfThen(Ref, Ref),
    /// `\+ G`
    Not(Ref),
    /// `call/1` to `call/8`, with the place of the first further argument and their number; or a variable, which is called.
    Call(Ref, u32, u16),
    /// `catch(Goal, Ball, Recovery)`
    Catch(Ref, Ref, Ref),
    /// `throw(Ball)`
    Throw(Ref),
    /// `findall(Template, Goal, Result)`
    FindAll(Ref, Ref, Ref),
    /// `Module:Goal`
    Within(Ref, Ref),
    /// A goal that is no control.
    Plain,
    /// An integer, which is no goal.
    NoGoal,
}

impl Control {
    /// What the term at a place is, where it stands without its bindings.
    pub fn of(heap: &Heap, at: Ref) -> Control
        requires { at.at < length heap.now.terms }
        ensures body { (m : List ℕ) → body_of m (term heap.now at.at) ≡ body_read heap.now.terms at.at result m }
        ensures parts { HasParts at.at result }
    {
        let _mark = heap.mark();
        match heap.word(at) {
            Word::Variable(_) => Control::Call(at, 0, 0),
            Word::Integer(_) => Control::NoGoal,
            Word::Atom(name) => Control::of_atom(heap.name_at(name).bytes()),
            Word::Compound(arity, name, first) => {
                Control::of_compound(heap, heap.name_at(name).bytes(), arity, first)
            }
        }
    }

    fn of_atom(name: &[u8]) -> Control
        ensures body { (terms : List (List Cell)) (at : ℕ) (m : List ℕ) → get_or terms at [] ≡ Cell.Atom name.now ∷ [] → atom_body name.now m ≡ body_read terms at result m }
        ensures parts { (at : ℕ) → HasParts at result }
    {
        if name == b"!".as_slice() {
            Control::Cut
        } else if name == b"true".as_slice() {
            Control::True
        } else if name == b"fail".as_slice() {
            Control::Fail
        } else {
            Control::Plain
        }
    }

    fn of_compound(heap: &Heap, name: &[u8], arity: u16, first: u32) -> Control
        requires terms { AreTerms heap.now.terms }
        requires arity { 0 < arity }
        requires places { first + arity ≤ length heap.now.terms }
        requires fits { length heap.now.terms < 2 ^ 32 }
        ensures body { (at : ℕ) (m : List ℕ) → compound_body name.now arity (get_or heap.now.terms at []) (readings heap.now.terms first arity) m ≡ body_read heap.now.terms at result m }
        ensures parts { (at : ℕ) → first + arity ≤ at → HasParts at result }
    {
        match arity {
            1 => Control::of_one(name, first),
            2 => Control::of_two(heap, name, first),
            3 => Control::of_three(name, first),
            _ => Control::of_more(name, arity, first),
        }
    }

    fn of_one(name: &[u8], first: u32) -> Control
        ensures body { (terms : List (List Cell)) (at : ℕ) (m : List ℕ) → unary_body name.now (get_or terms at []) (reading (get_or terms first [])) m ≡ body_read terms at result m }
        ensures parts { (at : ℕ) → first < at → HasParts at result }
    {
        let a = Ref { at: first };
        if name == b"\\+".as_slice() {
            Control::Not(a)
        } else if name == b"call".as_slice() {
            Control::Call(a, 0, 0)
        } else if name == b"throw".as_slice() {
            Control::Throw(a)
        } else {
            Control::Plain
        }
    }

    fn of_two(heap: &Heap, name: &[u8], first: u32) -> Control
        requires terms { AreTerms heap.now.terms }
        requires places { first + 2 ≤ length heap.now.terms }
        requires fits { length heap.now.terms < 2 ^ 32 }
        ensures body { (at : ℕ) (m : List ℕ) → binary_body name.now (get_or heap.now.terms at []) (reading (get_or heap.now.terms first [])) (reading (get_or heap.now.terms (first + 1) [])) m ≡ body_read heap.now.terms at result m }
        ensures parts { (at : ℕ) → first + 2 ≤ at → HasParts at result }
    {
        let a = Ref { at: first };
        let b = Ref { at: first + 1 };
        if name == b",".as_slice() {
            Control::Both(a, b)
        } else if name == b";".as_slice() {
            Control::of_either(heap, a, b)
        } else if name == b"->".as_slice() {
            Control::IfThen(a, b)
        } else if name == b":".as_slice() {
            Control::Within(a, b)
        } else if name == b"call".as_slice() {
            Control::Call(a, first + 1, 1)
        } else {
            Control::Plain
        }
    }

    fn of_either(heap: &Heap, a: Ref, b: Ref) -> Control
        requires terms { AreTerms heap.now.terms }
        requires place { a.at < length heap.now.terms }
        ensures body { (at : ℕ) (m : List ℕ) → either_body (arrow_in (get_or heap.now.terms a.at [])) (λ n. body_of n (get_or heap.now.terms a.at [])) (λ n. body_of n (get_or heap.now.terms b.at [])) m ≡ body_read heap.now.terms at result m }
        ensures parts { (at : ℕ) → a.at < at → b.at < at → HasParts at result }
    {
        match arrow_at(heap, a) {
            Some((condition, consequence)) => Control::Choose(condition, consequence, b),
            None => Control::Either(a, b),
        }
    }

    fn of_three(name: &[u8], first: u32) -> Control
        requires { first + 3 < 2 ^ 32 }
        ensures body { (terms : List (List Cell)) (at : ℕ) (m : List ℕ) → first + 3 ≤ length terms → ternary_body name.now (get_or terms at []) (reading (get_or terms first [])) (reading (get_or terms (first + 1) [])) (reading (get_or terms (first + 2) [])) m ≡ body_read terms at result m }
        ensures parts { (at : ℕ) → first + 3 ≤ at → HasParts at result }
    {
        let a = Ref { at: first };
        let b = Ref { at: first + 1 };
        let c = Ref { at: first + 2 };
        if name == b"catch".as_slice() {
            Control::Catch(a, b, c)
        } else if name == b"findall".as_slice() {
            Control::FindAll(a, b, c)
        } else if name == b"call".as_slice() {
            Control::Call(a, first + 1, 2)
        } else {
            Control::Plain
        }
    }

    fn of_more(name: &[u8], arity: u16, first: u32) -> Control
        requires arity { 3 < arity }
        requires fits { first + arity < 2 ^ 32 }
        ensures body { (terms : List (List Cell)) (at : ℕ) (m : List ℕ) → first + arity ≤ length terms → compound_body name.now arity (get_or terms at []) (readings terms first arity) m ≡ body_read terms at result m }
        ensures parts { (at : ℕ) → first + arity ≤ at → HasParts at result }
    {
        if arity <= 8 {
            if name == b"call".as_slice() {
                return Control::Call(Ref { at: first }, first + 1, arity - 1);
            }
        }
        Control::Plain
    }
}

/// The condition and the consequence, where the term at a place is `->`/2.
fn arrow_at(heap: &Heap, at: Ref) -> Option<(Ref, Ref)>
    requires terms { AreTerms heap.now.terms }
    requires place { at.at < length heap.now.terms }
    ensures arrow { arrow_in (term heap.now at.at) ≡ arrow_read heap.now.terms result }
    ensures parts { HasArrowParts at.at result }
{
    match heap.word(at) {
        Word::Compound(arity, name, first) => {
            arrow_of_compound(heap.name_at(name).bytes(), arity, first)
        }
        Word::Variable(_) => None,
        Word::Integer(_) => None,
        Word::Atom(_) => None,
    }
}

fn arrow_of_compound(name: &[u8], arity: u16, first: u32) -> Option<(Ref, Ref)>
    requires { first + arity < 2 ^ 32 }
    ensures arrow { (terms : List (List Cell)) → first + arity ≤ length terms → arrow_of name.now (readings terms first arity) ≡ arrow_read terms result }
    ensures parts { (at : ℕ) → first + arity ≤ at → HasArrowParts at result }
{
    if arity == 2 {
        if name == b"->".as_slice() {
            return Some((Ref { at: first }, Ref { at: first + 1 }));
        }
    }
    None
}
