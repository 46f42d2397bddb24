ghost use Rattle.std.specs.Prelude.{◌≡◌};
ghost use Rattle.cp_goal.specs.Names.{builtin_named, is_test, test_named, of_relations, order_named, value_relation_named, one_more_named, three_named};

use crate::relation::Relation;
use crate::type_test::TypeTest;

/// A builtin goal that is neither control, output, a goal on facts or engines, nor a property.
#[derive(Debug, Clone, Copy, PartialEq, Eq, Drop)]
pub enum Builtin {
    /// `var/1` and its kin.
    Is(TypeTest),
    /// `=/2`.
    Unify,
    /// `\=/2`.
    NotUnify,
    /// `==/2`, `@</2` and their kin.
    InOrder(Relation),
    /// `compare/3`.
    Compare,
    /// `functor/3`.
    Functor,
    /// `arg/3`.
    Argument,
    /// `=../2`.
    Univ,
    /// `copy_term/2`.
    CopyTerm,
    /// `atom_codes/2`.
    AtomCodes,
    /// `number_codes/2`.
    NumberCodes,
    /// `atom_length/2`.
    AtomLength,
    /// `is/2`.
    Evaluate,
    /// `=:=/2`, `</2` and their kin.
    InValue(Relation),
}

impl Builtin {
    /// The builtin with this name and number of arguments.
    pub fn named(name: &[u8], arity: u16) -> Option<Builtin>
        ensures { result ≡ builtin_named name.now arity }
    {
        match arity {
            1 => Builtin::with_one_argument(name),
            2 => Builtin::with_two_arguments(name),
            3 => Builtin::with_three_arguments(name),
            _ => None,
        }
    }

    fn with_one_argument(name: &[u8]) -> Option<Builtin>
        ensures { result ≡ is_test (test_named name.now) }
    {
        match TypeTest::named(name) {
            Some(test) => Some(Builtin::Is(test)),
            None => None,
        }
    }

    fn with_two_arguments(name: &[u8]) -> Option<Builtin>
        ensures { result ≡ of_relations (order_named name.now) (value_relation_named name.now) (one_more_named name.now) }
    {
        if let Some(relation) = Relation::of_order(name) {
            return Some(Builtin::InOrder(relation));
        }
        if let Some(relation) = Relation::of_values(name) {
            return Some(Builtin::InValue(relation));
        }
        Builtin::on_two_terms(name)
    }

    fn on_two_terms(name: &[u8]) -> Option<Builtin>
        ensures { result ≡ one_more_named name.now }
    {
        if name == b"=".as_slice() {
            Some(Builtin::Unify)
        } else if name == b"\\=".as_slice() {
            Some(Builtin::NotUnify)
        } else if name == b"=..".as_slice() {
            Some(Builtin::Univ)
        } else if name == b"copy_term".as_slice() {
            Some(Builtin::CopyTerm)
        } else if name == b"atom_codes".as_slice() {
            Some(Builtin::AtomCodes)
        } else if name == b"number_codes".as_slice() {
            Some(Builtin::NumberCodes)
        } else if name == b"atom_length".as_slice() {
            Some(Builtin::AtomLength)
        } else if name == b"is".as_slice() {
            Some(Builtin::Evaluate)
        } else {
            None
        }
    }

    fn with_three_arguments(name: &[u8]) -> Option<Builtin>
        ensures { result ≡ three_named name.now }
    {
        if name == b"compare".as_slice() {
            Some(Builtin::Compare)
        } else if name == b"functor".as_slice() {
            Some(Builtin::Functor)
        } else if name == b"arg".as_slice() {
            Some(Builtin::Argument)
        } else {
            None
        }
    }
}
