ghost use Rattle.std.specs.Prelude.{◌≡◌};
ghost use Rattle.cp_assertion.specs.Names.{is_of_bindings, is_of_integers, is_of_atoms, is_of_compounds, is_of_language, is_property, is_type_of};

use cp_code::{TypeRow, Types};
use cp_term::Name;

/// Whether a property of the language has this name (Ciao manual, "Basic data types and properties").
pub fn is_of_language(name: &Name) -> bool
    ensures { result ≡ is_of_language name.now }
{
    let name = name.bytes();
    is_of_bindings(name) || is_of_integers(name) || is_of_atoms(name) || is_of_compounds(name)
}

fn is_of_bindings(name: &[u8]) -> bool
    ensures { result ≡ is_of_bindings name.now }
{
    name == b"term".as_slice()
        || name == b"var".as_slice()
        || name == b"nonvar".as_slice()
        || name == b"gnd".as_slice()
        || name == b"ground".as_slice()
}

fn is_of_integers(name: &[u8]) -> bool
    ensures { result ≡ is_of_integers name.now }
{
    name == b"int".as_slice()
        || name == b"integer".as_slice()
        || name == b"num".as_slice()
        || name == b"number".as_slice()
        || name == b"nnegint".as_slice()
}

fn is_of_atoms(name: &[u8]) -> bool
    ensures { result ≡ is_of_atoms name.now }
{
    name == b"atm".as_slice()
        || name == b"atom".as_slice()
        || name == b"constant".as_slice()
        || name == b"atomic".as_slice()
}

fn is_of_compounds(name: &[u8]) -> bool
    ensures { result ≡ is_of_compounds name.now }
{
    name == b"struct".as_slice()
        || name == b"compound".as_slice()
        || name == b"callable".as_slice()
        || name == b"list".as_slice()
}

/// Whether it is the name of a property: of one of the language, or of one of the regular types.
pub fn is_property(types: &Types, name: &Name) -> bool
    ensures { result ≡ is_property (is_type_of types.now) name.now }
{
    is_of_language(name) || is_type(types.as_slice(), name.bytes())
}

fn is_type(types: &[TypeRow], name: &[u8]) -> bool
    ensures { result ≡ is_type_of types.now name.now }
{
    types.iter().any(|row| row.name.bytes() == name)
}
