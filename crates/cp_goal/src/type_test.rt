ghost use Rattle.std.specs.Prelude.{◌≡◌};
ghost use Rattle.cp_goal.specs.Names.{test_named};

/// A test of what a term is where it stands.
#[derive(Debug, Clone, Copy, PartialEq, Eq, Drop)]
pub enum TypeTest {
    Var,
    Nonvar,
    Atom,
    Integer,
    Atomic,
    Compound,
    Callable,
    Ground,
}

impl TypeTest {
    /// The test with this name.
    pub fn named(name: &[u8]) -> Option<TypeTest>
        ensures { result ≡ test_named name.now }
    {
        if name == b"var".as_slice() {
            Some(TypeTest::Var)
        } else if name == b"nonvar".as_slice() {
            Some(TypeTest::Nonvar)
        } else if name == b"atom".as_slice() {
            Some(TypeTest::Atom)
        } else if name == b"integer".as_slice() {
            Some(TypeTest::Integer)
        } else if name == b"number".as_slice() {
            Some(TypeTest::Integer)
        } else if name == b"atomic".as_slice() {
            Some(TypeTest::Atomic)
        } else if name == b"compound".as_slice() {
            Some(TypeTest::Compound)
        } else if name == b"callable".as_slice() {
            Some(TypeTest::Callable)
        } else if name == b"ground".as_slice() {
            Some(TypeTest::Ground)
        } else {
            None
        }
    }
}
