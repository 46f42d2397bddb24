ghost use Rattle.std.specs.Prelude.{◌≡◌};
ghost use Rattle.cp_goal.specs.Names.{order_named, value_relation_named};

/// How two terms, or the values of two expressions, compare.
#[derive(Debug, Clone, Copy, PartialEq, Eq, Drop)]
pub enum Relation {
    Equal,
    NotEqual,
    Less,
    NotGreater,
    Greater,
    NotLess,
}

impl Relation {
    /// The relation in the standard order that has this name.
    pub fn of_order(name: &[u8]) -> Option<Relation>
        ensures { result ≡ order_named name.now }
    {
        if name == b"==".as_slice() {
            Some(Relation::Equal)
        } else if name == b"\\==".as_slice() {
            Some(Relation::NotEqual)
        } else if name == b"@<".as_slice() {
            Some(Relation::Less)
        } else if name == b"@=<".as_slice() {
            Some(Relation::NotGreater)
        } else if name == b"@>".as_slice() {
            Some(Relation::Greater)
        } else if name == b"@>=".as_slice() {
            Some(Relation::NotLess)
        } else {
            None
        }
    }

    /// The relation between values that has this name.
    pub fn of_values(name: &[u8]) -> Option<Relation>
        ensures { result ≡ value_relation_named name.now }
    {
        if name == b"=:=".as_slice() {
            Some(Relation::Equal)
        } else if name == b"=\\=".as_slice() {
            Some(Relation::NotEqual)
        } else if name == b"<".as_slice() {
            Some(Relation::Less)
        } else if name == b"=<".as_slice() {
            Some(Relation::NotGreater)
        } else if name == b">".as_slice() {
            Some(Relation::Greater)
        } else if name == b">=".as_slice() {
            Some(Relation::NotLess)
        } else {
            None
        }
    }
}
