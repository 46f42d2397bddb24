use cp_term::Name;

/// A property of the arguments of a goal, which are counted from 0 (Ciao manual, assertions).
#[derive(Debug, Drop)]
pub enum Prop {
    /// The argument has the property of this name.
    Of { name: Name, arg: u16 },
    /// The argument is a proper list whose elements have the property of this name.
    ListOf { element: Name, arg: u16 },
    Both(Box<Prop>, Box<Prop>),
    Either(Box<Prop>, Box<Prop>),
    Always,
}
