ghost use Rattle.std.specs.Prelude.{◌≡◌};
ghost use Rattle.cp_goal.specs.Operations.{unary_named, unary_value};

use crate::exact::exact;
use crate::fault::Fault;

/// An operation with one operand.
#[derive(Debug, Clone, Copy, PartialEq, Eq, Drop)]
pub enum Unary {
    Minus,
    Plus,
    Abs,
    Sign,
    Complement,
}

impl Unary {
    /// The operation with this name.
    pub fn named(name: &[u8]) -> Option<Unary>
        ensures { result ≡ unary_named name.now }
    {
        if name == b"-".as_slice() {
            Some(Unary::Minus)
        } else if name == b"+".as_slice() {
            Some(Unary::Plus)
        } else if name == b"abs".as_slice() {
            Some(Unary::Abs)
        } else if name == b"sign".as_slice() {
            Some(Unary::Sign)
        } else if name == b"\\".as_slice() {
            Some(Unary::Complement)
        } else {
            None
        }
    }

    /// Its value: that over whole numbers, or IntOverflow where 64 bits do not hold it.
    pub fn value(self, a: i64) -> Result<i64, Fault>
        ensures { result ≡ unary_value self a }
    {
        match self {
            Unary::Minus => exact(a.checked_neg()),
            Unary::Plus => Ok(a),
            Unary::Abs => exact(a.checked_abs()),
            Unary::Sign => Ok(a.signum()),
            Unary::Complement => Ok(!a),
        }
    }
}
