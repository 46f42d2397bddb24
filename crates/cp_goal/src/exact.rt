ghost use Rattle.std.specs.Prelude.{◌≡◌};
ghost use Rattle.cp_goal.specs.Operations.{or_overflow, within};

use crate::fault::Fault;

/// The value of a checked operation.
pub fn exact(value: Option<i64>) -> Result<i64, Fault>
    ensures { result ≡ or_overflow value }
{
    match value {
        Some(value) => Ok(value),
        None => Err(Fault::IntOverflow),
    }
}

/// The value in 64 bits.
pub fn narrow(value: i128) -> Result<i64, Fault>
    ensures { result ≡ within value }
{
    match i64::try_from(value) {
        Ok(value) => Ok(value),
        Err(_) => Err(Fault::IntOverflow),
    }
}
