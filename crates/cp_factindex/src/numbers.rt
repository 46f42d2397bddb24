ghost use Rattle.std.specs.Prelude.{ℕ, ◌≡◌, IsSome, IfOk, OnOk, OnErr};
ghost use Rattle.cp_factindex.specs.Waiting.{number_in, has_caller, IsSetAt};

use std::alloc::{AllocError, Global};
use std::collections::BTreeMap;

/// For each caller that was parked before the number of its row, or none where it is not parked now.
pub type Numbers = BTreeMap<u32, Option<i64>, Global>;

/// The number of the caller's row, if it is parked.
pub fn number_of(numbers: &Numbers, caller: u32) -> Option<i64>
    ensures { result ≡ number_in numbers.now caller }
{
    match numbers.get(&caller) {
        Some(number) => *number,
        None => None,
    }
}

/// Makes room for the number of a caller.
pub fn make_room(numbers: &mut Numbers, caller: u32) -> Result<(), AllocError>
    ensures room { OnOk result (has_caller numbers.new caller) }
    ensures others { (other : ℕ) → has_caller numbers.old other → has_caller numbers.new other }
    ensures kept { (other : ℕ) → number_in numbers.new other ≡ number_in numbers.old other }
{
    if numbers.contains_key(&caller) {
        return Ok(());
    }
    match numbers.insert(caller, None) {
        Ok(_) => Ok(()),
        Err(_) => Err(AllocError),
    }
}

/// Sets the number of a caller. It takes no memory.
pub fn set_number(numbers: &mut Numbers, caller: u32, number: Option<i64>)
    requires { has_caller numbers.old caller }
    ensures { IsSetAt numbers.old numbers.new caller number }
{
    match numbers.get_mut(&caller) {
        Some(place) => *place = number,
        None => unreachable!(),
    }
}
