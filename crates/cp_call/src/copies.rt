ghost use Rattle.std.specs.Prelude.{◌≡◌, IfOk};

use cp_list::ListOf;
use std::alloc::AllocError;

/// The same list of items that are copied bit by bit, as numbers and bytes.
pub fn copy_of<T: Copy>(list: &ListOf<T>) -> Result<ListOf<T>, AllocError>
    ensures { IfOk result (λ copy. copy ≡ list.now) }
{
    let _len = list.len();
    let items = Vec::from_slice(list.alloc(), list.as_slice())?;
    Ok(ListOf::from_vec(items))
}
