ghost use Rattle.std.specs.Prelude.{◌≡◌, ◌≤◌, length, IfOk};
ghost use Rattle.cp_module.specs.Paths.{file_part, folder_of, has_ending, base_of, imported_file};

use cp_io::{Bytes, bytes_of};
use std::alloc::{AllocError, Global};

/// The base name of a file: the part of its path behind the last `/`, without `.pl` at its end.
pub fn base_of(path: &[u8]) -> &[u8]
    ensures { result.now ≡ base_of path.now }
{
    let file = file_part(path);
    if has_ending(file) {
        &file[..file.len().saturating_sub(3)]
    } else {
        file
    }
}

/// The path of the file that a module of the file at this path imports under a name: it stands in the same directory,
/// and has the name with `.pl` behind it, unless the name ends so.
#[tactic(auto, unfolding(crate::specs::Paths::imported_file))]
pub fn imported_file(alloc: Global, path: &[u8], name: &[u8]) -> Result<Bytes, AllocError>
    ensures { IfOk result (λ file. file ≡ imported_file path.now name.now) }
{
    let mut bytes = Vec::from_slice(alloc, folder_of(path))?;
    bytes.extend_from_slice(name)?;
    if !has_ending(name) {
        bytes.extend_from_slice(b".pl")?;
    }
    bytes_of(alloc, &bytes)
}

/// The part of a path behind its last `/`.
fn file_part(path: &[u8]) -> &[u8]
    ensures value { result.now ≡ file_part path.now }
    ensures len { length result.now ≤ length path.now }
{
    let mut start = 0;
    for (at, byte) in path.iter().enumerate() {
        if *byte == b'/' {
            start = at + 1;
        }
    }
    &path[start..]
}

/// The part of a path up to its last `/` and with it.
fn folder_of(path: &[u8]) -> &[u8]
    ensures { result.now ≡ folder_of path.now }
{
    &path[..path.len() - file_part(path).len()]
}

/// Whether a name ends in `.pl`.
fn has_ending(name: &[u8]) -> bool
    ensures { result ≡ has_ending name.now }
{
    &name[name.len().saturating_sub(3)..] == b".pl".as_slice()
}
