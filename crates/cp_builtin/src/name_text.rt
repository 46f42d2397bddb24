ghost use Rattle.std.specs.Prelude.{◌≡◌, ◌≤◌, length};
ghost use Rattle.std.specs.Str.{chars};

use cp_term::Name;

/// The text of a name.
pub(crate) fn name_text(name: &Name) -> &str
    ensures { result.now ≡ name.now }
{
    match str::from_utf8(name.bytes()) {
        Ok(text) => text,
        Err(_) => unreachable!(),
    }
}

/// The number of characters of a name.
pub(crate) fn characters(name: &Name) -> usize
    ensures value { result ≡ length (chars name.now) }
    ensures few { result ≤ 1024 }
{
    let _bytes = name.bytes();
    name_text(name).chars().count()
}
