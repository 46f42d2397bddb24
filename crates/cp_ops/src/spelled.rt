ghost use Rattle.std.specs.Hash as fed;
ghost use Rattle.std.specs.Str.{bytes_eq};
ghost use Rattle.std.specs.Cmp.Lexicographic.{bytes_decides, nat_list_eq_equiv};
ghost use Rattle.std.proofs.Common.{ap};

use cp_term::Name;
use indexmap::Equivalent;

/// The bytes of a name, which stand for it in a look-up.
#[derive(Clone, Copy, PartialEq, Eq, Hash)]
pub(crate) struct Spelled<'a> {
    pub(crate) bytes: &'a [u8],
}

impl<'a> Equivalent<Name> for Spelled<'a> {
    ghost equivalent = { λ s name. bytes_eq s.bytes.now name };

    ghost respects_hash = { λ s name h. ap (fed.slice fed.u8) ((bytes_decides s.bytes.now name).0 h) };

    ghost respects_eq = { λ s x y. nat_list_eq_equiv.congr s.bytes.now x y };

    fn equivalent(&self, key: &Name) -> bool {
        self.bytes == key.bytes()
    }
}
