ghost use Rattle.std.specs.Prelude.{◌≡◌};
ghost use Rattle.cp_declaration.specs.Words.{is_package, is_library, is_status, is_kind};

/// Whether a file may use the package of this name.
pub(crate) fn is_package(name: &[u8]) -> bool
    ensures { result ≡ is_package name.now }
{
    name == b"assertions".as_slice()
        || name == b"rtchecks".as_slice()
        || name == b"regtypes".as_slice()
        || name == b"concurrency".as_slice()
}

/// Whether a file may use the library of this name.
pub(crate) fn is_library(name: &[u8]) -> bool
    ensures { result ≡ is_library name.now }
{
    name == b"concurrency".as_slice()
        || name == b"aggregates".as_slice()
        || name == b"lists".as_slice()
        || name == b"write".as_slice()
}

/// Whether it is the status of an assertion.
pub(crate) fn is_status(name: &[u8]) -> bool
    ensures { result ≡ is_status name.now }
{
    name == b"check".as_slice()
        || name == b"trust".as_slice()
        || name == b"true".as_slice()
        || name == b"checked".as_slice()
        || name == b"false".as_slice()
}

/// Whether it is the kind of an assertion.
pub(crate) fn is_kind(name: &[u8]) -> bool
    ensures { result ≡ is_kind name.now }
{
    name == b"pred".as_slice()
        || name == b"calls".as_slice()
        || name == b"success".as_slice()
        || name == b"comp".as_slice()
}
