//! Names, compared by their bytes.
ghost use Rattle.std.specs.Prelude.{◌≡◌, bytes_eq};

use jmodel::bytes::Bytes;

/// Whether two names are the same.
pub(crate) fn equal(a: &[u8], b: &[u8]) -> bool
    ensures { result ≡ bytes_eq a.now b.now }
{
    a == b
}

/// Whether a name that is kept is this one.
pub(crate) fn same(a: &Bytes, b: &[u8]) -> bool
    ensures { result ≡ bytes_eq a.now b.now }
{
    equal(a.as_slice(), b)
}
