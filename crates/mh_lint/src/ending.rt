//! What bytes end in.
ghost use Rattle.std.specs.Prelude.{◌≡◌};
ghost use Rattle.mh_lint.specs.Notes.{ends_in};

/// Whether the bytes end so.
pub(crate) fn ends_in(end: &[u8], bytes: &[u8]) -> bool
    ensures { result ≡ ends_in end.now bytes.now }
{
    &bytes[bytes.len().saturating_sub(end.len())..] == end
}
