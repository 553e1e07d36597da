//! Parts of a text: what stands in front of a place, and what stands behind it.
ghost use Rattle.std.specs.Prelude.{◌≡◌, take, drop};

/// What stands behind so many bytes.
pub(crate) fn behind(file: &[u8], offset: usize) -> &[u8]
    ensures { result.now ≡ drop offset file.now }
{
    file.get(offset..).unwrap_or(&[])
}

/// The first so many bytes.
pub(crate) fn front(file: &[u8], length: usize) -> &[u8]
    ensures { result.now ≡ take length file.now }
{
    file.get(..length).unwrap_or(file)
}
