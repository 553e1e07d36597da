//! Parts of slices, as far as there is something.
ghost use Rattle.std.specs.Prelude.{◌≡◌, take, drop};

/// So many from the front, or all where there are fewer.
pub(crate) fn front_of<T>(list: &[T], most: usize) -> &[T]
    ensures { result.now ≡ take most list.now }
{
    if most < list.len() {
        &list[..most]
    } else {
        list
    }
}

/// What stands behind so many, or nothing where there are fewer.
pub(crate) fn behind_of<T>(list: &[T], before: usize) -> &[T]
    ensures { result.now ≡ drop before list.now }
{
    if before < list.len() {
        &list[before..]
    } else {
        &[]
    }
}
