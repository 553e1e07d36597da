//! When the box of an object stays as it is.
ghost use Rattle.std.specs.Prelude.{◌≡◌};
ghost use Rattle.mh_store.specs.Keeping.{is_of_box, leaves_box};

use mh_group::Attribute;
use mh_model::Edit;

/// Whether the edit leaves the box of the object as it is, as far as can be seen before it.
pub fn leaves_box(edit: &Edit) -> bool
    ensures { result ≡ leaves_box edit.now }
{
    match edit {
        Edit::Put(attribute, _) => !is_of_box(*attribute),
        _ => true,
    }
}

/// Whether the box is read under the attribute.
fn is_of_box(attribute: Attribute) -> bool
    ensures { result ≡ is_of_box attribute }
{
    matches!(attribute, Attribute::OrigBoxSize | Attribute::OrigPosition)
}
