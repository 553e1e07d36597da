//! The tokens of a file, and the objects that they name.
ghost use Rattle.std.specs.Prelude.{◌≡◌, IfOk};
ghost use Rattle.std.specs.Option.{option_copied};
ghost use Rattle.mh_answers.specs.Objects as spec;

use mh_base::{GroupName, ObjRef};
use mh_edit::{Spot, object_of, spot_over, spots_of, words_of};
use std::alloc::{AllocError, Global};

/// A file of a service: the name of its group, and its text.
pub type File = (GroupName, Vec<u8>);

/// The tokens of a text with what each stands in.
pub fn spots_in(alloc: Global, bytes: &[u8]) -> Result<Vec<Spot>, AllocError>
    ensures { IfOk result (λ spots. spots.items ≡ spec.spots_in bytes.now) }
{
    let words = words_of(alloc, bytes)?;
    spots_of(alloc, bytes, words.as_slice())
}

/// The file of this group.
pub fn file_named<'a>(files: &'a [File], name: &[u8]) -> Option<&'a File>
    ensures { option_copied result ≡ spec.file_named name.now files.now }
{
    files.iter().find(|file| file.0.as_bytes() == name)
}

/// The object that is named at a place of a file.
#[tactic(auto, unfolding(crate::specs::Objects::object_at))]
pub fn object_at(alloc: Global, file: &File, offset: usize) -> Result<Option<ObjRef>, AllocError>
    ensures { IfOk result (λ object. object ≡ spec.object_at file.now offset) }
{
    let spots = spots_in(alloc, file.1.as_slice())?;
    object_over(alloc, file, spots.as_slice(), offset)
}

fn object_over(
    alloc: Global,
    file: &File,
    spots: &[Spot],
    offset: usize,
) -> Result<Option<ObjRef>, AllocError>
    ensures { IfOk result (λ object. object ≡ spec.object_over file.now spots.now offset) }
{
    match spot_over(spots, offset) {
        Some(spot) => object_of(alloc, &file.0, file.1.as_slice(), spot.role),
        None => Ok(None),
    }
}
