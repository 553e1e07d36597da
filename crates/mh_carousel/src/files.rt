//! The files under their names.
ghost use Rattle.std.specs.Prelude.{◌≡◌, ◌≤◌};
ghost use Rattle.std.specs.Option.{option_copied};
ghost use Rattle.indexmap.specs.IndexMap.{spare};
ghost use Rattle.mh_model.specs.Files.{content, is_too_many, with_file};
ghost use Rattle.mh_carousel.specs.Ahead.{has};
ghost use Rattle.mh_carousel.specs.Carried.{files_of};

use indexmap::IndexMap;
use mh_base::{GroupName, Octets};
use mh_model::File;

/// The most files.
pub(crate) const MOST_FILES: usize = 1024;

/// What the file of this name contains, if it is there.
pub(crate) fn content<'a>(
    files: &'a IndexMap<GroupName, Octets>,
    name: &GroupName,
) -> Option<&'a Octets>
    ensures { option_copied result ≡ content name.now (files_of files.now.entries) }
{
    files.get(name)
}

/// Whether a file of this name is there.
pub(crate) fn has(files: &IndexMap<GroupName, Octets>, name: &GroupName) -> bool
    ensures { result ≡ has name.now (files_of files.now.entries) }
{
    files.contains_key(name)
}

/// Whether there are as many files as there may be, and none of this one's name.
#[tactic(auto, using(crate::proofs::AheadLemmas::many_new))]
pub(crate) fn is_beyond(files: &IndexMap<GroupName, Octets>, file: &File) -> bool
    ensures { result ≡ is_too_many file.now (files_of files.now.entries) }
{
    MOST_FILES <= files.len() && !has(files, &file.name)
}

/// Puts the file in the place of an older one of its name, or at the end, where there is room.
pub(crate) fn put_file(files: &mut IndexMap<GroupName, Octets>, file: File)
    requires { 1 ≤ spare files.old }
    ensures { files_of files.new.entries ≡ with_file file (files_of files.old.entries) }
{
    let File { name, content } = file;
    match files.insert(name, content) {
        Ok(_) => {}
        Err(_) => unreachable!(),
    }
}
