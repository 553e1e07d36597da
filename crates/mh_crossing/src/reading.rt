//! Files as a caller in C gives them.
ghost use Rattle.std.specs.Prelude.{◌≡◌, IfOk, IsErrOf, OnOk, true, false};
ghost use Rattle.mh_base.specs.Path.{is_path};
ghost use Rattle.mh_crossing.specs.Files.{AreHanded, handed, have_paths, kept};

use crate::source::Source;
use mh_base::{GroupName, NameError};
use std::alloc::Global;

/// The files in memory of the library's own, each under its name.
pub fn owned_files(
    alloc: Global,
    sources: &[Source],
) -> Result<Vec<(GroupName, Vec<u8>)>, NameError>
    ensures same { IfOk result (λ files. AreHanded sources.now files.items) }
    ensures good { OnOk result (have_paths sources.now ≡ true) }
    ensures bad { IsErrOf result NameError.BadName → have_paths sources.now ≡ false }
{
    let mut files = Vec::new(alloc);
    for source in sources {
        let file = owned_file(alloc, source)?;
        if files.push(file).is_err() {
            return Err(NameError::NoMemory);
        }
    }
    Ok(files)
}

fn owned_file(alloc: Global, source: &Source) -> Result<(GroupName, Vec<u8>), NameError>
    ensures same { IfOk result (λ file. kept file ≡ handed source.now) }
    ensures good { OnOk result (is_path source.now.name.now ≡ true) }
    ensures bad { IsErrOf result NameError.BadName → is_path source.now.name.now ≡ false }
{
    let name = GroupName::of_path(alloc, source.name)?;
    let bytes = Vec::from_slice(alloc, source.content)?;
    Ok((name, bytes))
}
