//! The content files among the files: those that are no group, and that a group of the service names.
ghost use Rattle.std.specs.Prelude.{◌≡◌, ◌&&◌, not, IfOk};
ghost use Rattle.std.specs.List.{list_any};
ghost use Rattle.std.specs.Str.{bytes_eq};
ghost use Rattle.mh_model.specs.Service.{Service};
ghost use Rattle.mh_service.specs.Contents.{AreFilesOf};
ghost use Rattle.mh_told.specs.Reading.{is_group_file};
ghost use Rattle.mh_script.specs.Contents.{contents, content_of, content_in};

use mh_base::{GroupName, Octets, Seq};
use mh_codec::TagTable;
use mh_model::File;
use mh_service::{ContentNames, Service};
use mh_told::reading::is_group_file;
use std::alloc::{AllocError, Global};

/// The content files that the service names, in order.
pub fn read_contents(
    alloc: Global,
    tags: &TagTable,
    service: &Service,
    files: &[(GroupName, Vec<u8>)],
) -> Result<Seq<File>, AllocError>
    ensures { IfOk result (λ found. found ≡ contents tags.now service.now files.now) }
{
    let names = service.content_names(alloc)?;
    let mut found = Seq::new(alloc);
    for file in files {
        if let Some(content) = content_in(alloc, tags, &names, file)? {
            found.push(content)?;
        }
    }
    Ok(found)
}

/// The file as content, where it is no group and has one of the names.
fn content_in(
    alloc: Global,
    tags: &TagTable,
    names: &ContentNames,
    file: &(GroupName, Vec<u8>),
) -> Result<Option<File>, AllocError>
    ensures { (service : Service) → AreFilesOf service names.now →
        IfOk result (λ content. content ≡ content_in tags.now service file.now) }
{
    if !is_named(tags, names, file) {
        return Ok(None);
    }
    Ok(Some(content_of(alloc, file)?))
}

/// Whether a file is no group, and has one of the names.
fn is_named(tags: &TagTable, names: &ContentNames, file: &(GroupName, Vec<u8>)) -> bool
    ensures { result ≡ (not (is_group_file tags.now file.now.1.items) && list_any (bytes_eq file.now.0) names.now) }
{
    if is_group_file(tags, file.1.as_slice()) {
        return false;
    }
    names.has(&file.0)
}

/// A file as content.
fn content_of(alloc: Global, file: &(GroupName, Vec<u8>)) -> Result<File, AllocError>
    ensures { IfOk result (λ content. content ≡ content_of file.now) }
{
    Ok(File {
        name: file.0.clone()?,
        content: Octets::from_slice(alloc, file.1.as_slice())?,
    })
}
