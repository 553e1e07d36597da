//! Where in the files of a folder something stands.
//!
//! Promise: each function answers what the definition of its name in `specs/Places` says.
ghost use Rattle.std.specs.Prelude.{◌≡◌, ◌++◌, IfOk, OnOk};
ghost use Rattle.std.specs.Option.{option_copied};
ghost use Rattle.mh_places.specs.Directory.{file_of};
ghost use Rattle.mh_judged.specs.Places as spec;

use crate::spans::{part_span, span_or_beginning};
use mh_base::{GroupName, ObjRef};
use mh_cause::Detail;
use mh_findings::{Site, Words};
use mh_places::{Directory, Span};
use mh_told::text::Text;
use mh_verify::Place;
use std::alloc::{AllocError, Global};

/// In the file of this name; where nothing in it is known, its beginning.
#[tactic(auto, unfolding(crate::specs::Places::site_at))]
pub(crate) fn site_at(
    alloc: Global,
    folder: &[u8],
    name: &[u8],
    span: Option<Span>,
) -> Result<Site, AllocError>
    ensures { IfOk result (λ site. site ≡ spec.site_at folder.now name.now span) }
{
    let path = path_of(alloc, folder, name)?;
    Ok(Site {
        file: Words::of_bytes(alloc, path.as_slice())?,
        span: span_or_beginning(span),
    })
}

/// The folder and the name, with a slash between them.
#[tactic(auto, unfolding(crate::specs::Places::path_of))]
fn path_of(alloc: Global, folder: &[u8], name: &[u8]) -> Result<Text, AllocError>
    ensures { IfOk result (λ path. path ≡ spec.path_of folder.now name.now) }
{
    let mut path = Text::new(alloc);
    path.put(folder)?;
    put_slash(&mut path, folder)?;
    path.put(name)?;
    Ok(path)
}

/// Puts what stands behind the folder.
fn put_slash(path: &mut Text, folder: &[u8]) -> Result<(), AllocError>
    ensures { OnOk result (path.new ≡ path.old ++ spec.slash_behind folder.now) }
{
    if ends_in_slash(folder) {
        return Ok(());
    }
    path.put(b"/")
}

fn ends_in_slash(folder: &[u8]) -> bool
    ensures { result ≡ spec.ends_in_slash folder.now }
{
    match folder.last() {
        Some(byte) => *byte == b'/',
        None => false,
    }
}

/// Where an object stands.
#[tactic(auto, unfolding(crate::specs::Places::object_site))]
pub(crate) fn object_site(
    alloc: Global,
    folder: &[u8],
    directory: &Directory<'_>,
    at: &ObjRef,
) -> Result<Site, AllocError>
    ensures { IfOk result (λ site. site ≡ spec.object_site folder.now directory.now at.now) }
{
    site_at(
        alloc,
        folder,
        at.group.as_bytes(),
        directory.object_span(at),
    )
}

/// Where the action of an object with this number stands, from 1 on, or with 0 the object itself.
#[tactic(auto, unfolding(crate::specs::Places::numbered_site))]
pub(crate) fn numbered_site(
    alloc: Global,
    folder: &[u8],
    directory: &Directory<'_>,
    at: &ObjRef,
    index: usize,
) -> Result<Site, AllocError>
    ensures { IfOk result (λ site. site ≡ spec.numbered_site folder.now directory.now at.now index) }
{
    let span = numbered_span(directory, at, index);
    site_at(alloc, folder, at.group.as_bytes(), span)
}

fn numbered_span(directory: &Directory<'_>, at: &ObjRef, index: usize) -> Option<Span>
    ensures { result ≡ spec.numbered_span directory.now at.now index }
{
    if index == 0 {
        return directory.object_span(at);
    }
    directory.action_span(at, index - 1)
}

/// Where the part of an action stands that the verifier names.
#[tactic(auto, unfolding(crate::specs::Places::part_site))]
pub(crate) fn part_site(
    alloc: Global,
    folder: &[u8],
    files: &[(GroupName, Vec<u8>)],
    place: &Place,
    detail: Detail,
) -> Result<Site, AllocError>
    ensures { IfOk result (λ site. site ≡ spec.part_site folder.now files.now place.now detail) }
{
    let span = part_in(alloc, files, place, detail)?;
    site_at(alloc, folder, place.group.as_bytes(), span)
}

/// What is meant by it in its file, if that is there.
fn part_in(
    alloc: Global,
    files: &[(GroupName, Vec<u8>)],
    place: &Place,
    detail: Detail,
) -> Result<Option<Span>, AllocError>
    ensures { IfOk result (λ span. span ≡ spec.part_in files.now place.now detail) }
{
    match file_named(files, place.group.as_bytes()) {
        Some(file) => part_span(alloc, place, detail, file.1.as_slice()),
        None => Ok(None),
    }
}

/// The file of this name, if it is there.
pub(crate) fn file_named<'a>(
    files: &'a [(GroupName, Vec<u8>)],
    name: &[u8],
) -> Option<&'a (GroupName, Vec<u8>)>
    ensures { option_copied result ≡ file_of files.now name.now }
{
    files.iter().find(|file| file.0.as_bytes() == name)
}
