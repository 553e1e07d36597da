//! Where the actions of effects are written in files.
//!
//! Promise: the directory is that of `specs/Directory`. What a slot does, and what is written in the binary notation, has no entry.
ghost use Rattle.std.specs.Prelude.{◌≡◌, ◌+◌, ◌-◌, ◌<◌, ◌≤◌, ◌^◌, IfOk, IfSome, OnOk};
ghost use Rattle.mh_try.specs.Directory as spec;

use mh_base::{GroupName, ObjRef};
use mh_group::Attribute;
use mh_places::{Counter, Place, put_place};
use mh_text::{Mark, marks};
use mh_told::text::Text;
use mh_trace::{Directory, EffectKind, Site};
use std::alloc::{AllocError, Global};

/// Where the actions of these files are written.
pub fn directory_of(alloc: Global, files: &[(GroupName, Vec<u8>)]) -> Result<Directory, AllocError>
    ensures { IfOk result (λ directory. directory ≡ spec.directory_of files.now) }
{
    let mut directory = Directory::new(alloc);
    for file in files {
        add_file(alloc, &mut directory, file)?;
    }
    Ok(directory)
}

fn add_file(
    alloc: Global,
    directory: &mut Directory,
    file: &(GroupName, Vec<u8>),
) -> Result<(), AllocError>
    ensures { OnOk result (directory.new ≡ spec.with_file file.now directory.old) }
{
    let (group, bytes) = (&file.0, file.1.as_slice());
    let marks = marks(alloc, bytes)?;
    add_marks(alloc, directory, group, bytes, marks.as_slice())
}

fn add_marks(
    alloc: Global,
    directory: &mut Directory,
    group: &GroupName,
    bytes: &[u8],
    marks: &[Mark],
) -> Result<(), AllocError>
    ensures { OnOk result (directory.new ≡ spec.with_marks group.now bytes.now (spec.beginning_of group.now) marks.now directory.old) }
{
    let mut last = beginning_of(group)?;
    let mut places = Counter::of(bytes);
    for mark in marks {
        if let Some(site) = site_of(group, &last, mark)? {
            let text = written(alloc, group, places.place_at(mark.start))?;
            directory.add(site.copied()?, text)?;
            last = site;
        }
    }
    Ok(())
}

/// Before the first action of a file.
fn beginning_of(group: &GroupName) -> Result<Site, AllocError>
    ensures { IfOk result (λ site. site ≡ spec.beginning_of group.now) }
{
    Ok(Site {
        object: object_in(group, 0)?,
        kind: EffectKind::StartUp,
        number: 0,
    })
}

fn object_in(group: &GroupName, number: u32) -> Result<ObjRef, AllocError>
    ensures { IfOk result (λ object. object ≡ spec.object_in group.now number) }
{
    Ok(ObjRef {
        group: group.clone()?,
        number,
    })
}

/// The place of an action that is marked, behind the action that was marked before.
fn site_of(group: &GroupName, before: &Site, mark: &Mark) -> Result<Option<Site>, AllocError>
    requires { before.now.number < 2 ^ 64 - 1 }
    ensures is { IfOk result (λ site. site ≡ spec.site_of group.now before.now mark.now) }
    ensures within { IfOk result (λ site. IfSome site (λ s. s.number ≤ before.now.number + 1)) }
{
    match marked_kind(mark) {
        Some(kind) => Ok(Some(site_behind(before, object_in(group, mark.object)?, kind))),
        None => Ok(None),
    }
}

fn site_behind(before: &Site, object: ObjRef, kind: EffectKind) -> Site
    requires { before.now.number < 2 ^ 64 - 1 }
    ensures is { result ≡ spec.site_behind before.now object kind }
    ensures within { result.number ≤ before.now.number + 1 }
{
    let number = if before.is_in(&object, kind) {
        before.number + 1
    } else {
        1
    };
    Site {
        object,
        kind,
        number,
    }
}

/// The effect in which an action is marked.
fn marked_kind(mark: &Mark) -> Option<EffectKind>
    ensures { result ≡ spec.marked_kind mark.now }
{
    match mark.action {
        Some(_) => kind_of(mark.field),
        None => None,
    }
}

/// The effect that a field is.
fn kind_of(field: Attribute) -> Option<EffectKind>
    ensures { result ≡ spec.kind_of field }
{
    match field {
        Attribute::OnStartUp => Some(EffectKind::StartUp),
        Attribute::OnCloseDown => Some(EffectKind::CloseDown),
        Attribute::LinkEffect => Some(EffectKind::Link),
        _ => None,
    }
}

/// The file, the line and the column of what stands at this place.
#[tactic(auto, unfolding(crate::specs::Directory::written_at))]
fn written(alloc: Global, group: &GroupName, place: Place) -> Result<Text, AllocError>
    ensures { IfOk result (λ text. text ≡ spec.written_at group.now place) }
{
    let mut text = Text::new(alloc);
    text.put(group.as_bytes())?;
    text.put(b":")?;
    put_place(&mut text, place)?;
    Ok(text)
}
