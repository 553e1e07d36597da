//! Which scenes of a service come late, by the file that names them, a name a line.
//!
//! Promise: each function answers what the definition of its name in `specs/Reading` says.
ghost use Rattle.std.specs.Prelude.{◌≡◌, None, if◌then◌else◌, Ok, Err, IfOk, IfErr, OnOk, nat_eq, false, [], ◌∷◌};
ghost use Rattle.std.specs.List.{find};
ghost use Rattle.std.specs.Option.{option_copied};
ghost use Rattle.std.specs.Cmp.Lexicographic.{pointwise};
ghost use Rattle.indexmap.specs.IndexSet.{insert_all, insert_key};
ghost use Rattle.mh_told.specs.Reading.{without_feed, late_lines, each_once, names_no_scene, unless_no_scene, with_names, with_late, Fails, Gives};
ghost use Rattle.mh_told.specs.declared.unplayable.Unplayable.TheVariants as unplayable;

use crate::unplayable::Unplayable;
use bstr::ByteSlice;
use indexmap::IndexSet;
use mh_base::{GroupName, NameError, Octets};
use mh_service::{Service, Unmarked, UnmarkedWhy};
use std::alloc::{AllocError, Global};

/// The number under which a line is refused that is the name of no scene. It is told of the service, as the
/// numbers of `mh_service` are.
const NO_SCENE: u32 = 37;

/// The service with the scenes marked that the file names; as it is where there is no file.
pub(crate) fn with_late(
    alloc: Global,
    service: Service,
    late: Option<&[u8]>,
) -> Result<Service, Unplayable>
    ensures { Gives (λ marked. marked) result (with_late (option_copied late.entry) service) }
{
    match late {
        Some(bytes) => with_names(alloc, service, bytes),
        None => Ok(service),
    }
}

#[tactic(auto, unfolding(crate::specs::Reading::with_names))]
fn with_names(alloc: Global, service: Service, bytes: &[u8]) -> Result<Service, Unplayable>
    ensures { Gives (λ marked. marked) result (with_names (late_lines bytes.now) service) }
{
    let names = late_names(alloc, &service, bytes)?;
    marked(service, names)
}

/// The names in the lines of the file, each once, or the first line that is the name of no scene. A file may say one
/// name half a million times, so that what was said before is looked up by hash.
fn late_names(alloc: Global, service: &Service, bytes: &[u8]) -> Result<Vec<GroupName>, Unplayable>
    ensures { Gives (λ names. names.items) result (unless_no_scene (find (names_no_scene service.now) (late_lines bytes.now)) (each_once (late_lines bytes.now))) }
{
    let mut names: IndexSet<GroupName> = IndexSet::new(alloc);
    for line in bytes.lines_with_terminator() {
        add_line(alloc, service, without_feed(line), &mut names)?;
    }
    Ok(listed(alloc, &names)?)
}

/// Adds the name that the line says, unless it is there.
fn add_line(
    alloc: Global,
    service: &Service,
    line: &[u8],
    names: &mut IndexSet<GroupName>,
) -> Result<(), Unplayable>
    ensures scene { OnOk result (names_no_scene service.now line.now ≡ false) }
    ensures added { OnOk result (names.new.keys ≡ insert_key (pointwise nat_eq) names.old.keys line.now) }
    ensures refused { IfErr result (λ why. Fails why (unless_no_scene (find (names_no_scene service.now) (line.now ∷ [])) line.now)) }
{
    let name = scene_named(alloc, service, line)?;
    names.insert(name)?;
    Ok(())
}

/// The names of a set, in order.
fn listed(alloc: Global, names: &IndexSet<GroupName>) -> Result<Vec<GroupName>, AllocError>
    ensures { IfOk result (λ listed. listed.items ≡ names.now.keys) }
{
    let mut listed = Vec::new(alloc);
    for name in names.iter() {
        listed.push(name.clone()?)?;
    }
    Ok(listed)
}

fn without_feed(line: &[u8]) -> &[u8]
    ensures { result.now ≡ without_feed line.now }
{
    match line.strip_suffix(b"\n") {
        Some(text) => text,
        None => line,
    }
}

/// The line as the name of a scene.
fn scene_named(alloc: Global, service: &Service, line: &[u8]) -> Result<GroupName, Unplayable>
    ensures { Gives (λ name. name) result (if names_no_scene service.now line.now then Err (unplayable.Service 37 line.now) else Ok line.now) }
{
    match GroupName::of_path(alloc, line) {
        Ok(name) if service.has_scene(&name) => Ok(name),
        Ok(_) | Err(NameError::BadName) => Err(no_scene(alloc, line)?),
        Err(NameError::NoMemory) => Err(Unplayable::NoMemory),
    }
}

fn no_scene(alloc: Global, line: &[u8]) -> Result<Unplayable, AllocError>
    ensures { IfOk result (λ said. said ≡ unplayable.Service 37 line.now) }
{
    Ok(Unplayable::Service {
        number: NO_SCENE,
        group: Octets::from_slice(alloc, line)?,
    })
}

/// The service with these scenes marked, each of which it has.
fn marked(service: Service, names: Vec<GroupName>) -> Result<Service, Unplayable>
    requires { find (names_no_scene service) names.items ≡ None }
    ensures { Gives (λ marked. marked) result (Ok (record service { late = names.items })) }
{
    match service.with_late(names) {
        Ok(marked) => Ok(marked),
        Err(Unmarked { why, service: _ }) => match why {
            UnmarkedWhy::NotAScene(_) => unreachable!(),
            UnmarkedWhy::NoMemory => Err(Unplayable::NoMemory),
        },
    }
}
