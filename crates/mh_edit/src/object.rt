//! Where objects are defined and named.
ghost use Rattle.std.specs.Prelude.{◌≡◌, IfOk};
ghost use Rattle.std.specs.List.{find};
ghost use Rattle.mh_edit.specs.Objects as spec;

use crate::walk::{Role, Spot};
use crate::word::{Extent, text_of};
use mh_base::{GroupName, NameError, ObjRef};
use std::alloc::{AllocError, Global};

/// The token at this place: the one in which it is, or else the one that ends there.
pub fn spot_over(spots: &[Spot], offset: usize) -> Option<Spot>
    ensures { result ≡ spec.spot_over spots.now offset }
{
    match spot_around(spots, offset) {
        Some(spot) => Some(spot),
        None => spot_ending(spots, offset),
    }
}

fn spot_around(spots: &[Spot], offset: usize) -> Option<Spot>
    ensures { result ≡ find (spec.is_over offset) spots.now }
{
    spots.iter().copied().find(|spot| is_over(spot, offset))
}

fn spot_ending(spots: &[Spot], offset: usize) -> Option<Spot>
    ensures { result ≡ find (spec.ends_at offset) spots.now }
{
    spots.iter().copied().find(|spot| ends_at(spot, offset))
}

fn is_over(spot: &Spot, offset: usize) -> bool
    ensures { result ≡ spec.is_over offset spot.now }
{
    spot.at.start <= offset && offset - spot.at.start < spot.at.length
}

fn ends_at(spot: &Spot, offset: usize) -> bool
    ensures { result ≡ spec.ends_at offset spot.now }
{
    spot.at.start <= offset && offset - spot.at.start == spot.at.length
}

/// The object that a token of a group is the number of, or the group whose name it is.
#[tactic(auto, unfolding(crate::specs::Objects::object_of))]
pub fn object_of(
    alloc: Global,
    from: &GroupName,
    bytes: &[u8],
    role: Role,
) -> Result<Option<ObjRef>, AllocError>
    ensures { IfOk result (λ found. found ≡ spec.object_of from.now bytes.now role) }
{
    match role {
        Role::Defines(number) | Role::Names(number) => object_here(from, number),
        Role::NamesIn(name, number) => object_in(alloc, from, text_of(bytes, name), number),
        Role::Group(name) => object_in(alloc, from, text_of(bytes, name), 0),
        _ => Ok(None),
    }
}

fn object_here(from: &GroupName, number: u32) -> Result<Option<ObjRef>, AllocError>
    ensures { IfOk result (λ found. found ≡ spec.object_here from.now number) }
{
    let group = from.clone()?;
    Ok(Some(ObjRef { number, group }))
}

fn object_in(
    alloc: Global,
    from: &GroupName,
    name: &[u8],
    number: u32,
) -> Result<Option<ObjRef>, AllocError>
    ensures { IfOk result (λ found. found ≡ spec.object_in from.now name.now number) }
{
    match GroupName::resolve(alloc, from, name) {
        Ok(group) => Ok(Some(ObjRef { number, group })),
        Err(NameError::BadName) => Ok(None),
        Err(NameError::NoMemory) => Err(AllocError),
    }
}

/// Where the tokens of a group are that are the number of this object.
pub fn uses_in(
    alloc: Global,
    from: &GroupName,
    bytes: &[u8],
    spots: &[Spot],
    object: &ObjRef,
) -> Result<Vec<Extent>, AllocError>
    ensures { IfOk result (λ found. found.items ≡ spec.uses from.now bytes.now object.now spots.now) }
{
    let mut found = Vec::new(alloc);
    for spot in spots {
        if is_use(alloc, from, bytes, object, spot.role)? {
            found.push(spot.at)?;
        }
    }
    Ok(found)
}

/// Whether the token is the number of this object.
#[tactic(auto, unfolding(crate::specs::Objects::is_use))]
fn is_use(
    alloc: Global,
    from: &GroupName,
    bytes: &[u8],
    object: &ObjRef,
    role: Role,
) -> Result<bool, AllocError>
    ensures { IfOk result (λ is. is ≡ spec.is_use from.now bytes.now object.now role) }
{
    match role {
        Role::Defines(number) | Role::Names(number) => Ok(is_here(from, object, number)),
        Role::NamesIn(name, number) => {
            is_there(alloc, from, text_of(bytes, name), object, number)
        }
        _ => Ok(false),
    }
}

fn is_here(from: &GroupName, object: &ObjRef, number: u32) -> bool
    ensures { result ≡ spec.is_here from.now object.now number }
{
    number == object.number && *from == object.group
}

fn is_there(
    alloc: Global,
    from: &GroupName,
    name: &[u8],
    object: &ObjRef,
    number: u32,
) -> Result<bool, AllocError>
    ensures { IfOk result (λ is. is ≡ spec.is_there from.now name.now object.now number) }
{
    if number != object.number {
        return Ok(false);
    }
    leads_to(alloc, from, name, &object.group)
}

fn leads_to(
    alloc: Global,
    from: &GroupName,
    name: &[u8],
    group: &GroupName,
) -> Result<bool, AllocError>
    ensures { IfOk result (λ leads. leads ≡ spec.leads_to from.now name.now group.now) }
{
    match GroupName::resolve(alloc, from, name) {
        Ok(found) => Ok(found == *group),
        Err(NameError::BadName) => Ok(false),
        Err(NameError::NoMemory) => Err(AllocError),
    }
}

/// Where the object with this number is defined in a group: its first definition.
pub fn definition_in(spots: &[Spot], number: u32) -> Option<Spot>
    ensures { result ≡ find (spec.defines number) spots.now }
{
    spots
        .iter()
        .copied()
        .find(|spot| is_definition(spot, number))
}

fn is_definition(spot: &Spot, number: u32) -> bool
    ensures { result ≡ spec.defines number spot.now }
{
    match spot.role {
        Role::Defines(defined) => defined == number,
        _ => false,
    }
}
