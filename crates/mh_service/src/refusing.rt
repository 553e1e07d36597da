//! The refusals of a service that need no reference resolved.
//!
//! Promise: each look-out finds exactly the group that its definition names, and they come in the order
//! of their numbers. Names that lead to no path are left to `service`, which resolves them.
ghost use Rattle.std.specs.Prelude.{◌≡◌, ◌&&◌, not, true, false, None, Some, ◌∷◌, [], map, IfOk, OnOk, IfErr};
ghost use Rattle.std.specs.List.{list_all};
ghost use Rattle.std.specs.Option.{option_copied};
ghost use Rattle.mh_group.specs.Table.{is_application};
ghost use Rattle.mh_service.specs.Refusals.{Refuses, for_reason, double_name, missing_start, double_number, has_double, start_unfit, has_group, has_application, over_limit, refusal_before};
ghost use Rattle.mh_service.specs.Limits.{whole_room};

use crate::room::Room;
use crate::{ServiceError, Why};
use indexmap::IndexSet;
use mh_base::GroupName;
use mh_group::{Class, Group, Ingredient, group};
use std::alloc::{AllocError, Global};

/// Refuses what can be refused before references are resolved.
pub fn refuse_before(
    alloc: Global,
    start: &GroupName,
    files: &[(GroupName, Group)],
) -> Result<(), ServiceError>
    ensures refused { IfErr result (Refuses (refusal_before start.now files.now)) }
    ensures good { OnOk result (refusal_before start.now files.now ≡ None) }
{
    refuse(Why::DoubleName, double_name(alloc, files)?)?;
    refuse(Why::NoStart, missing_start(start, files))?;
    refuse(Why::DoubleNumber, double_number(alloc, files)?)?;
    refuse(Why::NotAnApplication, start_unfit(start, files))?;
    refuse(Why::Limit, over_limit(files))
}

/// The refusal for this reason, where there is such a group.
pub fn refuse(why: Why, group: Option<&GroupName>) -> Result<(), ServiceError>
    ensures refused { IfErr result (Refuses (for_reason why (option_copied group.entry))) }
    ensures good { OnOk result (option_copied group.entry ≡ None) }
{
    match group {
        None => Ok(()),
        Some(group) => Err(ServiceError::Refused {
            why,
            group: group.clone()?,
        }),
    }
}

/// The first name that came before, which is what 30 names. It is offered apart from the service for
/// callers who have no start to give.
pub fn double_name(
    alloc: Global,
    files: &[(GroupName, Group)],
) -> Result<Option<&GroupName>, AllocError>
    ensures { IfOk result (λ name. option_copied name ≡ double_name [] files.now) }
{
    let mut seen: IndexSet<GroupName> = IndexSet::new(alloc);
    for file in files {
        let name = file.0.clone()?;
        if !seen.insert(name)? {
            return Ok(Some(&file.0));
        }
    }
    Ok(None)
}

fn missing_start<'a>(start: &'a GroupName, files: &[(GroupName, Group)]) -> Option<&'a GroupName>
    ensures { option_copied result ≡ missing_start start.now files.now }
{
    if has_group(start, files) {
        None
    } else {
        Some(start)
    }
}

fn has_group(name: &GroupName, files: &[(GroupName, Group)]) -> bool
    ensures { result ≡ has_group name.now files.now }
{
    files.iter().any(|file| file.0 == *name)
}

/// The first group in which two ingredients have one number.
fn double_number(
    alloc: Global,
    files: &[(GroupName, Group)],
) -> Result<Option<&GroupName>, AllocError>
    ensures { IfOk result (λ name. option_copied name ≡ double_number files.now) }
{
    for file in files {
        if has_double_number(alloc, group::items(file.1.written()))? {
            return Ok(Some(&file.0));
        }
    }
    Ok(None)
}

#[tactic(auto, using(crate::proofs::Doubles::seen_nothing))]
pub(crate) fn has_double_number(
    alloc: Global,
    ingredients: &[Ingredient],
) -> Result<bool, AllocError>
    ensures { IfOk result (λ double. double ≡ has_double (map (λ i. i.number) ingredients.now)) }
{
    let mut seen: IndexSet<u32> = IndexSet::new(alloc);
    for ingredient in ingredients {
        if !seen.insert(ingredient.number.get())? {
            return Ok(true);
        }
    }
    Ok(false)
}

/// The start, where no application has its name.
fn start_unfit<'a>(start: &'a GroupName, files: &[(GroupName, Group)]) -> Option<&'a GroupName>
    ensures { option_copied result ≡ start_unfit start.now files.now }
{
    if has_application(start, files) {
        None
    } else {
        Some(start)
    }
}

fn has_application(name: &GroupName, files: &[(GroupName, Group)]) -> bool
    ensures { result ≡ has_application name.now files.now }
{
    files.iter().any(|file| file.0 == *name && is_application(file.1.written().class))
}

fn is_application(class: Class) -> bool
    ensures { result ≡ is_application class }
{
    matches!(class, Class::Application)
}

/// The first group with which a limit is passed.
fn over_limit(files: &[(GroupName, Group)]) -> Option<&GroupName>
    ensures { option_copied result ≡ over_limit whole_room files.now }
{
    let mut room = Room::whole();
    for file in files {
        match room.after(file.1.written()) {
            None => return Some(&file.0),
            Some(left) => room = left,
        }
    }
    None
}
