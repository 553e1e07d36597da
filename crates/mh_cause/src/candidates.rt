//! Which objects may have been meant where a number leads to none, or to one that does not fit.
//!
//! Promise: each function answers or puts what the definition of its name in `specs/Candidates` says.

pub(crate) mod fitness;
pub(crate) mod likeness;
pub(crate) mod place;

ghost use Rattle.std.specs.Prelude.{◌≡◌, ◌++◌, OnOk, IfOk};
ghost use Rattle.std.specs.Option.{option_copied};
ghost use Rattle.mh_model.specs.Service.{group_parts};
ghost use Rattle.mh_cause.specs.Candidates.{application_among, candidates, candidates_told, does_there, first_told, fitting, has_such, joint, more_told, number_if, number_told, numbers_told, told_for};

use crate::acts::part_of;
use crate::candidates::fitness::does;
use crate::candidates::likeness::meant_of;
use crate::candidates::place::{Place, place_of};
use crate::elsewhere::{meant_names, put_elsewhere};
use crate::phrases::{GROUP_ITSELF, NEAREST_NUMBER, NEAREST_NUMBERS};
use crate::refused::Refused;
use mh_base::GroupName;
use mh_group::ActionName;
use mh_model::{Fixed, FixedPart};
use mh_service::Service;
use mh_told::text::Text;
use std::alloc::{AllocError, Global};

fn push_number_if(numbers: &mut Vec<u32>, place: &Place<'_>, part: &Fixed) -> Result<(), AllocError>
    ensures { OnOk result (numbers.new.items ≡ numbers.old.items ++ number_if place.now part.now) }
{
    if does(place, part.class) {
        numbers.push(part.key.number)?;
    }
    Ok(())
}

fn push_fitting(
    numbers: &mut Vec<u32>,
    place: &Place<'_>,
    parts: &[FixedPart],
) -> Result<(), AllocError>
    ensures { OnOk result (numbers.new.items ≡ numbers.old.items ++ fitting place.now parts.now) }
{
    for part in parts {
        push_number_if(numbers, place, part.get())?;
    }
    Ok(())
}

/// The numbers of the objects of the group that is named which may have been meant.
#[tactic(auto, unfolding(crate::specs::Candidates::candidates))]
fn candidates(alloc: Global, service: &Service, place: &Place<'_>) -> Result<Vec<u32>, AllocError>
    ensures { IfOk result (λ numbers. numbers.items ≡ candidates service.now place.now) }
{
    let mut numbers = Vec::new(alloc);
    let parts = service.parts(&place.at.group);
    push_fitting(&mut numbers, place, parts)?;
    meant_of(alloc, place.at.number, numbers.as_slice())
}

/// What stands before a number behind the first, if these are left behind it.
fn joint(others: &[u32]) -> &'static [u8]
    ensures { result.now ≡ joint others.now }
{
    match others {
        [] => b" and ",
        _ => b", ",
    }
}

fn put_more_told(text: &mut Text, numbers: &[u32]) -> Result<(), AllocError>
    ensures { OnOk result (text.new ≡ text.old ++ more_told numbers.now) }
{
    match numbers {
        [] => Ok(()),
        [number, others @ ..] => {
            text.put(joint(others))?;
            text.put_number(u64::from(*number))?;
            put_more_told(text, others)
        }
    }
}

fn put_number_told(text: &mut Text, number: u32) -> Result<(), AllocError>
    ensures { OnOk result (text.new ≡ text.old ++ number_told number) }
{
    if number == 0 {
        return text.put(GROUP_ITSELF);
    }
    text.put(NEAREST_NUMBER)?;
    text.put_number(u64::from(number))
}

fn put_first_told(text: &mut Text, number: u32, others: &[u32]) -> Result<(), AllocError>
    ensures { OnOk result (text.new ≡ text.old ++ first_told number others.now) }
{
    if others.is_empty() {
        return put_number_told(text, number);
    }
    text.put(NEAREST_NUMBERS)?;
    text.put_number(u64::from(number))
}

fn put_numbers_told(text: &mut Text, numbers: &[u32]) -> Result<(), AllocError>
    ensures { OnOk result (text.new ≡ text.old ++ numbers_told numbers.now) }
{
    match numbers {
        [] => Ok(()),
        [number, others @ ..] => {
            put_first_told(text, *number, others)?;
            put_more_told(text, others)
        }
    }
}

fn does_there(place: &Place<'_>, part: Option<&Fixed>) -> bool
    ensures { result ≡ does_there place.now (option_copied part.entry) }
{
    match part {
        Some(part) => does(place, part.class),
        None => false,
    }
}

fn has_such(service: &Service, place: &Place<'_>, name: &GroupName) -> bool
    ensures { result ≡ has_such service.now place.now name.now }
{
    does_there(place, part_of(service, name, place.at.number))
}

/// The first of these applications that has an object with the number which does.
fn application_among<'a>(
    service: &Service,
    place: &Place<'_>,
    names: &'a [GroupName],
) -> Option<&'a GroupName>
    ensures { option_copied result ≡ application_among service.now place.now names.now }
{
    names.iter().find(|name| has_such(service, place, *name))
}

#[tactic(auto, unfolding(crate::specs::Candidates::told_for))]
fn put_told_for(
    alloc: Global,
    text: &mut Text,
    service: &Service,
    place: &Place<'_>,
) -> Result<(), AllocError>
    ensures { OnOk result (text.new ≡ text.old ++ told_for service.now place.now) }
{
    let numbers = candidates(alloc, service, place)?;
    let names = meant_names(alloc, service, Some(ActionName::Launch))?;
    put_numbers_told(text, numbers.as_slice())?;
    let name = application_among(service, place, names.as_slice());
    put_elsewhere(text, place.at.number, name)
}

/// Puts which objects may have been meant, of the group that is named and of applications.
pub(crate) fn put_candidates(
    alloc: Global,
    text: &mut Text,
    service: &Service,
    refused: &Refused<'_>,
) -> Result<(), AllocError>
    ensures { OnOk result (text.new ≡ text.old ++ candidates_told service.now refused.now) }
{
    put_told_for(alloc, text, service, &place_of(service, refused))
}
