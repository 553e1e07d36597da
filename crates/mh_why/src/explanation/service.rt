//! Where a group stands with which a service cannot be made.
ghost use Rattle.std.specs.Prelude.{◌≡◌, ◌++◌, [], false, IfOk, OnOk};
ghost use Rattle.std.specs.Option.{option_copied};
ghost use Rattle.mh_text.specs.Landmarks.{sight_of};
ghost use Rattle.mh_why.specs.Services.{repeats, numbers, double_from, is_class, class_in, leads_astray, astray_in, landmark_for, shown_for, shown_service};

use crate::explanation::place::put_landmark;
use crate::files::shown::{Source, source_named};
use crate::numbers::{BAD_REFERENCE, DOUBLE_NUMBER, LIMIT, NO_SCENE, NOT_AN_APPLICATION};
use indexmap::IndexSet;
use mh_base::{GroupName, NameError};
use mh_text::{Landmark, Sight, landmarks};
use mh_told::text::Text;
use std::alloc::{AllocError, Global};

/// Puts what the number that is told of the group leads to, if it is found.
#[tactic(auto, unfolding(crate::specs::Services::shown_service))]
pub(crate) fn put_service(
    alloc: Global,
    text: &mut Text,
    sources: &[Source<'_>],
    number: &[u8],
    group: &[u8],
) -> Result<(), AllocError>
    ensures { OnOk result (text.new ≡ text.old ++ shown_service sources.now number.now group.now) }
{
    match source_named(sources, group) {
        Some(source) => put_for(alloc, text, source, number),
        None => Ok(()),
    }
}

fn put_for(
    alloc: Global,
    text: &mut Text,
    source: &Source<'_>,
    number: &[u8],
) -> Result<(), AllocError>
    ensures { OnOk result (text.new ≡ text.old ++ shown_for number.now source.now) }
{
    let landmarks = landmarks(alloc, source.text())?;
    match landmark_for(alloc, number, source.name(), landmarks.as_slice())? {
        Some(landmark) => put_landmark(alloc, text, source, landmark),
        None => Ok(()),
    }
}

/// What the number leads to among the landmarks of the group.
pub fn landmark_for<'a, 'b>(
    alloc: Global,
    number: &[u8],
    from: &GroupName,
    landmarks: &'a [Landmark<'b>],
) -> Result<Option<&'a Landmark<'b>>, AllocError>
    ensures { IfOk result (λ found. option_copied found ≡ landmark_for number.now from.now landmarks.now) }
{
    if number == DOUBLE_NUMBER {
        double_in(alloc, landmarks)
    } else if number == NOT_AN_APPLICATION || number == LIMIT {
        Ok(class_in(landmarks))
    } else if number == BAD_REFERENCE {
        astray_in(alloc, from, landmarks)
    } else if number == NO_SCENE {
        Ok(class_in(landmarks))
    } else {
        Ok(None)
    }
}

/// The first number of an ingredient that came before.
fn double_in<'a, 'b>(
    alloc: Global,
    landmarks: &'a [Landmark<'b>],
) -> Result<Option<&'a Landmark<'b>>, AllocError>
    ensures { IfOk result (λ found. option_copied found ≡ double_from [] landmarks.now) }
{
    let mut seen: IndexSet<u32> = IndexSet::new(alloc);
    for landmark in landmarks {
        if is_repeated(&mut seen, landmark.sight)? {
            return Ok(Some(landmark));
        }
    }
    Ok(None)
}

/// Whether it is the number of an ingredient that was seen; one that was not is from now on.
fn is_repeated(seen: &mut IndexSet<u32>, sight: Sight<'_>) -> Result<bool, AllocError>
    ensures found { IfOk result (λ repeated. repeated ≡ repeats seen.old.keys (sight_of sight.entry)) }
    ensures seen { IfOk result (λ repeated. repeated ≡ false → seen.new.keys ≡ seen.old.keys ++ numbers (sight_of sight.entry)) }
{
    match sight {
        Sight::Number(number) => Ok(!seen.insert(number)?),
        Sight::Class | Sight::Name(_) => Ok(false),
    }
}

/// The first class, which is that of the group.
fn class_in<'a, 'b>(landmarks: &'a [Landmark<'b>]) -> Option<&'a Landmark<'b>>
    ensures { option_copied result ≡ class_in landmarks.now }
{
    landmarks.iter().find(|landmark| is_class(landmark.sight))
}

fn is_class(sight: Sight<'_>) -> bool
    ensures { result ≡ is_class (sight_of sight.entry) }
{
    matches!(sight, Sight::Class)
}

/// The first name that leads to no path.
fn astray_in<'a, 'b>(
    alloc: Global,
    from: &GroupName,
    landmarks: &'a [Landmark<'b>],
) -> Result<Option<&'a Landmark<'b>>, AllocError>
    ensures { IfOk result (λ found. option_copied found ≡ astray_in from.now landmarks.now) }
{
    for landmark in landmarks {
        if leads_astray(alloc, from, landmark.sight)? {
            return Ok(Some(landmark));
        }
    }
    Ok(None)
}

/// Whether it is a name that leads to no path.
fn leads_astray(alloc: Global, from: &GroupName, sight: Sight<'_>) -> Result<bool, AllocError>
    ensures { IfOk result (λ astray. astray ≡ leads_astray from.now (sight_of sight.entry)) }
{
    let Sight::Name(name) = sight else {
        return Ok(false);
    };
    match GroupName::resolve(alloc, from, name) {
        Ok(_) => Ok(false),
        Err(NameError::BadName) => Ok(true),
        Err(NameError::NoMemory) => Err(AllocError),
    }
}
