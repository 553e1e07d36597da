//! The trace of a script, what it covers, and a script that leads to a fault.
ghost use Rattle.std.specs.Prelude.{◌≡◌, [], ◌∷◌, map, Some, IfOk, IsErrOf, IsOkAnd, false};
ghost use Rattle.mh_crossing.specs.Files.{have_paths};
ghost use Rattle.mh_crossing.specs.Rooms.{AreMeant};
ghost use Rattle.redplay_page.specs.Tried.{AreCovered, AreSought, AreTraced, form_of, telling_all};

use crate::choosing::chosen;
use crate::told::{DONE, NOTHING, Told, complained, given, numbered};
use mh_base::{GroupName, NameError};
use mh_crossing::{Source, owned_files};
use mh_told::text::Text;
use mh_told::unplayable::Unplayable;
use mh_try::{Form, Telling, Within, cover_of, fault_script, trace_of};
use std::alloc::{AllocError, Global};

/// How many plays a search tries at most.
const PLAYS: u32 = 20_000;

/// The trace of a script that is played on the files that are handed in: lines, or objects for other programs.
#[tactic(auto, using(mh_crossing::proofs::RoomLemmas::meant_so))]
pub fn traced(
    alloc: Global,
    sources: &[Source],
    start: &[u8],
    late: &[u8],
    script: &[u8],
    day: u32,
    objects: bool,
) -> Result<Told, NameError>
    ensures told { IfOk result (λ told. AreMeant (AreTraced start.now late.now script.now day objects) sources.now told.bytes.items told.number) }
    ensures bad { IsErrOf result NameError.BadName → have_paths sources.now ≡ false }
{
    match owned_files(alloc, sources) {
        Ok(files) => {
            match traced_of(alloc, files.as_slice(), start, late, script, day, objects) {
                Ok(told) => Ok(told),
                Err(_) => Err(NameError::NoMemory),
            }
        }
        Err(why) => Err(why),
    }
}

fn traced_of(
    alloc: Global,
    files: &[(GroupName, Vec<u8>)],
    start: &[u8],
    late: &[u8],
    script: &[u8],
    day: u32,
    objects: bool,
) -> Result<Told, AllocError>
    ensures { IfOk result (λ told. AreTraced start.now late.now script.now day objects files.now told.bytes.items told.number) }
{
    let chosen = chosen(alloc, start, late, day)?;
    let made = trace_of(alloc, files, script, &chosen, &telling_all(objects), None);
    given(alloc, made)
}

/// How all steps are told.
pub fn telling_all(objects: bool) -> Telling
    ensures { result ≡ telling_all objects }
{
    Telling {
        form: form_of(objects),
        from: 1,
        until: u64::MAX,
    }
}

fn form_of(objects: bool) -> Form
    ensures { result ≡ form_of objects }
{
    if objects { Form::Json } else { Form::Text }
}

/// What a script covers of the files that are handed in.
#[tactic(auto, using(mh_crossing::proofs::RoomLemmas::meant_so))]
pub fn covered(
    alloc: Global,
    sources: &[Source],
    start: &[u8],
    late: &[u8],
    script: &[u8],
    day: u32,
) -> Result<Told, NameError>
    ensures told { IfOk result (λ told. AreMeant (AreCovered start.now late.now script.now day) sources.now told.bytes.items told.number) }
    ensures bad { IsErrOf result NameError.BadName → have_paths sources.now ≡ false }
{
    match owned_files(alloc, sources) {
        Ok(files) => match covered_of(alloc, files.as_slice(), start, late, script, day) {
            Ok(told) => Ok(told),
            Err(_) => Err(NameError::NoMemory),
        },
        Err(why) => Err(why),
    }
}

fn covered_of(
    alloc: Global,
    files: &[(GroupName, Vec<u8>)],
    start: &[u8],
    late: &[u8],
    script: &[u8],
    day: u32,
) -> Result<Told, AllocError>
    ensures { IfOk result (λ told. AreCovered start.now late.now script.now day files.now told.bytes.items told.number) }
{
    let chosen = chosen(alloc, start, late, day)?;
    let scripts = alone(alloc, script)?;
    let made = cover_of(alloc, files, scripts.as_slice(), &chosen, false);
    given(alloc, made)
}

/// A list of this script.
fn alone(alloc: Global, script: &[u8]) -> Result<Vec<Vec<u8>>, AllocError>
    ensures { IfOk result (λ scripts. map (λ script. script.items) scripts.items ≡ script.now ∷ []) }
{
    let script = Vec::from_slice(alloc, script)?;
    let mut scripts = Vec::new(alloc);
    scripts.push(script)?;
    Ok(scripts)
}

/// A script of so many inputs at most, each with so many steps behind it, that leads the files that are handed in to a fault.
#[tactic(auto, using(mh_crossing::proofs::RoomLemmas::meant_so))]
pub fn sought(
    alloc: Global,
    sources: &[Source],
    start: &[u8],
    late: &[u8],
    inputs: u32,
    steps: u32,
    day: u32,
) -> Result<Told, NameError>
    ensures told { IfOk result (λ told. AreMeant (AreSought start.now late.now day) sources.now told.bytes.items told.number) }
    ensures bad { IsErrOf result NameError.BadName → have_paths sources.now ≡ false }
{
    match owned_files(alloc, sources) {
        Ok(files) => {
            match sought_of(alloc, files.as_slice(), start, late, inputs, steps, day) {
                Ok(told) => Ok(told),
                Err(_) => Err(NameError::NoMemory),
            }
        }
        Err(why) => Err(why),
    }
}

fn sought_of(
    alloc: Global,
    files: &[(GroupName, Vec<u8>)],
    start: &[u8],
    late: &[u8],
    inputs: u32,
    steps: u32,
    day: u32,
) -> Result<Told, AllocError>
    ensures { IfOk result (λ told. AreSought start.now late.now day files.now told.bytes.items told.number) }
{
    let chosen = chosen(alloc, start, late, day)?;
    let within = Within {
        inputs,
        steps,
        plays: PLAYS,
    };
    found(alloc, fault_script(alloc, files, &chosen, within))
}

/// The script that was found, or nothing, or the line on what cannot be read.
fn found(alloc: Global, sought: Result<Option<Text>, Unplayable>) -> Result<Told, AllocError>
    ensures { IfOk result (λ told. told.number ≡ 0 → IsOkAnd sought (λ found. found ≡ Some told.bytes.items)) }
{
    match sought {
        Ok(Some(script)) => numbered(alloc, script.as_slice(), DONE),
        Ok(None) => numbered(alloc, &[], NOTHING),
        Err(why) => complained(alloc, &why),
    }
}
