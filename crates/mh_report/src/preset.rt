//! Content files that are put there before the first move.
ghost use Rattle.std.specs.Prelude.{◌≡◌, Ok, IfOk, IfErr, OnOk};
ghost use Rattle.mh_told.specs.Reading.{Fails};
ghost use Rattle.mh_report.specs.Presets.{presets, tried, unset};

use crate::playable::Playable;
use mh_base::Octets;
use mh_engine::RefusedWhy;
use mh_model::File;
use mh_told::unplayable::Unplayable;
use std::alloc::{AllocError, Global};

/// Puts the files there, in order, up to the first that is refused.
pub(crate) fn preset_all<E: Playable>(
    alloc: Global,
    engine: &mut E,
    files: &[File],
) -> Result<(), Unplayable>
    ensures set { OnOk result (presets files.now (E.state engine.old) ≡ Ok (E.state engine.new)) }
    ensures refused { IfErr result (λ why. Fails why (presets files.now (E.state engine.old))) }
    ensures same { E.seal engine.new ≡ E.seal engine.old }
{
    for file in files {
        preset(alloc, engine, file)?;
    }
    Ok(())
}

/// Puts a file there.
fn preset<E: Playable>(alloc: Global, engine: &mut E, file: &File) -> Result<(), Unplayable>
    ensures set { OnOk result (tried file.now (E.state engine.old) ≡ Ok (E.state engine.new)) }
    ensures refused { IfErr result (λ why. Fails why (tried file.now (E.state engine.old))) }
    ensures same { E.seal engine.new ≡ E.seal engine.old }
{
    match engine.preset_file(copied(file)?) {
        Ok(()) => Ok(()),
        Err(refused) => Err(unset(alloc, refused.why, file)?),
    }
}

/// What is said of a file that is refused. Want of memory has no number.
fn unset(alloc: Global, why: RefusedWhy, file: &File) -> Result<Unplayable, AllocError>
    ensures { IfOk result (λ said. said ≡ unset why file.now) }
{
    match why.number() {
        Some(number) => Ok(Unplayable::File {
            name: Octets::from_slice(alloc, file.name.as_bytes())?,
            number,
            offset: 0,
        }),
        None => Ok(Unplayable::NoMemory),
    }
}

fn copied(file: &File) -> Result<File, AllocError>
    ensures { IfOk result (λ copy. copy ≡ file.now) }
{
    file.clone()
}
