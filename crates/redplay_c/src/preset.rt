//! Content files that are put there before the first move.
ghost use Rattle.std.specs.Prelude.{◌≡◌, Ok, Some, None, IfOk, IfErr, OnOk};
ghost use Rattle.mh_machine.specs.Refusal.{preset_refusal};
ghost use Rattle.mh_model.specs.Step.{preset};
ghost use Rattle.redplay_c.specs.Starts.{IsRefusedFor, Refuses, presets};

use crate::player::Player;
use mh_engine::{RefusedFile, RefusedWhy};
use mh_model::File;
use std::alloc::AllocError;

/// Puts the files there, in order, up to the first that is refused.
#[tactic(auto, using(crate::proofs::PresetLemmas::set_more, crate::proofs::PresetLemmas::refused_here))]
pub fn preset_all(player: &mut Player, files: &[File]) -> Result<(), RefusedWhy>
    ensures set { OnOk result (presets files.now player.old.play.state ≡ Ok player.new.play.state) }
    ensures same { player.new ≡ record player.old { play = record player.old.play { state = player.new.play.state } } }
    ensures refused { IfErr result (λ why. Refuses why (presets files.now player.old.play.state)) }
{
    for file in files {
        preset(player, file)?;
    }
    Ok(())
}

/// Puts a file there.
fn preset(player: &mut Player, file: &File) -> Result<(), RefusedWhy>
    ensures set { OnOk result (player.new.play.state ≡ preset file.now player.old.play.state) }
    ensures free { OnOk result (preset_refusal file.now player.old.play.state ≡ None) }
    ensures same { player.new ≡ record player.old { play = record player.old.play { state = player.new.play.state } } }
    ensures refused { IfErr result (λ why. IsRefusedFor why (preset_refusal file.now player.old.play.state)) }
{
    match copied(file) {
        Ok(copy) => match player.preset(copy) {
            Ok(()) => Ok(()),
            Err(refused) => Err(why_unset(refused)),
        },
        Err(_) => Err(RefusedWhy::NoMemory),
    }
}

fn copied(file: &File) -> Result<File, AllocError>
    ensures { IfOk result (λ copy. copy ≡ file.now) }
{
    file.clone()
}

/// Why a file was refused, without the file.
fn why_unset(refused: RefusedFile) -> RefusedWhy
    ensures { result ≡ refused.why }
{
    let RefusedFile { why, file: _ } = refused;
    why
}
