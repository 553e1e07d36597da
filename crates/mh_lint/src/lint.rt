//! What never happens in a service and what is noted of it, as lines.
//!
//! Promise: the lines are those of what is found by the sets of what may come to be, whose laws say that it never happens,
//! and then those of notes.
ghost use Rattle.std.specs.Prelude.{◌≡◌, ◌++◌, IfOk, OnOk};
ghost use Rattle.mh_flow.specs.Solved.{IsFlowOf, flow_in, reached_configs};
ghost use Rattle.mh_lint.specs.Findings.{findings};
ghost use Rattle.mh_lint.specs.Lint.{IsLintText, IsNeverText};
ghost use Rattle.mh_lint.specs.NoteLines.{notes_words};
ghost use Rattle.mh_lint.specs.Notes.{notes as notes_lem};
ghost use Rattle.mh_lint.specs.Telling.{never_words};

use crate::finding::Finding;
use crate::findings::findings_of;
use crate::grounds::Grounds;
use crate::note_lines::put_notes;
use crate::notes::notes_of;
use crate::rule::Allowed;
use crate::telling::put_findings;
use mh_alive::{Alive, alive_of};
use mh_base::GroupName;
use mh_flow::{Equipped, Flow};
use mh_model::Config;
use mh_told::text::Text;
use std::alloc::{AllocError, Global};

/// What is asked for.
#[derive(Clone, Copy)]
pub struct Asked {
    /// Whether what follows from other findings is told, too, and what is still to come.
    pub all: bool,
    /// The rules of notes that are turned off.
    pub allowed: Allowed,
}

/// The lines on an accepted service, by its flow: what never happens, and then notes. Where objects stand is looked up in
/// these files.
pub fn lint_text(
    alloc: Global,
    service: &Equipped<'_>,
    flow: &Flow,
    files: &[(GroupName, Vec<u8>)],
    asked: Asked,
) -> Result<Text, AllocError>
    requires { IsFlowOf service.now flow.now }
    ensures { IfOk result (IsLintText asked service.now (flow_in service.now flow.now) files.now) }
{
    let grounds = Grounds::of(alloc, files)?;
    let text = lint_by(alloc, service, flow, &grounds, asked);
    drop(grounds);
    text
}

/// The same, by what is known of the files.
fn lint_by(
    alloc: Global,
    service: &Equipped<'_>,
    flow: &Flow,
    grounds: &Grounds<'_>,
    asked: Asked,
) -> Result<Text, AllocError>
    requires { IsFlowOf service.now flow.now }
    ensures { IfOk result (IsLintText asked service.now (flow_in service.now flow.now) grounds.now) }
{
    let mut text = never_text(alloc, service, flow, grounds, asked.all)?;
    put_all_notes(alloc, &mut text, service, grounds, asked)?;
    Ok(text)
}

fn never_text(
    alloc: Global,
    service: &Equipped<'_>,
    flow: &Flow,
    grounds: &Grounds<'_>,
    all: bool,
) -> Result<Text, AllocError>
    requires { IsFlowOf service.now flow.now }
    ensures { IfOk result (IsNeverText all service.now (flow_in service.now flow.now) grounds.now) }
{
    let alive = alive_of(alloc, service, flow)?;
    let text = text_by(alloc, service, flow, grounds, &alive, all);
    drop(alive);
    text
}

/// The lines on what never happens, by these sets of what may come to be.
fn text_by(
    alloc: Global,
    service: &Equipped<'_>,
    flow: &Flow,
    grounds: &Grounds<'_>,
    alive: &Alive,
    all: bool,
) -> Result<Text, AllocError>
    ensures { let configs = reached_configs flow.now.chart flow.now.rows in
        IfOk result (λ text. text ≡ never_words service.now configs grounds.now (findings all service.now configs alive.now)) }
{
    let configs = flow.configs(alloc)?;
    let text = text_of_findings(alloc, service, configs.as_slice(), grounds, alive, all);
    drop(configs);
    text
}

/// The same, where these configurations are reached.
fn text_of_findings(
    alloc: Global,
    service: &Equipped<'_>,
    configs: &[Config],
    grounds: &Grounds<'_>,
    alive: &Alive,
    all: bool,
) -> Result<Text, AllocError>
    ensures { IfOk result (λ text. text
        ≡ never_words service.now configs.now grounds.now (findings all service.now configs.now alive.now)) }
{
    let found = findings_of(alloc, service, configs, alive, all)?;
    let text = lines_on(alloc, service, configs, grounds, found.as_slice());
    drop(found);
    text
}

fn lines_on(
    alloc: Global,
    service: &Equipped<'_>,
    configs: &[Config],
    grounds: &Grounds<'_>,
    found: &[Finding],
) -> Result<Text, AllocError>
    ensures { IfOk result (λ text. text ≡ never_words service.now configs.now grounds.now found.now) }
{
    let mut text = Text::new(alloc);
    put_findings(&mut text, service, configs, grounds.directory(), found)?;
    Ok(text)
}

/// Puts the lines of all notes on the service.
fn put_all_notes(
    alloc: Global,
    text: &mut Text,
    service: &Equipped<'_>,
    grounds: &Grounds<'_>,
    asked: Asked,
) -> Result<(), AllocError>
    ensures { OnOk result (text.new
        ≡ text.old ++ notes_words asked.allowed service.now grounds.now (notes_lem asked.all grounds.now service.now)) }
{
    let notes = notes_of(alloc, service, grounds.files(), asked.all)?;
    put_notes(text, asked.allowed, service, grounds, notes.as_slice())
}
