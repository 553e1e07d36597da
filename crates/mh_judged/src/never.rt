//! What never happens in an accepted service, as findings.
//!
//! Promise: each function answers what the definition of the same matter in `specs/Accepted` says.
ghost use Rattle.std.specs.Prelude.{◌≡◌, IfOk, map};
ghost use Rattle.mh_flow.specs.Solved.{IsFlowOf, flow_in, reached_configs};
ghost use Rattle.mh_lint.specs.Findings.{findings};
ghost use Rattle.mh_judged.specs.Accepted.{IsNeverList};
ghost use Rattle.mh_judged.specs.Accepted as spec;

use crate::advice::{found_as, stated};
use crate::sites::object_site;
use mh_alive::{Alive, alive_of};
use mh_base::Seq;
use mh_findings::{Finding, Grade};
use mh_flow::{Equipped, Flow};
use mh_lint::{Finding as Unhappening, findings_of, object_of, put_object, put_words};
use mh_model::Config;
use mh_places::Directory;
use mh_told::text::Text;
use std::alloc::{AllocError, Global};

/// What never happens in the service, by its flow.
pub(crate) fn never_list(
    alloc: Global,
    service: &Equipped<'_>,
    flow: &Flow,
    folder: &[u8],
    directory: &Directory<'_>,
    all: bool,
) -> Result<Vec<Finding>, AllocError>
    requires { IsFlowOf service.now flow.now }
    ensures { IfOk result (λ found.
        IsNeverList all service.now (flow_in service.now flow.now) folder.now directory.now found.items) }
{
    let alive = alive_of(alloc, service, flow)?;
    let found = list_by(alloc, service, flow, folder, directory, &alive, all);
    drop(alive);
    found
}

/// What never happens, by these sets of what may come to be.
fn list_by(
    alloc: Global,
    service: &Equipped<'_>,
    flow: &Flow,
    folder: &[u8],
    directory: &Directory<'_>,
    alive: &Alive,
    all: bool,
) -> Result<Vec<Finding>, AllocError>
    ensures { let configs = reached_configs flow.now.chart flow.now.rows in
        IfOk result (λ found. found.items
        ≡ map (spec.never_finding service.now configs folder.now directory.now) (findings all service.now configs alive.now)) }
{
    let configs = flow.configs(alloc)?;
    let found = list_in(
        alloc,
        service,
        configs.as_slice(),
        folder,
        directory,
        alive,
        all,
    );
    drop(configs);
    found
}

/// The same, where these configurations are reached.
fn list_in(
    alloc: Global,
    service: &Equipped<'_>,
    configs: &[Config],
    folder: &[u8],
    directory: &Directory<'_>,
    alive: &Alive,
    all: bool,
) -> Result<Vec<Finding>, AllocError>
    ensures { IfOk result (λ found. found.items
        ≡ map (spec.never_finding service.now configs.now folder.now directory.now) (findings all service.now configs.now alive.now)) }
{
    let never = findings_of(alloc, service, configs, alive, all)?;
    let found = never_findings(alloc, service, configs, folder, directory, never.as_slice());
    drop(never);
    found
}

fn never_findings(
    alloc: Global,
    service: &Equipped<'_>,
    configs: &[Config],
    folder: &[u8],
    directory: &Directory<'_>,
    never: &[Unhappening],
) -> Result<Vec<Finding>, AllocError>
    ensures { IfOk result (λ found.
        found.items ≡ map (spec.never_finding service.now configs.now folder.now directory.now) never.now) }
{
    let mut found = Vec::new(alloc);
    for unhappening in never {
        found.push(never_finding(alloc, service, configs, folder, directory, unhappening)?)?;
    }
    Ok(found)
}

#[tactic(auto, unfolding(crate::specs::Accepted::never_finding))]
fn never_finding(
    alloc: Global,
    service: &Equipped<'_>,
    configs: &[Config],
    folder: &[u8],
    directory: &Directory<'_>,
    unhappening: &Unhappening,
) -> Result<Finding, AllocError>
    ensures { IfOk result (λ finding.
        finding ≡ spec.never_finding service.now configs.now folder.now directory.now unhappening.now) }
{
    let words = never_words(alloc, service, configs, unhappening)?;
    let advice = stated(alloc, words.as_slice())?;
    let at = object_site(alloc, folder, directory, object_of(unhappening))?;
    let rule = never_rule(unhappening);
    found_as(alloc, Grade::Never, rule, at, advice, Seq::new(alloc))
}

#[tactic(auto, unfolding(crate::specs::Accepted::never_rule))]
fn never_rule(unhappening: &Unhappening) -> &'static [u8]
    ensures { result.now ≡ spec.never_rule unhappening.now }
{
    match unhappening {
        Unhappening::Unreached(_) => b"unreached",
        Unhappening::Idle(_) => b"idle",
        Unhappening::Unsaid(_, _, _) => b"unsaid",
        Unhappening::Unput(_) => b"unput",
        Unhappening::Deaf(_) => b"deaf",
    }
}

#[tactic(auto, unfolding(crate::specs::Accepted::never_words))]
fn never_words(
    alloc: Global,
    service: &Equipped<'_>,
    configs: &[Config],
    unhappening: &Unhappening,
) -> Result<Text, AllocError>
    ensures { IfOk result (λ words. words ≡ spec.never_words service.now configs.now unhappening.now) }
{
    let mut words = Text::new(alloc);
    put_object(&mut words, service, object_of(unhappening))?;
    put_words(&mut words, service, configs, unhappening)?;
    Ok(words)
}
