//! What comes of a step, as members of an object.
ghost use Rattle.std.specs.Prelude.{◌≡◌, ◌++◌, ◌-◌, IfOk, OnOk, length, take};
ghost use Rattle.mh_told.specs.Told.{fault_line};
ghost use Rattle.mh_trace.specs.Outcome as spec;

use crate::json::{behind, put_list_if, put_more, put_number, put_plain};
use crate::why::{Why, why_text};
use mh_machine::Stepped;
use mh_model::Fault;
use mh_told::text::Text;
use mh_told::told::put_fault;
use std::alloc::{AllocError, Global};

/// Puts what comes of a step, and ends its object.
#[tactic(auto, unfolding(crate::specs::Outcome::outcome_json))]
pub fn put_members(
    alloc: Global,
    text: &mut Text,
    started: bool,
    dropped: usize,
    forgotten: usize,
    changes: &Text,
    rests: bool,
    why: Why,
    answer: &Stepped,
) -> Result<(), AllocError>
    ensures { OnOk result (text.new
        ≡ text.old ++ spec.outcome_json started dropped forgotten changes.now rests why answer.now) }
{
    put_started(text, started, dropped)?;
    put_forgotten(text, forgotten)?;
    put_changes(text, changes, rests, why)?;
    put_fault_of(alloc, text, answer)?;
    text.put(b"}")?;
    text.put(b"\n")
}

fn put_started(text: &mut Text, started: bool, dropped: usize) -> Result<(), AllocError>
    ensures { OnOk result (text.new ≡ text.old ++ spec.started_json started dropped) }
{
    if started {
        put_begun(text, dropped)
    } else {
        Ok(())
    }
}

#[tactic(auto, unfolding(crate::specs::Outcome::begun_json))]
fn put_begun(text: &mut Text, dropped: usize) -> Result<(), AllocError>
    ensures { OnOk result (text.new ≡ text.old ++ spec.begun_json dropped) }
{
    put_plain(text, b"begins", b"true")?;
    put_number(text, b"drops", dropped as u64)
}

#[tactic(auto, unfolding(crate::specs::Outcome::forgotten_json))]
fn put_forgotten(text: &mut Text, count: usize) -> Result<(), AllocError>
    ensures { OnOk result (text.new ≡ text.old ++ spec.forgotten_json count) }
{
    if count == 0 {
        return Ok(());
    }
    put_number(text, b"forgets", count as u64)
}

#[tactic(auto, unfolding(crate::specs::Outcome::changes_json))]
fn put_changes(text: &mut Text, changes: &Text, rests: bool, why: Why) -> Result<(), AllocError>
    ensures { OnOk result (text.new ≡ text.old ++ spec.changes_json changes.now rests why) }
{
    put_list_if(text, b"changes", changes.as_slice())?;
    put_nothing(text, changes.as_slice().is_empty() && rests, why)
}

fn put_nothing(text: &mut Text, is_nothing: bool, why: Why) -> Result<(), AllocError>
    ensures { OnOk result (text.new ≡ text.old ++ spec.nothing_json is_nothing why) }
{
    if is_nothing {
        put_rested(text, why_text(why))
    } else {
        Ok(())
    }
}

#[tactic(auto, unfolding(crate::specs::Outcome::rested_json))]
fn put_rested(text: &mut Text, why: &[u8]) -> Result<(), AllocError>
    ensures { OnOk result (text.new ≡ text.old ++ spec.rested_json why.now) }
{
    put_plain(text, b"nothing", b"true")?;
    put_why(text, why)
}

#[tactic(auto, unfolding(crate::specs::Outcome::why_json))]
fn put_why(text: &mut Text, why: &[u8]) -> Result<(), AllocError>
    ensures { OnOk result (text.new ≡ text.old ++ spec.why_json why.now) }
{
    if why.is_empty() {
        Ok(())
    } else {
        put_more(text, b"why", behind(why, 2))
    }
}

fn put_fault_of(alloc: Global, text: &mut Text, answer: &Stepped) -> Result<(), AllocError>
    ensures { OnOk result (text.new ≡ text.old ++ spec.fault_json answer.now) }
{
    match answer {
        Stepped::Faulted(fault) => put_fault_line(alloc, text, fault),
        _ => Ok(()),
    }
}

#[tactic(auto, unfolding(crate::specs::Outcome::faulted_json))]
fn put_fault_line(alloc: Global, text: &mut Text, fault: &Fault) -> Result<(), AllocError>
    ensures { OnOk result (text.new ≡ text.old ++ spec.faulted_json fault.now) }
{
    let line = line_on(alloc, fault)?;
    put_more(text, b"fault", without_end(line.as_slice()))
}

/// The report's line on a fault.
fn line_on(alloc: Global, fault: &Fault) -> Result<Text, AllocError>
    ensures { IfOk result (λ line. line ≡ fault_line fault.now) }
{
    let mut line = Text::new(alloc);
    put_fault(&mut line, fault)?;
    Ok(line)
}

fn without_end(line: &[u8]) -> &[u8]
    ensures { result.now ≡ take (length line.now - 1) line.now }
{
    line.get(..line.len().saturating_sub(1)).unwrap_or(line)
}
