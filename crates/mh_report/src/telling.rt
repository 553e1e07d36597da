//! What a report tells of a play: a post that was refused, and the faults and steps since a command began.
ghost use Rattle.std.specs.Prelude.{◌≡◌, ◌++◌, drop, OnOk, IfOk};
ghost use Rattle.std.specs.List.{flat_map};
ghost use Rattle.mh_report.specs.Report.{progress_since, number_line, why_line};
ghost use Rattle.mh_told.specs.Told.{fault_line};

use mh_engine::RefusedWhy;
use mh_machine::Machine;
use mh_model::Fault;
use mh_told::text::Text;
use mh_told::told::{put_did, put_fault, put_refused};
use std::alloc::{AllocError, Global};

/// The line on a post that was refused for this, if it was.
pub fn refusal(alloc: Global, why: Option<RefusedWhy>) -> Result<Text, AllocError>
    ensures { IfOk result (λ text. text ≡ why_line why) }
{
    match why {
        Some(why) => numbered(alloc, why.number()),
        None => Ok(Text::new(alloc)),
    }
}

/// The line on a post that is refused under this number.
fn numbered(alloc: Global, number: Option<u32>) -> Result<Text, AllocError>
    ensures { IfOk result (λ text. text ≡ number_line number) }
{
    let mut text = Text::new(alloc);
    if let Some(number) = number {
        put_refused(&mut text, number)?;
    }
    Ok(text)
}

/// The lines on what happened since so many steps and faults.
pub fn progress(
    alloc: Global,
    machine: &Machine,
    steps: u64,
    faults: usize,
) -> Result<Text, AllocError>
    ensures { IfOk result (λ text. text ≡ progress_since steps faults machine.now) }
{
    let mut text = Text::new(alloc);
    put_faults(&mut text, machine.faults(), faults)?;
    put_did(
        &mut text,
        machine.taken().saturating_sub(steps),
        machine.rest(),
    )?;
    Ok(text)
}

/// Puts a line for each fault but the first ones.
fn put_faults(text: &mut Text, faults: &[Fault], known: usize) -> Result<(), AllocError>
    ensures { OnOk result (text.new ≡ text.old ++ flat_map fault_line (drop known faults.now)) }
{
    if known < faults.len() {
        put_all_faults(text, &faults[known..])?;
    }
    Ok(())
}

fn put_all_faults(text: &mut Text, faults: &[Fault]) -> Result<(), AllocError>
    ensures { OnOk result (text.new ≡ text.old ++ flat_map fault_line faults.now) }
{
    for fault in faults {
        put_fault(text, fault)?;
    }
    Ok(())
}
