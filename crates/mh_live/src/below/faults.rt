//! The lines on the last faults, with their places.
ghost use Rattle.std.specs.Prelude.{◌≡◌, ◌++◌, drop, OnOk, IfOk};
ghost use Rattle.mh_told.specs.Reading.{without_feed};
ghost use Rattle.mh_live.specs.Below as spec;

use mh_model::Fault;
use mh_told::text::Text;
use mh_told::told;
use std::alloc::{AllocError, Global};

/// How many faults are shown.
const FAULTS: usize = 3;

/// The last faults, in order, with their places.
pub fn push_last(
    alloc: Global,
    lines: &mut Vec<Text>,
    faults: &[Fault],
    places: &[Text],
) -> Result<(), AllocError>
    ensures { OnOk result (lines.new.items ≡ lines.old.items ++ spec.last_fault_texts places.now faults.now) }
{
    let first = faults.len().saturating_sub(FAULTS);
    push_faults(alloc, lines, behind(faults, first), behind(places, first))
}

/// Those from a place on.
fn behind<T>(items: &[T], first: usize) -> &[T]
    ensures { result.now ≡ drop first items.now }
{
    if first < items.len() {
        &items[first..]
    } else {
        &[]
    }
}

fn push_faults(
    alloc: Global,
    lines: &mut Vec<Text>,
    faults: &[Fault],
    places: &[Text],
) -> Result<(), AllocError>
    ensures { OnOk result (lines.new.items ≡ lines.old.items ++ spec.fault_texts places.now faults.now) }
{
    let mut left = faults;
    let mut known = places;
    while let [fault, others @ ..] = left {
        lines.push(fault_text(alloc, fault, known)?)?;
        left = others;
        known = behind(known, 1);
    }
    Ok(())
}

/// A fault as the report tells it, with the first of these places, if there is one.
#[tactic(auto, unfolding(crate::specs::Below::fault_text))]
fn fault_text(alloc: Global, fault: &Fault, places: &[Text]) -> Result<Text, AllocError>
    ensures { IfOk result (λ text. text ≡ spec.fault_text places.now fault.now) }
{
    let mut line = Text::new(alloc);
    told::put_fault(&mut line, fault)?;
    let mut text = Text::new(alloc);
    text.put(without_feed(line.as_slice()))?;
    put_place(&mut text, places)?;
    Ok(text)
}

fn put_place(text: &mut Text, places: &[Text]) -> Result<(), AllocError>
    ensures { OnOk result (text.new ≡ text.old ++ spec.place_text places.now) }
{
    match places {
        [place, ..] => text.put(place.as_slice()),
        [] => Ok(()),
    }
}

fn without_feed(line: &[u8]) -> &[u8]
    ensures { result.now ≡ without_feed line.now }
{
    match line.strip_suffix(b"\n") {
        Some(text) => text,
        None => line,
    }
}
