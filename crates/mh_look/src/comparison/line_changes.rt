//! The lines between the frames in which two reports differ, as far as both have frames.
ghost use Rattle.std.specs.Prelude.{◌≡◌, ◌<◌, ◌∷◌, ◌++◌, OnOk, IfSome, length};
ghost use Rattle.std.specs.List.{position};
ghost use Rattle.std.specs.Option.{option_copied};
ghost use Rattle.mh_look.specs.LineChanges.{is_frame, steps, steps_behind, place, told_line, told_lines, both_lines, changed_step, changed_steps, changed_totals, changed_lines, own_total};
ghost use Rattle.mh_look.specs.Shown.{line_of};

use crate::report::{Part, Report};
use crate::show::put_line;
use mh_told::text::Text;
use mh_told::told::put_total;
use std::alloc::{AllocError, Global};

// Whose line it is.
pub const FIRST: &[u8] = b"the first";

pub const SECOND: &[u8] = b"the second";

// Where it stands.
pub const IN_FRONT: &[u8] = b" before frame 1: ";

pub const BEHIND: &[u8] = b" behind frame ";

/// What is said where all lines are the same.
pub const SAME_LINES: &[u8] = b"the same lines\n";

/// Puts the lines in which two reports differ.
#[tactic(auto, unfolding(crate::specs::LineChanges::changed_lines))]
pub(crate) fn put_changed_lines(
    alloc: Global,
    text: &mut Text,
    first: &Report,
    second: &Report,
) -> Result<(), AllocError>
    ensures { OnOk result (text.new ≡ text.old ++ changed_lines first.now second.now) }
{
    put_changed_steps(alloc, text, first.parts.as_slice(), second.parts.as_slice())?;
    put_changed_totals(text, first.total, second.total)
}

/// Puts the lines that differ, before and behind each frame that both have.
fn put_changed_steps(
    alloc: Global,
    text: &mut Text,
    first: &[Part],
    second: &[Part],
) -> Result<(), AllocError>
    ensures { OnOk result (text.new ≡ text.old ++ changed_steps 0 (steps first.now) (steps second.now)) }
{
    let mut passed = 0;
    let mut ones = Some(first);
    let mut others = Some(second);
    while let Some(parts) = ones {
        let Some(other_parts) = others else {
            return Ok(());
        };
        let (one, ones_behind) = first_step(parts);
        let (other, others_behind) = first_step(other_parts);
        put_changed_step(alloc, text, passed, one, other)?;
        passed += 1;
        ones = ones_behind;
        others = others_behind;
    }
    Ok(())
}

/// What stands before the first frame, and what stands behind that, if there is one.
fn first_step(parts: &[Part]) -> (&[Part], Option<&[Part]>)
    ensures whole { steps parts.now ≡ result.0.now ∷ steps_behind (option_copied result.1) }
    ensures shorter { IfSome result.1 (λ behind. length behind.now < length parts.now) }
{
    match first_frame(parts) {
        None => (parts, None),
        Some(at) => (&parts[..at], Some(&parts[at + 1..])),
    }
}

fn first_frame(parts: &[Part]) -> Option<usize>
    ensures { result ≡ position is_frame parts.now }
{
    parts.iter().position(|part| is_frame(part))
}

fn is_frame(part: &Part) -> bool
    ensures { result ≡ is_frame part.now }
{
    matches!(part, Part::Frame(_))
}

/// Puts the lines that differ behind so many frames, line by line.
fn put_changed_step(
    alloc: Global,
    text: &mut Text,
    passed: u64,
    first: &[Part],
    second: &[Part],
) -> Result<(), AllocError>
    ensures { OnOk result (text.new ≡ text.old ++ changed_step passed first.now second.now) }
{
    let mut ones = first;
    let mut others = second;
    while let Some((one, ones_behind)) = ones.split_first() {
        let Some((other, others_behind)) = others.split_first() else {
            return put_told_lines(alloc, text, FIRST, passed, ones);
        };
        put_both_lines(alloc, text, passed, one, other)?;
        ones = ones_behind;
        others = others_behind;
    }
    put_told_lines(alloc, text, SECOND, passed, others)
}

/// Puts lines that one of the reports has alone.
#[tactic(auto, unfolding(crate::specs::LineChanges::told_lines))]
fn put_told_lines(
    alloc: Global,
    text: &mut Text,
    whose: &[u8],
    passed: u64,
    parts: &[Part],
) -> Result<(), AllocError>
    ensures { OnOk result (text.new ≡ text.old ++ told_lines whose.now passed parts.now) }
{
    for part in parts {
        put_told_part(alloc, text, whose, passed, part)?;
    }
    Ok(())
}

fn put_told_part(
    alloc: Global,
    text: &mut Text,
    whose: &[u8],
    passed: u64,
    part: &Part,
) -> Result<(), AllocError>
    ensures { OnOk result (text.new ≡ text.old ++ told_line whose.now passed (line_of part.now)) }
{
    let mut line = Text::new(alloc);
    put_line(&mut line, part)?;
    put_told_line(text, whose, passed, line.as_slice())
}

#[tactic(auto, unfolding(crate::specs::LineChanges::told_line))]
fn put_told_line(text: &mut Text, whose: &[u8], passed: u64, line: &[u8]) -> Result<(), AllocError>
    ensures { OnOk result (text.new ≡ text.old ++ told_line whose.now passed line.now) }
{
    text.put(whose)?;
    put_place(text, passed)?;
    text.put(line)
}

/// Puts behind which frame a line stands.
#[tactic(auto, unfolding(crate::specs::LineChanges::place))]
fn put_place(text: &mut Text, passed: u64) -> Result<(), AllocError>
    ensures { OnOk result (text.new ≡ text.old ++ place passed) }
{
    if passed == 0 {
        return text.put(IN_FRONT);
    }
    text.put(BEHIND)?;
    text.put_number(passed)?;
    text.put(b": ")
}

/// Puts the lines of two parts, if they differ.
fn put_both_lines(
    alloc: Global,
    text: &mut Text,
    passed: u64,
    first: &Part,
    second: &Part,
) -> Result<(), AllocError>
    ensures { OnOk result (text.new ≡ text.old ++ both_lines passed (line_of first.now) (line_of second.now)) }
{
    let mut one = Text::new(alloc);
    put_line(&mut one, first)?;
    let mut other = Text::new(alloc);
    put_line(&mut other, second)?;
    put_unless_same(text, passed, one.as_slice(), other.as_slice())
}

#[tactic(auto, unfolding(crate::specs::LineChanges::both_lines))]
fn put_unless_same(text: &mut Text, passed: u64, one: &[u8], other: &[u8]) -> Result<(), AllocError>
    ensures { OnOk result (text.new ≡ text.old ++ both_lines passed one.now other.now) }
{
    if one == other {
        return Ok(());
    }
    put_told_line(text, FIRST, passed, one)?;
    put_told_line(text, SECOND, passed, other)
}

/// Puts how many steps were done in all, if that differs.
#[tactic(auto, unfolding(crate::specs::LineChanges::changed_totals))]
fn put_changed_totals(text: &mut Text, first: u64, second: u64) -> Result<(), AllocError>
    ensures { OnOk result (text.new ≡ text.old ++ changed_totals first second) }
{
    if first == second {
        return Ok(());
    }
    put_own_total(text, FIRST, first)?;
    put_own_total(text, SECOND, second)
}

#[tactic(auto, unfolding(crate::specs::LineChanges::own_total))]
fn put_own_total(text: &mut Text, whose: &[u8], total: u64) -> Result<(), AllocError>
    ensures { OnOk result (text.new ≡ text.old ++ own_total whose.now total) }
{
    text.put(whose)?;
    text.put(b": ")?;
    put_total(text, total)
}
