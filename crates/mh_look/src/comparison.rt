//! What is said of two reports, and whether they differ: in frames, and where that is asked for in lines.

pub(crate) mod difference;
pub(crate) mod line_changes;
pub(crate) mod telling;

ghost use Rattle.std.specs.Prelude.{◌≡◌, ◌||◌, ◌++◌, IfOk};
ghost use Rattle.mh_look.specs.LineChanges.{changed_lines, comparison, differ, is_some_line, or_same};

use crate::comparison::difference::compare;
use crate::comparison::line_changes::{SAME_LINES, put_changed_lines};
use crate::comparison::telling::told;
use crate::report::Report;
use mh_told::text::Text;
use std::alloc::{AllocError, Global};

/// What is said of two reports.
#[derive(Drop)]
pub struct Comparison {
    pub text: Text,
    /// Whether they differ.
    pub differs: bool,
}

/// What is said of two reports, and where that is asked for of their lines.
#[tactic(auto, unfolding(crate::specs::LineChanges::comparison))]
pub fn compared(
    alloc: Global,
    first: &Report,
    second: &Report,
    lines: bool,
) -> Result<Comparison, AllocError>
    ensures text { IfOk result (λ c. c.text ≡ comparison lines first.now second.now) }
    ensures differs { IfOk result (λ c. c.differs ≡ differ lines first.now second.now) }
{
    let difference = compare(first.parts.as_slice(), second.parts.as_slice());
    let text = told(alloc, first, second, difference)?;
    let differs = difference.is_somewhere();
    if lines {
        return with_lines(alloc, first, second, text, differs);
    }
    Ok(Comparison { text, differs })
}

/// What is said of frames, and of lines behind it.
fn with_lines(
    alloc: Global,
    first: &Report,
    second: &Report,
    front: Text,
    before: bool,
) -> Result<Comparison, AllocError>
    ensures text { IfOk result (λ c. c.text ≡ front ++ or_same (changed_lines first.now second.now)) }
    ensures differs { IfOk result (λ c. c.differs ≡ before || is_some_line (changed_lines first.now second.now)) }
{
    let mut lines = Text::new(alloc);
    put_changed_lines(alloc, &mut lines, first, second)?;
    let mut text = front;
    text.put(or_same(lines.as_slice()))?;
    let differs = before || is_some_line(lines.as_slice());
    Ok(Comparison { text, differs })
}

/// The lines that differ, or that none does.
fn or_same(lines: &[u8]) -> &[u8]
    ensures { result.now ≡ or_same lines.now }
{
    match lines {
        [] => SAME_LINES,
        _ => lines,
    }
}

fn is_some_line(lines: &[u8]) -> bool
    ensures { result ≡ is_some_line lines.now }
{
    !lines.is_empty()
}
