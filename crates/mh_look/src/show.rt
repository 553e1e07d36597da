//! A report as a terminal shows it: its frames in colours or plain, and its lines between them.
//!
//! What stands in a report never tells the terminal what to do: each character that would is shown
//! as U+FFFD.
ghost use Rattle.std.specs.Prelude.{◌≡◌, ◌<◌, ◌≤◌, ◌+◌, ◌-◌, ◌^◌, ◌++◌, OnOk};
ghost use Rattle.mh_look.specs.Shown.{shown_part, shown_from, line_of, passed as passed_lem};

use crate::report::{Part, Report};
use mh_terminal::put_frame;
use mh_told::text::Text;
use mh_told::told::{put_did, put_fault, put_refused, put_total};
use std::alloc::AllocError;

/// Puts the whole report: each frame below its number, and the other lines as they stand in the
/// report.
pub fn put_report(text: &mut Text, report: &Report, plain: bool) -> Result<(), AllocError>
    ensures { OnOk result (text.new ≡ text.old ++ shown_from plain 0 report.now.parts report.now.total) }
{
    let mut passed = 0;
    for part in &report.parts {
        put_part(text, passed, part, plain)?;
        passed = frames_up_to(passed, part);
    }
    put_total(text, report.total)
}

/// How many frames there are up to this part, where there are so many before it.
pub fn frames_up_to(passed: u64, part: &Part) -> u64
    requires { passed < 2 ^ 64 - 1 }
    ensures number { result ≡ passed_lem passed part.now }
    ensures within { result ≤ passed + 1 }
{
    match part {
        Part::Frame(_) => passed + 1,
        _ => passed,
    }
}

/// Puts a part, before which there are so many frames.
#[tactic(auto, unfolding(crate::specs::Shown::shown_part))]
fn put_part(text: &mut Text, passed: u64, part: &Part, plain: bool) -> Result<(), AllocError>
    requires { passed < 2 ^ 64 - 1 }
    ensures { OnOk result (text.new ≡ text.old ++ shown_part plain passed part.now) }
{
    match part {
        Part::Frame(picture) => put_frame(text, passed + 1, picture, plain),
        _ => put_line(text, part),
    }
}

/// Puts the line of a part that is no frame.
#[tactic(auto, unfolding(crate::specs::Shown::line_of))]
pub fn put_line(text: &mut Text, part: &Part) -> Result<(), AllocError>
    ensures { OnOk result (text.new ≡ text.old ++ line_of part.now) }
{
    match part {
        Part::Fault(fault) => put_fault(text, fault),
        Part::Refused(number) => put_refused(text, *number),
        Part::Did(steps, rest) => put_did(text, *steps, *rest),
        Part::Frame(_) => Ok(()),
    }
}
