//! The lines of a report between its frames.
ghost use Rattle.std.specs.Prelude.{◌≡◌, ◌++◌, OnOk};
ghost use Rattle.mh_told.specs.Told.{fault_word, rest_word, fault_line, refused_line, did_line, total_line};

use crate::text::Text;
use mh_model::{Fault, FaultKind, Rest};
use std::alloc::AllocError;

/// Puts the line on a fault: what is wrong, the action, and the reference at the wrong place.
#[tactic(auto, unfolding(crate::specs::Told::fault_line))]
pub fn put_fault(text: &mut Text, fault: &Fault) -> Result<(), AllocError>
    ensures { OnOk result (text.new ≡ text.old ++ fault_line fault.now) }
{
    text.put(b"fault ")?;
    text.put(fault_word(fault.what))?;
    text.put(b" ")?;
    text.put(fault.action.word())?;
    text.put(b" ")?;
    text.put(fault.at.group.as_bytes())?;
    text.put(b" ")?;
    text.put_number(u64::from(fault.at.number))?;
    text.put(b"\n")
}

fn fault_word(kind: FaultKind) -> &'static [u8]
    ensures { result.now ≡ fault_word kind }
{
    match kind {
        FaultKind::Absent => b"absent",
        FaultKind::WrongClass => b"class",
        FaultKind::WrongKind => b"kind",
    }
}

/// Puts the line on a post that was refused under this number.
#[tactic(auto, unfolding(crate::specs::Told::refused_line))]
pub fn put_refused(text: &mut Text, number: u32) -> Result<(), AllocError>
    ensures { OnOk result (text.new ≡ text.old ++ refused_line number) }
{
    text.put(b"refused ")?;
    text.put_number(u64::from(number))?;
    text.put(b"\n")
}

/// Puts the line on how many steps were done, and what is left to do.
#[tactic(auto, unfolding(crate::specs::Told::did_line))]
pub fn put_did(text: &mut Text, steps: u64, rest: Rest) -> Result<(), AllocError>
    ensures { OnOk result (text.new ≡ text.old ++ did_line steps rest) }
{
    text.put(b"did ")?;
    text.put_number(steps)?;
    text.put(rest_word(rest))?;
    text.put(b"\n")
}

fn rest_word(rest: Rest) -> &'static [u8]
    ensures { result.now ≡ rest_word rest }
{
    match rest {
        Rest::Idle => b" idle",
        Rest::More => b" more",
        Rest::Ended => b" ended",
    }
}

/// Puts the last line: how many steps were done in all.
#[tactic(auto, unfolding(crate::specs::Told::total_line))]
pub fn put_total(text: &mut Text, steps: u64) -> Result<(), AllocError>
    ensures { OnOk result (text.new ≡ text.old ++ total_line steps) }
{
    text.put(b"total ")?;
    text.put_number(steps)?;
    text.put(b"\n")
}
