//! `Report`: what a play printed, read back.

pub(crate) mod characters;
pub(crate) mod fault;
pub(crate) mod frame;
pub(crate) mod frames;
pub(crate) mod front;
pub(crate) mod last;
pub(crate) mod line;
pub(crate) mod number;
pub(crate) mod printed;
pub(crate) mod row;
pub(crate) mod run;
pub(crate) mod shown;

ghost use Rattle.std.specs.Prelude.{◌≡◌, ◌==◌, ◌+◌, ◌≤◌, ◌++◌, ◌∷◌, [], count_by, length, take, IfOk, IfErr, OnOk};
ghost use Rattle.mh_look.specs.Report.{Report as Printed};
ghost use Rattle.mh_look.specs.Reading.{IsReportOf, IsRight};

use crate::report::last::Last;
use crate::report::line::read_total;
use mh_model::{Fault, Picture, Rest};
use std::alloc::{AllocError, Global};
use std::marker::Model;

/// What happened in a play, in the order in which it was told.
#[derive(Drop)]
pub enum Part {
    /// An item that could not be done.
    Fault(Fault),
    /// A post that was refused, with the number of why.
    Refused(u32),
    /// So many steps were done, and what was left to do then.
    Did(u64, Rest),
    /// What was shown.
    Frame(Picture),
}

/// What a play printed.
#[derive(Drop)]
pub struct Report {
    pub parts: Vec<Part>,
    /// The steps that were done in all.
    pub total: u64,
}

impl Model for Report {
    ghost use Rattle.mh_look.specs.Report.{Report};

    ghost Value = { Report };

    ghost view = { λ r. record { parts = r.parts.items; total = r.total } };
}

/// Why bytes could not be read as a report.
#[derive(Drop)]
pub enum ReadError {
    /// What stands in this line, counted from 1, is no report's.
    Line(usize),
    NoMemory,
}

impl From<AllocError> for ReadError {
    ghost use Rattle.std.specs.Prelude.{◌≡◌};
    ghost use Rattle.mh_look.specs.declared.report.ReadError.TheVariants.{NoMemory};

    ghost from_gives = { λ _ e. e ≡ NoMemory };

    fn from(_refused: AllocError) -> ReadError {
        ReadError::NoMemory
    }
}

/// Reads what a play printed.
pub fn read_report(alloc: Global, bytes: &[u8]) -> Result<Report, ReadError>
    ensures found { IfOk result (IsReportOf bytes.now) }
    ensures only { IfOk result (λ report. (other : Printed) → IsReportOf bytes.now other → report ≡ other) }
    ensures none { IfErr result (IsRight bytes.now) }
{
    let mut parts = Vec::new(alloc);
    let mut last = Last::none(alloc)?;
    let mut at = 0;
    loop {
        if let Some(total) = read_total(alloc, &bytes[at..])? {
            return Ok(Report { parts, total });
        }
        let Some((part, length)) = last.read_part(alloc, &bytes[at..])? else {
            let stop = last.stop(alloc, &bytes[at..])?;
            return Err(ReadError::Line(line_at(bytes, at + stop)));
        };
        put_behind(&mut parts, part)?;
        at += length;
    }
}

fn put_behind(parts: &mut Vec<Part>, part: Part) -> Result<(), AllocError>
    ensures { OnOk result (parts.new.items ≡ parts.old.items ++ part ∷ []) }
{
    parts.push(part)?;
    Ok(())
}

/// The line in which this place lies, counted from 1.
fn line_at(bytes: &[u8], at: usize) -> usize
    requires { at ≤ length bytes.now }
    ensures { result ≡ 1 + count_by (λ b. b == 10) (take at bytes.now) }
{
    1 + bytes[..at].iter().filter(|byte| **byte == b'\n').count()
}
