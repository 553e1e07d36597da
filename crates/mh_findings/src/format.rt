//! The forms in which a list of findings is told.
ghost use Rattle.std.specs.Prelude.{◌≡◌, ◌++◌, OnOk};
ghost use Rattle.std.specs.List.{flat_map};
ghost use Rattle.mh_findings.specs.Formats.{entry};

use crate::finding::Finding;
use crate::github::put_annotation;
use crate::json::put_json;
use crate::short::put_short;
use mh_told::text::Text;
use std::alloc::{AllocError, Global};

/// A form.
#[derive(Clone, Copy)]
pub enum Format {
    /// A line each, as compilers print them.
    Short,
    /// An object of JSON each, in a line.
    Json,
    /// An annotation of a workflow each.
    Github,
}

/// Puts an entry for each finding.
pub fn put_findings(
    alloc: Global,
    text: &mut Text,
    format: Format,
    findings: &[Finding],
) -> Result<(), AllocError>
    ensures { OnOk result (text.new ≡ text.old ++ flat_map (entry format) findings.now) }
{
    for finding in findings {
        put_entry(alloc, text, format, finding)?;
    }
    Ok(())
}

#[tactic(auto, unfolding(crate::specs::Formats::entry))]
fn put_entry(
    alloc: Global,
    text: &mut Text,
    format: Format,
    finding: &Finding,
) -> Result<(), AllocError>
    ensures { OnOk result (text.new ≡ text.old ++ entry format finding.now) }
{
    match format {
        Format::Short => put_short(alloc, text, finding),
        Format::Json => put_json(alloc, text, finding),
        Format::Github => put_annotation(alloc, text, finding),
    }
}
