//! What is found, as it is told to an editor.
ghost use Rattle.std.specs.Prelude.{◌≡◌, ◌++◌, filter, map, string_bytes, IfOk, OnOk};
ghost use Rattle.std.specs.Option.{option_copied};
ghost use Rattle.std.specs.Str.{bytes_eq};
ghost use Rattle.serde_json.specs.Data.{array};
ghost use Rattle.serde_json.specs.View.{view, items_of};
ghost use Rattle.mh_served.specs.Diagnostics as spec;

use mh_answers::{File, is_path_of, uri_of_path};
use mh_findings::{Finding, Grade, Related, Site, Words};
use mh_places::Span;
use mh_protocol::{Counter, Range, Unit, range_value};
use serde_json::{Map, Value, json, push, put};
use std::alloc::{AllocError, Global};

/// What is found of the file at a path, of all that is found of the files of a folder.
pub(crate) fn diagnostics_at(
    alloc: Global,
    unit: Unit,
    folder: &[u8],
    files: &[File],
    findings: &[Finding],
    path: &[u8],
) -> Result<Value, AllocError>
    ensures { IfOk result (λ value. view value
        ≡ array (items_of (spec.diagnostics_at unit folder.now files.now path.now findings.now))) }
{
    let mut found = Vec::new(alloc);
    for finding in findings {
        if is_at(finding, path) {
            push(
                &mut found,
                diagnostic_value(alloc, unit, folder, files, finding)?,
            )?;
        }
    }
    Ok(Value::Array(found))
}

/// Whether the finding stands in the file at the path.
pub(crate) fn is_at(finding: &Finding, path: &[u8]) -> bool
    ensures { result ≡ spec.is_at path.now finding.now }
{
    finding.at.file.as_bytes() == path
}

#[tactic(auto, unfolding(crate::specs::Diagnostics::diagnostic_data))]
fn diagnostic_value(
    alloc: Global,
    unit: Unit,
    folder: &[u8],
    files: &[File],
    finding: &Finding,
) -> Result<Value, AllocError>
    ensures { IfOk result (λ value. view value ≡ spec.diagnostic_data unit folder.now files.now finding.now) }
{
    let mut members = Map::new(alloc);
    put(
        &mut members,
        alloc,
        "code",
        words_value(alloc, &finding.rule)?,
    )?;
    put(
        &mut members,
        alloc,
        "message",
        message_value(alloc, finding)?,
    )?;
    put(
        &mut members,
        alloc,
        "range",
        site_range(alloc, unit, folder, files, &finding.at)?,
    )?;
    put(
        &mut members,
        alloc,
        "relatedInformation",
        related_value(alloc, unit, folder, files, finding.related.as_slice())?,
    )?;
    put(
        &mut members,
        alloc,
        "severity",
        Value::from(severity_of(finding.grade)),
    )?;
    put(
        &mut members,
        alloc,
        "source",
        Value::try_from_str(alloc, "redlook")?,
    )?;
    Ok(Value::Object(members))
}

fn words_value(alloc: Global, words: &Words) -> Result<Value, AllocError>
    ensures { IfOk result (λ value. view value ≡ spec.words_data words.now) }
{
    Value::try_from_str(alloc, words.as_str())
}

/// What is wrong, and the mend if there is one.
#[tactic(auto, unfolding(crate::specs::Diagnostics::message_data))]
fn message_value(alloc: Global, finding: &Finding) -> Result<Value, AllocError>
    ensures { IfOk result (λ value. view value ≡ spec.message_data finding.now) }
{
    let mut text = String::from_str(alloc, finding.what.as_str())?;
    push_mend(&mut text, finding.mend.as_ref())?;
    Ok(Value::String(text))
}

fn push_mend(text: &mut String, mend: Option<&Words>) -> Result<(), AllocError>
    ensures { OnOk result (string_bytes text.new ≡ string_bytes text.old ++ spec.mend_text (option_copied mend.entry)) }
{
    match mend {
        None => Ok(()),
        Some(mend) => {
            text.push_str("; ")?;
            text.push_str(mend.as_str())
        }
    }
}

/// The protocol's number for how grave a finding is.
fn severity_of(grade: Grade) -> u64
    ensures { result ≡ spec.severity_of grade }
{
    match grade {
        Grade::Unread | Grade::Refused | Grade::Fault => 1,
        Grade::Never => 2,
        Grade::Note => 3,
    }
}

/// The range of a site, in its text.
fn site_range(
    alloc: Global,
    unit: Unit,
    folder: &[u8],
    files: &[File],
    site: &Site,
) -> Result<Value, AllocError>
    ensures { IfOk result (λ value. view value ≡ spec.site_range unit folder.now files.now site.now) }
{
    let text = text_at(folder, files, site.file.as_bytes());
    range_value(alloc, span_range(unit, text, &site.span))
}

/// The range of the bytes of a span.
fn span_range(unit: Unit, text: &[u8], span: &Span) -> Range
    ensures { result ≡ spec.span_range unit text.now span.now }
{
    let mut places = Counter::of(unit, text);
    Range {
        start: places.place_at(span.start.byte),
        end: places.place_at(span.end.byte),
    }
}

/// The text of the file at a path; none at all where there is no such file.
fn text_at<'a>(folder: &[u8], files: &'a [File], path: &[u8]) -> &'a [u8]
    ensures { result.now ≡ spec.text_at folder.now files.now path.now }
{
    match file_at(folder, files, path) {
        Some(file) => file.1.as_slice(),
        None => &[],
    }
}

fn file_at<'a>(folder: &[u8], files: &'a [File], path: &[u8]) -> Option<&'a File>
    ensures { option_copied result ≡ spec.file_at folder.now files.now path.now }
{
    files
        .iter()
        .find(|file| is_path_of(folder, file.0.as_bytes(), path))
}

fn related_value(
    alloc: Global,
    unit: Unit,
    folder: &[u8],
    files: &[File],
    related: &[Related],
) -> Result<Value, AllocError>
    ensures { IfOk result (λ value. view value
        ≡ array (items_of (map (spec.related_data unit folder.now files.now) related.now))) }
{
    let mut found = Vec::new(alloc);
    for other in related {
        push(&mut found, related_to(alloc, unit, folder, files, other)?)?;
    }
    Ok(Value::Array(found))
}

#[tactic(auto, unfolding(crate::specs::Diagnostics::related_data))]
fn related_to(
    alloc: Global,
    unit: Unit,
    folder: &[u8],
    files: &[File],
    related: &Related,
) -> Result<Value, AllocError>
    ensures { IfOk result (λ value. view value ≡ spec.related_data unit folder.now files.now related.now) }
{
    let location = site_value(alloc, unit, folder, files, &related.at)?;
    json!(in alloc; {"location": location, "message": related.what.as_str()})
}

#[tactic(auto, unfolding(crate::specs::Diagnostics::site_data))]
fn site_value(
    alloc: Global,
    unit: Unit,
    folder: &[u8],
    files: &[File],
    site: &Site,
) -> Result<Value, AllocError>
    ensures { IfOk result (λ value. view value ≡ spec.site_data unit folder.now files.now site.now) }
{
    let range = site_range(alloc, unit, folder, files, site)?;
    let uri = uri_of_path(alloc, site.file.as_bytes())?;
    json!(in alloc; {"range": range, "uri": uri.as_str()})
}
